// A point less in the table: neighbours joined, a leaf taken away, and the whole tree after it.
#![tactic(auto)]

pub mod join;
pub mod remove;
pub mod whole;
