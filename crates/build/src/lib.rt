// A tree built over leaves that lie in key order at the first places of a table.
#![tactic(auto)]

pub mod build;
pub mod leaf;
pub mod level;
