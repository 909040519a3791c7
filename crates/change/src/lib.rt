// The point of a key: its weight found, and changed.
#![tactic(auto)]

pub mod change;
pub mod find;
