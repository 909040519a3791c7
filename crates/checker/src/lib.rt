// A table of nodes is read, and the rules of the tree are tested in it.
#![tactic(auto)]

pub mod count;
pub mod points;
pub mod reading;
pub mod rules;
