// The walks over the tree in a table.
#![tactic(auto)]

pub mod entries;
pub mod pile;
pub mod range;
