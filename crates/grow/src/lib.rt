// One point more in the tree: a leaf of its own, splits where nodes are full, and a node to keep it.
#![tactic(auto)]

pub mod insert;
pub mod leaf;
pub mod split;
pub mod whole;
