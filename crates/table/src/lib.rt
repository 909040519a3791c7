// A table of nodes: what a node records, its children, the free places, and the tree that a table
// holds.
#![tactic(auto)]

pub mod children;
pub mod free;
pub mod header;
pub mod node;
pub mod subtree;
