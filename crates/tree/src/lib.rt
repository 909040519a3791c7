// The tree in a table of nodes: search, and the points that its nodes keep.
#![tactic(auto)]

pub mod keep;
pub mod rewrite;
pub mod search;
pub mod settle;
pub mod theorems;
