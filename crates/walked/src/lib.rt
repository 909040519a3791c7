// The range walk and the frontier walk over a tree: what they list, and how many nodes they take.
#![tactic(auto)]

pub mod theorems;
