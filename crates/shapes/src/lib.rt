#![tactic(auto)]

// What a leaf more and a leaf less make of a tree: lemmas only.
