#![tactic(auto)]

// How a tree is built over leaves in key order, level upon level: lemmas only.
