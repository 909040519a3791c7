#![tactic(auto)]

// How kept points move in a tree: that the rules of kept points hold after each move.
