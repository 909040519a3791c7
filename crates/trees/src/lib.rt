#![tactic(auto)]

// The tree as a value: its rules, what a change makes of it, and that changes keep the rules.
