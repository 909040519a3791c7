// Sums of binary32 numbers in a given order, and how they grow.
#![tactic(auto)]

ghost use Rattle.sums.specs.Sum.{WorkedSums};

// Computes nothing: some sums, worked by hand, are what the definition says.
pub fn worked_sums_hold()
    ensures { WorkedSums }
{}
