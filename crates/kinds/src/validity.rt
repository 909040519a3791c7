// Intervals from a start to an end, of which those that end late are strong.
ghost use Rattle.kinds.specs.Kinds.{validity};
ghost use Rattle.std.proofs.Common.{rules};

use crate::kind::Kind;
use std::cmp::Ordering;

#[derive(Drop)]
pub struct Validity;

impl Kind for Validity {
    type Coordinate = u64;

    type Weight = u64;

    type Recorded = u64;

    ghost meaning = { validity };

    ghost first = { Prim.search rules };

    ghost second = { Prim.search rules };

    fn order(a: u64, b: u64) -> Ordering {
        a.cmp(&b)
    }

    fn strength(a: u64, b: u64) -> Ordering {
        b.cmp(&a)
    }

    fn is_fit(at: u64, weight: u64) -> bool {
        at <= weight
    }

    fn is_threshold(weight: u64) -> bool {
        true
    }

    fn record(weight: u64) -> u64 {
        weight
    }

    fn recall(recorded: u64) -> u64 {
        recorded
    }
}
