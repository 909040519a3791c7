// Residuals by epoch, of which either the large or the small ones are strong.
ghost use Rattle.kinds.specs.Kinds.{residuals};
ghost use Rattle.kinds.specs.Weights.{residual-weights};
ghost use Rattle.std.proofs.Common.{rules};

use crate::kind::Kind;
use crate::residual::Residual;
use crate::summed::SummedKind;
use crate::weight::{by_size, fit_weight, pattern_of, weight_of};
use std::cmp::Ordering;

#[derive(Drop)]
pub struct Residuals<const LARGE_FIRST: bool>;

pub type Large = Residuals<true>;

pub type Small = Residuals<false>;

impl<const LARGE_FIRST: bool> Kind for Residuals<LARGE_FIRST> {
    type Coordinate = u64;

    type Weight = f32;

    type Recorded = u32;

    ghost meaning = { residuals LARGE_FIRST };

    ghost first = { Prim.search rules };

    ghost second = { residual-weights LARGE_FIRST };

    fn order(a: u64, b: u64) -> Ordering {
        a.cmp(&b)
    }

    fn strength(a: f32, b: f32) -> Ordering {
        if LARGE_FIRST {
            by_size(b, a)
        } else {
            by_size(a, b)
        }
    }

    fn is_fit(at: u64, weight: f32) -> bool {
        Residual {
            epoch: at,
            number: 0,
            weight,
        }
        .is_fit()
    }

    fn is_threshold(weight: f32) -> bool {
        fit_weight(weight)
    }

    fn record(weight: f32) -> u32 {
        pattern_of(weight)
    }

    fn recall(recorded: u32) -> f32 {
        weight_of(recorded)
    }
}

impl SummedKind for Small {
    ghost number = { λ w. w };

    fn number_of(weight: f32) -> f32 {
        weight
    }

    fn numbers_hold() {}
}
