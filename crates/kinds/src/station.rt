// Stations by their codes, of which those with a small weight are strong. A block beside that of
// residuals, though three answers and what is summed are alike: the coordinate is of another type, and each is
// one call.
ghost use Rattle.kinds.specs.Kinds.{station};
ghost use Rattle.kinds.specs.Codes.{code-law, code-weights};

use crate::code::Code;
use crate::kind::Kind;
use crate::summed::SummedKind;
use crate::weight::{by_size, fit_weight, pattern_of, weight_of};
use std::cmp::Ordering;

#[derive(Drop)]
pub struct Station;

impl Kind for Station {
    type Coordinate = Code;

    type Weight = f32;

    type Recorded = u32;

    ghost meaning = { station };

    ghost first = { code-law };

    ghost second = { code-weights };

    fn order(a: Code, b: Code) -> Ordering {
        Code::order(a, b)
    }

    fn strength(a: f32, b: f32) -> Ordering {
        by_size(a, b)
    }

    fn is_fit(at: Code, weight: f32) -> bool {
        at.is_fit() & fit_weight(weight)
    }

    fn is_threshold(weight: f32) -> bool {
        fit_weight(weight)
    }

    fn record(weight: f32) -> u32 {
        pattern_of(weight)
    }

    fn recall(recorded: u32) -> f32 {
        weight_of(recorded)
    }
}

impl SummedKind for Station {
    ghost number = { λ w. w };

    fn number_of(weight: f32) -> f32 {
        weight
    }

    fn numbers_hold() {}
}
