// The record that a filter keeps of a residual; the kinds large and small are of such records.
ghost use Rattle.std.specs.Prelude.{◌≡◌};
ghost use Rattle.kinds.specs.Weight.{fit_weight};

use crate::weight::fit_weight;

#[derive(Clone, Copy)]
pub struct Residual {
    pub epoch: u64,
    pub number: u32,
    pub weight: f32,
}

impl Residual {
    // By the bits of the weight alone: any epoch and number will do.
    pub fn is_fit(self) -> bool
        ensures { result ≡ fit_weight self.weight }
    {
        fit_weight(self.weight)
    }
}
