// How a weight is printed.
ghost use Rattle.std.specs.Prelude.{Some};
ghost use Rattle.kinds.specs.Weight.{pattern};
ghost use Rattle.script.specs.Text.{pattern_text};

use kinds::{Kind, Small};
use std::fmt;

// A weight by the eight digits of its pattern.
#[derive(Drop)]
pub struct Pattern(pub f32);

impl fmt::Display for Pattern {
    ghost output = { λ p. Some (pattern_text (pattern p.0)) };

    #[tactic(auto, using(crate::proofs::Hex::padded_pattern))]
    fn fmt<W: fmt::Write>(&self, f: &mut fmt::Formatter<W>) -> fmt::Result {
        let bits = Small::record(self.0);
        write!(f, "{bits:08X}")
    }
}
