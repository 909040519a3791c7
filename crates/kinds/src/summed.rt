// A kind whose weights can be added.
ghost use Rattle.std.specs.Prelude.{◌≡◌, Float};
ghost use Rattle.kinds.specs.Meaning.{Numbering};

use crate::kind::Kind;

pub trait SummedKind: Kind {
    // The weight as a binary32 number.
    ghost number: { Self.Weight → Float };

    fn number_of(weight: Self::Weight) -> f32
        ensures value { result ≡ number weight }
        ensures numbering { Numbering Self.Kind.meaning number };

    // Computes nothing: called for its promise, that fit weights have numbers from 00000000 to
    // 7F7FFFFF and that the smaller number is stronger.
    fn numbers_hold()
        ensures { Numbering Self.Kind.meaning number };
}
