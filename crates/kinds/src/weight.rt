// Weights that are binary32 numbers, as large, small and station have them.
ghost use Rattle.std.specs.Prelude.{◌≡◌};
ghost use Rattle.kinds.specs.Weight.{by_size, fit_weight, pattern, weight_of};

use std::cmp::Ordering;
use std::num::{f32_from_bits_with_nan, f32_to_bits_with_nan};

// The pattern of the largest finite number.
const LARGEST_FIT: u32 = 0x7F7F_FFFF;

// `Less` if `a` is the smaller number.
pub fn by_size(a: f32, b: f32) -> Ordering
    ensures { result ≡ by_size a b }
{
    a.partial_cmp(&b).unwrap_or(Ordering::Equal)
}

// A pattern from 00000000 to 7F7FFFFF: finite and without a sign.
pub fn fit_weight(weight: f32) -> bool
    ensures { result ≡ fit_weight weight }
{
    pattern_of(weight) <= LARGEST_FIT
}

pub fn pattern_of(weight: f32) -> u32
    ensures { result ≡ pattern weight }
{
    f32_to_bits_with_nan(weight)
}

pub fn weight_of(bits: u32) -> f32
    ensures { result ≡ weight_of bits }
{
    f32_from_bits_with_nan(bits)
}
