// The fields of each command. `point`, `listing` and `floor` differ in the types of their last two fields; what they share is `heads`.
ghost use Rattle.std.specs.Prelude.{ℕ, List, MatchOption};
ghost use Rattle.lines.specs.Limits.{most_places};
ghost use Rattle.lines.specs.Digits.{Decimal};
ghost use Rattle.lines.specs.Grammar.{Head, Then, Key, Point, Window, Listing, Floor};

use crate::digits::{decimal, pattern};
use crate::split::split_once;

const TOP_EPOCH: u64 = u64::MAX;

const TOP_NUMBER: u64 = 0xffff_ffff;

const MOST_PLACES: u64 = 64;

// The casts below lose nothing, as the check proves from these bounds, which the grammar names;
// `try_from` would hide the bound in a type.

// An epoch, a number and a pattern. In line, as are its parts: on a short line their calls would
// cost as much as a field.
#[inline(always)]
pub fn point(s: &[u8]) -> Option<(u64, u32, u32)>
    ensures { MatchOption result ((e n p : ℕ) → Point e n p s.now → ⊥) (λ t. Point t.0 t.1 t.2 s.now) }
{
    let (e, n, last) = heads(s, TOP_EPOCH, TOP_NUMBER)?;
    let p = pattern(last)?;
    Some((e, n as u32, p))
}

// An epoch and a number.
pub fn key(s: &[u8]) -> Option<(u64, u32)>
    ensures { MatchOption result ((e n : ℕ) → Key e n s.now → ⊥) (λ t. Key t.0 t.1 s.now) }
{
    let (e, n) = pair(s, TOP_EPOCH, TOP_NUMBER)?;
    Some((e, n as u32))
}

// A lower and an upper bound.
pub fn window(s: &[u8]) -> Option<(u64, u64)>
    ensures { MatchOption result ((l u : ℕ) → Window l u s.now → ⊥) (λ t. Window t.0 t.1 s.now) }
{
    pair(s, TOP_EPOCH, TOP_EPOCH)
}

// A lower and an upper bound, and how many points to list.
pub fn listing(s: &[u8]) -> Option<(u64, u64, u8)>
    ensures { MatchOption result ((l u k : ℕ) → Listing l u k s.now → ⊥) (λ t. Listing t.0 t.1 t.2 s.now) }
{
    let (l, u, last) = heads(s, TOP_EPOCH, TOP_EPOCH)?;
    let k = places(last)?;
    Some((l, u, k))
}

fn places(s: &[u8]) -> Option<u8>
    ensures { MatchOption result ((k : ℕ) → Decimal most_places k s.now → ⊥) (λ k. Decimal most_places k s.now) }
{
    let k = decimal(s, MOST_PLACES)?;
    Some(k as u8)
}

// A lower and an upper bound, and a threshold.
pub fn floor(s: &[u8]) -> Option<(u64, u64, u32)>
    ensures { MatchOption result ((l u p : ℕ) → Floor l u p s.now → ⊥) (λ t. Floor t.0 t.1 t.2 s.now) }
{
    let (l, u, last) = heads(s, TOP_EPOCH, TOP_EPOCH)?;
    let p = pattern(last)?;
    Some((l, u, p))
}

// Two decimal fields, of at most `top` and at most `next`.
fn pair(s: &[u8], top: u64, next: u64) -> Option<(u64, u64)>
    ensures { MatchOption result ((a b : ℕ) → Then top a (Decimal next b) s.now → ⊥) (λ t. Then top t.0 (Decimal next t.1) s.now) }
{
    let (a, rest) = head(s, top)?;
    let b = decimal(rest, next)?;
    Some((a, b))
}

// The same before a second blank, and what follows it.
#[inline]
fn heads(s: &[u8], top: u64, next: u64) -> Option<(u64, u64, &[u8])>
    ensures { MatchOption result ((a b : ℕ) (y : List ℕ) → Then top a (Head next b y) s.now → ⊥) (λ t. Then top t.0 (Head next t.1 t.2.now) s.now) }
{
    let (a, rest) = head(s, top)?;
    let (b, last) = head(rest, next)?;
    Some((a, b, last))
}

// A decimal field of at most `top` before the first blank, and what follows that blank.
fn head(s: &[u8], top: u64) -> Option<(u64, &[u8])>
    ensures { MatchOption result ((n : ℕ) (y : List ℕ) → Head top n y s.now → ⊥) (λ p. Head top p.0 p.1.now s.now) }
{
    let (x, y) = split_once(s, b' ')?;
    let n = decimal(x, top)?;
    Some((n, y))
}
