// A text, cut at a byte.
ghost use Rattle.std.specs.Prelude.{◌≡◌, ℕ, ◌<◌, ◌∷◌, ◌++◌, length, MatchOption, ◌≢◌, slice_index};

// What stands before the first byte `mark`, and what follows it.
pub fn split_once(s: &[u8], mark: u8) -> Option<(&[u8], &[u8])>
    ensures { MatchOption result ((k : ℕ) → k < length s.now → slice_index s.now k ≢ mark) (λ p. ((k : ℕ) → k < length p.0.now → slice_index p.0.now k ≢ mark) × (s.now ≡ p.0.now ++ mark ∷ p.1.now)) }
{
    let i = s.iter().position(|b| *b == mark)?;
    Some((&s[..i], &s[i + 1..]))
}
