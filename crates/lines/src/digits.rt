// Numbers in digits: decimal ones, and patterns of eight hexadecimal digits.
// Not the library's `parse`: it reads text, which a line need not be, and takes a sign, small letters and any count of digits.
// Not one function for both: it would take the base, the digits, the count and the bound as parameters.
ghost use Rattle.std.specs.Prelude.{◌≡◌, ℕ, ◌<◌, MatchOption};
ghost use Rattle.lines.specs.Digits.{Decimal, Pattern, Ten, Hex, digit};

const MOST_DIGITS: usize = 20;

const PATTERN_DIGITS: usize = 8;

// The number that a decimal field writes, if it is at most `top`.
pub fn decimal(s: &[u8], top: u64) -> Option<u64>
    ensures { MatchOption result ((n : ℕ) → Decimal top n s.now → ⊥) (λ n. Decimal top n s.now) }
{
    if s.is_empty() || s.len() > MOST_DIGITS {
        return None;
    }
    let mut n = 0u64;
    for b in s {
        let d = decimal_digit(*b)?;
        n = n.checked_mul(10)?.checked_add(u64::from(d))?;
    }
    (n <= top).then_some(n)
}

// The number that a pattern writes.
#[inline(always)]
pub fn pattern(s: &[u8]) -> Option<u32>
    ensures { MatchOption result ((n : ℕ) → Pattern n s.now → ⊥) (λ n. Pattern n s.now) }
{
    if s.len() != PATTERN_DIGITS {
        return None;
    }
    let mut n = 0u32;
    for b in s {
        let d = hex_digit(*b)?;
        n = n * 16 + u32::from(d);
    }
    Some(n)
}

fn decimal_digit(b: u8) -> Option<u8>
    ensures { MatchOption result (Ten b → ⊥) (λ d. Ten b × (d ≡ digit b)) }
{
    match b {
        b'0'..=b'9' => Some(b - b'0'),
        _ => None,
    }
}

// What a digit of a pattern stands for.
fn hex_digit(b: u8) -> Option<u8>
    ensures { MatchOption result (Hex b → ⊥) (λ d. Hex b × (d ≡ digit b) × (d < 16)) }
{
    match b {
        b'0'..=b'9' => Some(b - b'0'),
        b'A'..=b'F' => Some(b - b'A' + 10),
        _ => None,
    }
}
