// Numbers, each read in one pass over its bytes.
ghost use Rattle.std.specs.Prelude.{◌≡◌, [], ◌∷◌, option_map};
ghost use Rattle.text.specs.Numbers.{digits_from};
ghost use Rattle.text.specs.Within.{digits_at, number_first};

use crate::ascii::{DIGIT_0, TAB};

// Ten times a number up to this one, and any digit, is below 2^64.
const SAFE_TENTH: u64 = u64::MAX / 10 - 1;

// The number that one digit more makes.
fn with_digit(v: u64, b: u8) -> Option<u64>
    ensures { result ≡ digits_from v (b ∷ []) }
{
    // A byte below the first digit wraps to one above the last.
    let worth = u64::from(b.wrapping_sub(DIGIT_0));
    if 9 < worth {
        return None;
    }
    // Tried: the checked sum below for every digit. Reading a line took an eighth more instructions.
    if v <= SAFE_TENTH {
        return Some(10 * v + worth);
    }
    v.checked_mul(10)?.checked_add(worth)
}

// The number of the digits up to the next tab or the end, leading zeros let in; and how many they are.
fn digits(s: &[u8]) -> Option<(u64, usize)>
    ensures { result ≡ digits_at 0 s.now 0 }
{
    let mut v = 0;
    for (end, b) in s.iter().enumerate() {
        let Some(more) = with_digit(v, *b) else {
            // Only a digit goes on, so the tab is looked for last.
            return (*b == TAB).then_some((v, end));
        };
        v = more;
    }
    Some((v, s.len()))
}

// The number up to the next tab or the end, and what follows it.
#[tactic(auto, using(crate::proofs::Numerals::digits_within, crate::proofs::Numerals::number_read))]
pub fn number(s: &[u8]) -> Option<(u64, &[u8])>
    ensures { option_map (λ p. (p.0, p.1.now)) result ≡ number_first s.now }
{
    let (v, end) = digits(s)?;
    if end == 0 {
        return None;
    }
    // A leading zero is let in where it is the number.
    if (s[0] == DIGIT_0) & (1 < end) {
        return None;
    }
    Some((v, &s[end..]))
}
