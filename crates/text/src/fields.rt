// The fields of a line, read from left to right.
ghost use Rattle.std.specs.Prelude.{◌≡◌, length, option_map};
ghost use Rattle.text.specs.Numbers.{line_of};
ghost use Rattle.text.specs.Within.{field_first, starts, filled};

use crate::ascii::TAB;
use crate::numeral::number;

// The number after the tab that is due, and what follows it.
fn field(s: &[u8]) -> Option<(u64, &[u8])>
    ensures { option_map (λ p. (p.0, p.1.now)) result ≡ field_first s.now }
{
    let [TAB, rest @ ..] = s else {
        return None;
    };
    number(rest)
}

// Bytes in a line without its newline, at most.
pub const MOST_BYTES: usize = 512;

// Whether a line is short enough and starts with its letter. A tab is no letter: it ends a field.
fn starts(s: &[u8], letter: u8) -> bool
    ensures { result ≡ starts letter s.now }
{
    let Some(&first) = s.first() else {
        return false;
    };
    (s.len() <= MOST_BYTES) & ((first == letter) & (first != TAB))
}

// Fills `into` with the numbers of a line, and answers whether it was right. Where it was not, some of `into` may be filled.
// No `Option`: see `line`.
pub fn filled(s: &[u8], letter: u8, into: &mut [u64]) -> bool
    ensures { filled result into.new ≡ line_of letter (length into.old) s.now }
{
    if !starts(s, letter) {
        return false;
    }
    let mut rest = &s[1..];
    for number in into.iter_mut() {
        let Some((v, more)) = field(rest) else {
            return false;
        };
        *number = v;
        rest = more;
    }
    rest.is_empty()
}
