// Lines of numbers as bytes: read and printed. Every call takes whatever it is given.
#![tactic(auto)]

ghost use Rattle.std.specs.Prelude.{◌++◌};
ghost use Rattle.text.specs.Printed.{line_within, Put};
ghost use Rattle.text.specs.Calls.{Taken};

mod ascii;
mod fields;
mod numeral;
mod print;

pub use ascii::NEWLINE;
pub use fields::MOST_BYTES;

// Fills `into` with the numbers of a line, and answers whether the line is the letter and as many numbers. `into` is zeros where it
// is not. The answer is no `Option`: the words are the caller's (nothing is on a heap), and `Taken` says what they hold either way.
pub fn line(s: &[u8], letter: u8, into: &mut [u64]) -> bool
    ensures { Taken letter s.now into.old result into.new }
{
    if fields::filled(s, letter, into) {
        return true;
    }
    lent::zero(into);
    false
}

// Room for a printed field: a tab and 20 digits.
pub const FIELD_ROOM: usize = 21;

// Prints a line from `at` on (so `put_line_once` and its callers have it): a letter, each number of both lists after a tab, and a newline.
// Answers where it ends. Where there is no room for it, nothing is printed.
pub fn put_line(letter: u8, numbers: &[u64], more: &[u64], out: &mut [u8], at: usize) -> usize
    ensures { Put at (line_within letter (numbers.now ++ more.now) at out.old) out.old result out.new }
{
    let Some(room) = out.len().checked_sub(at) else {
        return at;
    };
    if room / FIELD_ROOM <= numbers.len() + more.len() {
        return at;
    }
    at + print::line(letter, numbers, more, &mut out[at..])
}
