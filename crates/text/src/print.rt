// Lines of numbers, printed from the front of lent bytes on. Each function answers how many bytes it put.
// No `Display`: what is printed goes into bytes that the caller lends, and `Put` says where each of them stands.
ghost use Rattle.std.specs.Prelude.{◌+◌, ◌*◌, ◌≤◌, ◌++◌, length};
ghost use Rattle.text.specs.Bytes.{field_room};
ghost use Rattle.text.specs.Printed.{field_of, fields_of, printed, Put};

use crate::ascii::{DIGIT_0, NEWLINE, TAB};
use itoa::Buffer;

// A tab and a number.
fn field(n: u64, out: &mut [u8]) -> usize
    requires { field_room ≤ length out.old }
    ensures { Put 0 (field_of n) out.old result out.new }
{
    out[0] = TAB;
    // Most numbers have one digit: those are put without a call.
    if n < 10 {
        out[1] = DIGIT_0 + n as u8;
        return 2;
    }
    let mut buffer = Buffer::new();
    let digits = buffer.format(n).as_bytes();
    let end = 1 + digits.len();
    out[1..end].copy_from_slice(digits);
    end
}

// Each number after a tab.
fn fields(numbers: &[u64], out: &mut [u8]) -> usize
    requires { field_room * length numbers.now ≤ length out.old }
    ensures { Put 0 (fields_of numbers.now) out.old result out.new }
{
    let mut end = 0;
    for n in numbers {
        end += field(*n, &mut out[end..]);
    }
    end
}

// The letter, the numbers of both lists and a newline.
pub fn line(letter: u8, numbers: &[u64], more: &[u64], out: &mut [u8]) -> usize
    requires { field_room * (length numbers.now + length more.now) + 2 ≤ length out.old }
    ensures { Put 0 (printed letter (numbers.now ++ more.now)) out.old result out.new }
{
    out[0] = letter;
    let mut end = 1;
    end += fields(numbers, &mut out[end..]);
    end += fields(more, &mut out[end..]);
    out[end] = NEWLINE;
    end + 1
}
