// Runs the calls at the limits that 01 asks to be run ("Values to hold against"), the terms as 02, Ask 6, has them: 24 slices
// pass, 0 and 25 are refused; 7 and 8 terms pass, 8 are refused where a row is overfull, 9 always. A line says what was tried,
// and the answer's number and place; of a run also its clocks, and whether its answers are right.
#![tactic(auto)]

ghost use Rattle.std.specs.Prelude.{◌+◌, ◌≤◌};

use column::{Attributes, Outputs, Ports, Registers};
use std::io;

// As many slices as are tried: one more than a column has.
const MOST_SLICES: usize = 25;

// A clock of cleared slices.
fn slices(rt: &impl Print, count: usize) -> io::Result<()>
    requires { count ≤ 25 }
{
    let attributes = [0u64; Attributes::WORDS * MOST_SLICES];
    let mut registers = [0u64; Registers::WORDS * MOST_SLICES];
    let ports = [0u64; Ports::WORDS * MOST_SLICES];
    let mut outputs = [0u64; Outputs::WORDS * MOST_SLICES];
    let answer = column::clock(
        count,
        &attributes[..Attributes::WORDS * count],
        &mut registers[..Registers::WORDS * count],
        &ports[..Ports::WORDS * count],
        &mut outputs[..Outputs::WORDS * count],
    );
    let number = column::number(answer);
    let place = column::place(answer);
    println!(rt; "{count} slices: {number} {place}")
}

// A run of rows of terms, of whose last row both answers should be `right`.
fn terms(
    rt: &impl Print,
    terms: usize,
    rows: usize,
    a: &[i8],
    d: &[i8],
    b: &[i8],
    right: i32,
) -> io::Result<()>
    requires { (1 ≤ rows) × (rows ≤ 2) × (rows + terms ≤ 10) }
{
    let mut answers = [0i32; 4];
    let mut list = [0u64; 13];
    let run = packed::packed_clocked(
        terms,
        rows,
        a,
        d,
        b,
        &mut answers[..2 * rows],
        &mut list[..rows + terms + 3],
    );
    let number = packed::number(run);
    let place = packed::place(run);
    let clocks = packed::clocks(run);
    let high = (answers[2 * rows - 2] == right) as u64;
    let low = (answers[2 * rows - 1] == right) as u64;
    println!(rt; "{terms} terms: {number} {place} {clocks} {high} {low}")
}

fn main(rt: HostRuntime) -> io::Result<()> {
    slices(&rt, 24)?;
    slices(&rt, 0)?;
    slices(&rt, 25)?;

    // One row, of which each number is -128: 7 times 128 times 128, twice.
    let lowest = [-128i8; 16];
    terms(&rt, 7, 1, &lowest[..7], &lowest[..7], &lowest[..7], 114688)?;

    // The same with one term more, whose b is -127: 128 times 127 more, twice.
    let mut b = [-128i8; 8];
    b[7] = -127;
    terms(&rt, 8, 1, &lowest[..8], &lowest[..8], &b, 130944)?;

    // Two rows, of which the second is all -128 and the first has one d that is not. Refused, so the answers stay 0.
    let mut d = [-128i8; 16];
    d[0] = 0;
    terms(&rt, 8, 2, &lowest, &d, &lowest, 131072)?;

    // Refused too.
    let ones = [1i8; 9];
    terms(&rt, 9, 1, &ones, &ones, &ones, 9)
}
