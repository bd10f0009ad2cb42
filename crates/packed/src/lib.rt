// The packed run: two exact dot products a row, of signed 8-bit numbers, by one column of slices or worked out directly.
// Both runs take whatever they are lent, and refuse by number what is malformed, with nothing written.
#![tactic(auto)]

ghost use Rattle.std.specs.Prelude.{◌≡◌};
ghost use Rattle.packed.specs.Packed.{batch};
ghost use Rattle.packed.specs.Calls.{number_of, clocks_of, place_of, ClockedDone, PlainDone};

mod answers;
mod batch;
mod checks;
mod clocked;
mod feed;
mod overfull;
mod plain;

use batch::Checked;

// Why a run is refused: `Overfull` has the lowest row whose low sum does not fit.
#[derive(Clone, Copy, PartialEq, Eq)]
pub enum Refusal {
    BadTerms,
    BadRows,
    BadLength,
    Overfull(usize),
}

// The clocked run: the column's own clock from a cleared column, each top P in the list, the answers read off it.
pub fn packed_clocked(
    terms: usize,
    rows: usize,
    a: &[i8],
    d: &[i8],
    b: &[i8],
    answers: &mut [i32],
    list: &mut [u64],
) -> Result<u64, Refusal>
    ensures { ClockedDone (batch terms rows a.now d.now b.now) answers.old list.old result answers.new list.new }
{
    checks::run_answer(terms, rows, a, d, b, answers.len(), Some(list.len()))?;
    overfull::rows_answer(terms, rows, d, b)?;
    let batch = Checked::new(terms, rows, a, d, b);
    let clocks = batch.stepped(list);
    batch.read_answers(&list[..], answers);
    Ok(clocks)
}

// The plain run: both sums of each row, worked out directly; no clock is stepped.
pub fn packed_plain(
    terms: usize,
    rows: usize,
    a: &[i8],
    d: &[i8],
    b: &[i8],
    answers: &mut [i32],
) -> Result<u64, Refusal>
    ensures { PlainDone (batch terms rows a.now d.now b.now) answers.old result answers.new }
{
    checks::run_answer(terms, rows, a, d, b, answers.len(), None)?;
    // Two ways to the work, so that the compiler knows on each how few terms there are.
    if terms < checks::MOST_TERMS {
        Checked::new(terms, rows, a, d, b).sums(answers);
        return Ok(0);
    }
    overfull::rows_answer(terms, rows, d, b)?;
    Checked::new(terms, rows, a, d, b).sums(answers);
    Ok(0)
}

// The number of an answer. It is 01's, which C is told. No `From`: `number_once` and its callers are of this call.
pub fn number(run: Result<u64, Refusal>) -> u64
    ensures { result ≡ number_of run }
{
    match run {
        Ok(_) => 0,
        Err(Refusal::BadTerms) => 10,
        Err(Refusal::BadRows) => 11,
        Err(Refusal::BadLength) => 2,
        Err(Refusal::Overfull(_)) => 14,
    }
}

// The clocks that an answer reports: none where it is refused.
pub fn clocks(run: Result<u64, Refusal>) -> u64
    ensures { result ≡ clocks_of run }
{
    run.unwrap_or(0)
}

// The place that an answer reports: the row, for number 14.
pub fn place(run: Result<u64, Refusal>) -> usize
    ensures { result ≡ place_of run }
{
    match run {
        Err(Refusal::Overfull(row)) => row,
        _ => 0,
    }
}
