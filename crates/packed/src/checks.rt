// The refusals of both runs but for the rows' own, in their order. Nothing is stored.
ghost use Rattle.std.specs.Prelude.{◌≡◌, ◌≤◌};
ghost use Rattle.packed.specs.Packed.{most_terms, most_rows, batch};
ghost use Rattle.packed.specs.Calls.{lengths_fit, sized};
ghost use Rattle.packed.specs.Parts.{list_fits};

use crate::Refusal;

pub const MOST_TERMS: usize = 8;

pub const MOST_ROWS: usize = 4096;

// Terms and rows are within their bounds, so no product here wraps. Here and below nothing is a `Checked`: both checks come before one, since
// it has no overfull row.
#[tactic(auto, unfolding(crate::specs::Calls::lengths_fit))]
fn lengths_fit(terms: usize, rows: usize, a: &[i8], d: &[i8], b: &[i8], answers: usize) -> bool
    requires { (terms ≤ most_terms) × (rows ≤ most_rows) }
    ensures { result ≡ lengths_fit (batch terms rows a.now d.now b.now) answers }
{
    let area = rows * terms;
    (a.len() == area) & (d.len() == area) & (b.len() == area) & (answers == 2 * rows)
}

// The list has its length; the plain run is lent none.
fn list_fits(terms: usize, rows: usize, list: Option<usize>) -> bool
    requires { (terms ≤ most_terms) × (rows ≤ most_rows) }
    ensures { result ≡ list_fits terms rows list }
{
    list.is_none_or(|words| words == rows + terms + 3)
}

// The terms, the rows and the lengths are right, or why not.
#[tactic(auto, unfolding(crate::specs::Calls::sized))]
pub fn run_answer(
    terms: usize,
    rows: usize,
    a: &[i8],
    d: &[i8],
    b: &[i8],
    answers: usize,
    list: Option<usize>,
) -> Result<(), Refusal>
    ensures { result ≡ sized (batch terms rows a.now d.now b.now) answers (list_fits terms rows list) (Ok tt) }
{
    if !(1..=MOST_TERMS).contains(&terms) {
        return Err(Refusal::BadTerms);
    }
    if !(1..=MOST_ROWS).contains(&rows) {
        return Err(Refusal::BadRows);
    }
    let lengths = lengths_fit(terms, rows, a, d, b, answers);
    if !(lengths & list_fits(terms, rows, list)) {
        return Err(Refusal::BadLength);
    }
    Ok(())
}
