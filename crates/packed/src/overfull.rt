// Number 14: a row of eight terms with all d and all b -128, whose low sum, 131072, is one more than 18 bits hold.
ghost use Rattle.std.specs.Prelude.{◌≡◌, [], ◌+◌, ◌*◌, ◌≤◌, length};
ghost use Rattle.column.specs.Refusals.{lowest};
ghost use Rattle.packed.specs.Packed.{most_terms, most_rows, batch};
ghost use Rattle.packed.specs.Calls.{is_lowest, all_lowest, overfull};
ghost use Rattle.packed.specs.Parts.{Looked};

use crate::Refusal;
use crate::checks::{MOST_ROWS, MOST_TERMS};

fn is_lowest(v: i8) -> bool
    ensures { result ≡ is_lowest v }
{
    v == -128
}

// The eight numbers from place s on are all -128. With no way out before the eighth the compiler makes it one comparison. A
// row is told by its place, as the definition tells it.
fn all_lowest(x: &[i8], s: usize) -> bool
    requires { s + most_terms ≤ length x.now }
    ensures { result ≡ all_lowest x.now s most_terms }
{
    x[s..s + MOST_TERMS]
        .iter()
        .fold(true, |all, &v| all & is_lowest(v))
}

// The lowest row of eight terms that is overfull. What it looks for is why a batch is no `Checked` yet.
fn first_overfull(rows: usize, d: &[i8], b: &[i8]) -> Option<usize>
    requires { (rows ≤ most_rows) × (length d.now ≡ rows * most_terms) × (length b.now ≡ rows * most_terms) }
    ensures { result ≡ lowest (overfull (batch most_terms rows [] d.now b.now)) rows }
{
    (0..rows).find(|&j| all_lowest(d, j * MOST_TERMS) && all_lowest(b, j * MOST_TERMS))
}

// The lowest overfull row is refused. Rows of fewer terms always fit. It asks nothing of its caller: rows that are not all
// there are not looked at.
#[tactic(auto, using(crate::proofs::Passing::few_looked))]
pub fn rows_answer(terms: usize, rows: usize, d: &[i8], b: &[i8]) -> Result<(), Refusal>
    ensures { Looked (batch terms rows [] d.now b.now) result }
{
    if terms < MOST_TERMS {
        return Ok(());
    }
    if rows > MOST_ROWS {
        return Ok(());
    }
    let area = rows * MOST_TERMS;
    if (d.len() != area) | (b.len() != area) {
        return Ok(());
    }
    match first_overfull(rows, d, b) {
        Some(j) => Err(Refusal::Overfull(j)),
        None => Ok(()),
    }
}
