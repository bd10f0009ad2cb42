// A slice's own stretch of the lent words, as the record that it holds.
ghost use Rattle.std.specs.Prelude.{◌≡◌, ◌≤◌, ◌+◌, ◌*◌, length};
ghost use Rattle.column.specs.Column.{stretch};

use records::Record;

// Slice k's record, of a column's words.
pub fn record_at<R: Record>(words: &[u64], k: usize) -> R
    requires { R.COUNT * k + R.COUNT ≤ length words.now }
    ensures { result ≡ R.record_of (stretch R.COUNT k words.now) }
{
    let from = R::COUNT * k;
    R::of(&words[from..from + R::COUNT])
}
