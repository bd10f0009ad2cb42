// A batch of which the checks have passed.
use std::marker::Model;

// A clause sees the batch, and that it is ready. The three lists stay apart, as C lends them.
#[derive(Drop)]
pub struct Checked<'a> {
    pub terms: usize,
    pub rows: usize,
    pub a: &'a [i8],
    pub d: &'a [i8],
    pub b: &'a [i8],
}

impl<'a> Model for Checked<'a> {
    ghost use Rattle.packed.specs.Packed.{Batch, batch};
    ghost use Rattle.packed.specs.Parts.{Ready};

    ghost Value = { Batch };

    ghost view = { λ g. batch g.terms g.rows g.a.now g.d.now g.b.now };

    ghost invariant = { λ g. Ready (batch g.terms g.rows g.a.now g.d.now g.b.now) };
}

impl<'a> Checked<'a> {
    ghost use Rattle.std.specs.Prelude.{◌≡◌};
    ghost use Rattle.packed.specs.Packed.{batch};
    ghost use Rattle.packed.specs.Parts.{Ready};

    pub fn new(terms: usize, rows: usize, a: &'a [i8], d: &'a [i8], b: &'a [i8]) -> Checked<'a>
        requires { Ready (batch terms rows a.now d.now b.now) }
        ensures { result ≡ batch terms rows a.now d.now b.now }
    {
        Checked {
            terms,
            rows,
            a,
            d,
            b,
        }
    }
}
