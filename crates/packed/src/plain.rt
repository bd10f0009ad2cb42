// Both sums of each row, worked out directly.
ghost use Rattle.std.specs.Prelude.{◌≡◌, ◌+◌, ◌*◌, ◌<◌, ◌*ℤ◌, length};
ghost use Rattle.packed.specs.Packed.{high_dot, low_dot, plain_answers};
ghost use Rattle.packed.specs.Parts.{with_row};

use crate::answers::put_row;
use crate::batch::Checked;

// The product of two bytes.
fn product(x: i8, y: i8) -> i32
    ensures { result ≡ x *ℤ y }
{
    x as i32 * y as i32
}

impl Checked<'_> {
    // Row j's two answers: the sums of its products, both in one pass, since they share b.
    fn put_sums(&self, j: usize, answers: &mut [i32])
        requires { (j < self.now.rows) × (2 * j + 1 < length answers.old) }
        ensures { answers.new ≡ with_row answers.old j (high_dot self.now j) (low_dot self.now j) }
    {
        let s = j * self.terms;
        let e = s + self.terms;
        let mut high = 0;
        let mut low = 0;
        for ((&a, &d), &b) in self.a[s..e].iter().zip(&self.d[s..e]).zip(&self.b[s..e]) {
            high += product(a, b);
            low += product(d, b);
        }
        put_row(answers, j, high, low);
    }

    // Both sums of every row: high, then low.
    pub fn sums(&self, answers: &mut [i32])
        requires { length answers.old ≡ 2 * self.now.rows }
        ensures { answers.new ≡ plain_answers self.now }
    {
        for j in 0..self.rows {
            self.put_sums(j, answers);
        }
    }
}
