// The lent answers, two a row. They stay flat and are written by place, as C lends them.
ghost use Rattle.std.specs.Prelude.{◌≡◌, ◌+◌, ◌*◌, ◌<◌, length};
ghost use Rattle.packed.specs.Parts.{with_row};

// Row j's two answers: high sum, then low sum.
pub fn put_row(answers: &mut [i32], j: usize, high: i32, low: i32)
    requires { 2 * j + 1 < length answers.old }
    ensures { answers.new ≡ with_row answers.old j high low }
{
    answers[2 * j] = high;
    answers[2 * j + 1] = low;
}
