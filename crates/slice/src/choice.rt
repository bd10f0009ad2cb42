// The choices that the hardware makes between two words.
ghost use Rattle.std.specs.Prelude.{◌≡◌, cond};
ghost use Rattle.unit.specs.Choice.{mux};

pub fn mux(s: u64, x0: u64, x1: u64) -> u64
    ensures { result ≡ mux s x0 x1 }
{
    if s == 0 { x0 } else { x1 }
}

pub fn pick(b: bool, x: u64, y: u64) -> u64
    ensures { result ≡ cond b x y }
{
    if b { x } else { y }
}
