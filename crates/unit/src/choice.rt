// A bit of a word, by its definition in specs/Choice.antt.
ghost use Rattle.std.specs.Prelude.{◌≡◌, ◌%◌};
ghost use Rattle.unit.specs.Choice.{bit};

// Bit k of n; of k the low 6 bits are read.
pub fn bit(n: u64, k: u64) -> u64
    ensures { result ≡ bit n (k % 64) }
{
    (n >> (k % 64)) % 2
}
