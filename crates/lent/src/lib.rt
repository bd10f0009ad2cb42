// Lent words: what every call that writes them does. Each takes whatever it is lent.
#![tactic(auto)]

ghost use Rattle.std.specs.Prelude.{◌≡◌, length, replicate};
ghost use Rattle.lent.specs.Words.{stored};

// Every word of `to` becomes the word of `from` at its place. Where they are not as many, nothing is stored.
pub fn store(to: &mut [u64], from: &[u64])
    ensures { to.new ≡ stored to.old from.now }
{
    if to.len() != from.len() {
        return;
    }
    to.copy_from_slice(from);
}

// Every word becomes 0.
pub fn zero(words: &mut [u64])
    ensures { words.new ≡ replicate (length words.old) 0 }
{
    words.fill(0);
}
