// The edge: each slice's own stretches are lent to the one-slice rule, from the bottom up. A slice above gets what the slice
// below showed before the edge, which is kept in a local, so the order of the slices can't be seen.
ghost use Rattle.std.specs.Prelude.{◌≡◌, ◌≤◌, ◌*◌, length};
ghost use Rattle.records.specs.Records.{register_words, output_words};
ghost use Rattle.column.specs.Parts.{Lengths, Edged, AllEdged};

use crate::stretch::record_at;
use records::{Attributes, Outputs, Ports, Registers};
use slice::Cascade;

// One slice's edge: it writes its own stretches, and nowhere else.
fn one_edge(
    a: Attributes,
    registers: &mut [u64],
    p: Ports,
    outputs: &mut [u64],
    below: Cascade,
) -> Cascade
    requires { (length registers.old ≡ register_words) × (length outputs.old ≡ output_words) }
    ensures { Edged a registers.old p below result registers.new outputs.new }
{
    let step = slice::stepped(a, registers, p, below);
    let shown = step.shown.words();
    lent::store(outputs, &shown);
    step.up
}

// The edge of every slice. Each is lent its part by its place, where `chunks_exact_mut` would do: 01 names the form. No `Inputs`: the
// registers are lent to be written.
#[tactic(auto, unfolding(crate::specs::Column::cascade_into))]
pub fn all_edges(
    count: usize,
    attributes: &[u64],
    registers: &mut [u64],
    ports: &[u64],
    outputs: &mut [u64],
)
    requires { (count ≤ 24) × Lengths count attributes.now registers.old ports.now × (length outputs.old ≡ output_words * count) }
    ensures { AllEdged count attributes.now registers.old ports.now registers.new outputs.new }
{
    let mut below = Cascade::default();
    for k in 0..count {
        let r = Registers::WORDS * k;
        let o = Outputs::WORDS * k;
        below = one_edge(
            record_at(attributes, k),
            &mut registers[r..r + Registers::WORDS],
            record_at(ports, k),
            &mut outputs[o..o + Outputs::WORDS],
            below,
        );
    }
}
