// What settles in a slice of a column before the edge. Nothing is stored.
ghost use Rattle.std.specs.Prelude.{◌≡◌, ◌*◌, ◌<◌, length};
ghost use Rattle.records.specs.Records.{register_words, output_words};
ghost use Rattle.slice.specs.Slice.{slice_cascade};
ghost use Rattle.column.specs.Column.{cascade_into};
ghost use Rattle.column.specs.Refusals.{settings};
ghost use Rattle.column.specs.Calls.{reason_at};

use crate::inputs::Inputs;
use crate::{MOST_SLICES, Refusal};
use reason::Reason;
use records::{Attributes, Outputs, Ports, Registers};
use slice::Cascade;

// What a slice hands up.
#[tactic(auto, unfolding(slice::specs::Slice::slice_cascade, slice::specs::Slice::slice_outputs, slice::specs::Slice::outputs_of_settled, slice::specs::Slice::slice_settled, slice::specs::Slice::settled_of, reason::specs::Reason::reason_of))]
fn handed_up(a: Attributes, r: Registers, p: Ports, below: Cascade) -> Cascade
    ensures { result ≡ slice_cascade a r p below }
{
    let k = slice::in_effect(a, r, p);
    let s = slice::routed(a, r, p, below);
    let reason = reason::reason_of(a, r, p, below);
    let result = reason.result;
    let carry = slice::settled_carry(a, k, reason.values);
    slice::cascade_of(a, r, s, result, carry)
}

impl Inputs<'_> {
    // The clock's answer, from a clock on a copy of the registers.
    #[tactic(auto, using(lent::proofs::Laws::stored_all, crate::proofs::Answers::clock_settings))]
    fn tried(&self, copy: &mut [u64], shown: &mut [u64]) -> Result<(), Refusal>
        requires { (length copy.old ≡ register_words * self.now.count) × (length shown.old ≡ output_words * self.now.count) }
        ensures { result ≡ settings self.now.count self.now.attributes.now self.now.registers.now self.now.ports.now }
    {
        lent::store(copy, self.registers);
        crate::clock(self.count, self.attributes, copy, self.ports, shown)
    }

    // Checks 3 to 9: the clock itself is asked, in words of its own. A second call of the checks would make the clock dearer.
    pub fn clock_answer(&self) -> Result<(), Refusal>
        ensures { result ≡ settings self.now.count self.now.attributes.now self.now.registers.now self.now.ports.now }
    {
        let mut copy = [0u64; Registers::WORDS * MOST_SLICES];
        let mut shown = [0u64; Outputs::WORDS * MOST_SLICES];
        let r = Registers::WORDS * self.count;
        let o = Outputs::WORDS * self.count;
        self.tried(&mut copy[..r], &mut shown[..o])
    }

    // What slice k gets from the slice below.
    #[tactic(auto, unfolding(crate::specs::Column::cascade_into))]
    fn cascade_into(&self, k: usize) -> Cascade
        requires { k < self.now.count }
        ensures { result ≡ cascade_into self.now.attributes.now self.now.registers.now self.now.ports.now k }
    {
        let mut below = Cascade::default();
        for j in 0..k {
            let (a, r, p) = self.slice(j);
            below = handed_up(a, r, p, below);
        }
        below
    }

    // The reason of slice k's result.
    #[tactic(auto, unfolding(crate::specs::Calls::reason_at))]
    pub fn reason_at(&self, k: usize) -> Reason
        requires { k < self.now.count }
        ensures { result ≡ reason_at self.now.attributes.now self.now.registers.now self.now.ports.now k }
    {
        let (a, r, p) = self.slice(k);
        reason::reason_of(a, r, p, self.cascade_into(k))
    }
}
