// What a clock and `why` are lent alike, once its lengths are known to be right.
ghost use Rattle.std.specs.Prelude.{◌≡◌, ◌≤◌, ◌<◌, true, MatchResult, Err};
ghost use Rattle.column.specs.Column.{attributes_at, registers_at, ports_at};
ghost use Rattle.column.specs.Refusals.{accepted, count_fits};
ghost use Rattle.column.specs.Parts.{Lengths, inputs_answer, asked_answer};

use crate::Refusal;
use crate::refusals::{counted, lent_as};
use crate::stretch::record_at;
use records::{Attributes, Ports, Registers};

// The slices, and the attributes, registers and ports of so many.
#[derive(Clone, Copy)]
pub struct Inputs<'a> {
    pub count: usize,
    pub attributes: &'a [u64],
    pub registers: &'a [u64],
    pub ports: &'a [u64],
    ghost counted: { count_fits count ≡ true },
    ghost few: { count ≤ 24 },
    ghost lengths: { Lengths count attributes.now registers.now ports.now },
}

impl<'a> Inputs<'a> {
    // Numbers 1 and 2.
    #[tactic(auto, unfolding(crate::specs::Refusals::inputs_fit))]
    pub fn of(
        count: usize,
        attributes: &'a [u64],
        registers: &'a [u64],
        ports: &'a [u64],
    ) -> Result<Inputs<'a>, Refusal>
        ensures { MatchResult result (λ i. (inputs_answer count attributes.now registers.now ports.now ≡ accepted) × (i.count ≡ count) × (i.attributes.now ≡ attributes.now) × (i.registers.now ≡ registers.now) × (i.ports.now ≡ ports.now)) (λ e. inputs_answer count attributes.now registers.now ports.now ≡ Err e) }
    {
        counted(count)?;
        lent_as(attributes, Attributes::WORDS * count)?;
        lent_as(registers, Registers::WORDS * count)?;
        lent_as(ports, Ports::WORDS * count)?;
        Ok(Inputs {
            count,
            attributes,
            registers,
            ports,
        })
    }

    // The checks of `why` that come before the clock's 3 to 9, in their order: numbers 1 and 2, then 13.
    #[tactic(auto, unfolding(crate::specs::Parts::asked_answer))]
    pub fn asked(
        count: usize,
        attributes: &'a [u64],
        registers: &'a [u64],
        ports: &'a [u64],
        slice: usize,
    ) -> Result<Inputs<'a>, Refusal>
        ensures { MatchResult result (λ i. (asked_answer count attributes.now registers.now ports.now slice ≡ accepted) × (i.count ≡ count) × (i.attributes.now ≡ attributes.now) × (i.registers.now ≡ registers.now) × (i.ports.now ≡ ports.now)) (λ e. asked_answer count attributes.now registers.now ports.now slice ≡ Err e) }
    {
        let inputs = Inputs::of(count, attributes, registers, ports)?;
        if count <= slice {
            return Err(Refusal::BadSlice);
        }
        Ok(inputs)
    }

    // Slice k's records. Of the orders of reading this one makes the cheapest clock. Here and in `settling` a place is no type of its own: it
    // would hold one number.
    pub fn slice(&self, k: usize) -> (Attributes, Registers, Ports)
        requires { k < self.now.count }
        ensures { result ≡ (attributes_at self.now.attributes.now k, registers_at self.now.registers.now k, ports_at self.now.ports.now k) }
    {
        let a = record_at(self.attributes, k);
        let p = record_at(self.ports, k);
        let r = record_at(self.registers, k);
        (a, r, p)
    }
}
