// One column of 1 to 24 slices: a clock of it, clearing, why a slice's P is what it is, and the checks of its attributes alone.
// Each takes whatever it is lent, and refuses what is malformed or forbidden by number and lowest slice, with nothing changed.
#![tactic(auto)]

ghost use Rattle.std.specs.Prelude.{◌≡◌};
ghost use Rattle.column.specs.Refusals.{number_of, place_of};
ghost use Rattle.column.specs.Calls.{Clocked, Cleared, why_of};

mod edge;
mod inputs;
mod refusals;
mod settling;
mod stretch;

use inputs::Inputs;
pub use reason::Reason;
use records::MOST_SLICES;
pub use records::{Attributes, Outputs, Ports, Record, Registers};
pub use refusals::attributes_answer;

// The checks that look into the lent words: numbers 3 to 9.
#[derive(Clone, Copy, PartialEq, Eq)]
pub enum Check {
    Attribute = 3,
    Register = 4,
    Port = 5,
    Inmode = 6,
    Opmode = 7,
    Alumode = 8,
    Carryinsel = 9,
}

// What a call refuses. `Broken` names the check and the lowest slice that fails it; `BadSlice` is a refusal of `why` alone.
#[derive(Clone, Copy, PartialEq, Eq)]
pub enum Refusal {
    BadCount,
    BadLength,
    Broken(Check, usize),
    BadSlice,
}

// One clock: the outputs settle from the registers before the edge and the ports; then all registers load at once. What is lent stays
// parameters, here, in `why` and in the checks: C and the theorems call them so, and no length is known before.
#[tactic(auto, using(crate::proofs::Answers::accepted_ready))]
pub fn clock(
    count: usize,
    attributes: &[u64],
    registers: &mut [u64],
    ports: &[u64],
    outputs: &mut [u64],
) -> Result<(), Refusal>
    ensures { Clocked count attributes.now registers.old ports.now outputs.old result registers.new outputs.new }
{
    refusals::clock_answer(count, attributes, &registers[..], ports, &outputs[..])?;
    edge::all_edges(count, attributes, registers, ports, outputs);
    Ok(())
}

// Every register becomes 0.
#[tactic(auto, using(crate::proofs::Answers::cleared_length))]
pub fn clear(count: usize, registers: &mut [u64]) -> Result<(), Refusal>
    ensures { Cleared count registers.old result registers.new }
{
    refusals::clear_answer(count, &registers[..])?;
    lent::zero(registers);
    Ok(())
}

// Why a slice's P is what it is in this clock: the unit's operands, where each comes from, the rule, and the result. Nothing is
// stored.
#[tactic(auto, unfolding(crate::specs::Calls::why_of), using(crate::proofs::Answers::asked_ready, crate::proofs::Answers::asked_refuses))]
pub fn why(
    count: usize,
    attributes: &[u64],
    registers: &[u64],
    ports: &[u64],
    slice: usize,
) -> Result<Reason, Refusal>
    ensures { result ≡ why_of count attributes.now registers.now ports.now slice }
{
    let inputs = Inputs::asked(count, attributes, registers, ports, slice)?;
    inputs.clock_answer()?;
    Ok(inputs.reason_at(slice))
}

// The number of an answer, 01's and 02's, which C is told. No `From`: `number_once` and its callers are of this call.
pub fn number<T: Drop>(answer: Result<T, Refusal>) -> u64
    ensures { result ≡ number_of answer }
{
    match answer {
        Ok(_) => 0,
        Err(Refusal::BadCount) => 1,
        Err(Refusal::BadLength) => 2,
        Err(Refusal::Broken(check, _)) => check as u64,
        Err(Refusal::BadSlice) => 13,
    }
}

// The slice that an answer reports.
pub fn place<T: Drop>(answer: Result<T, Refusal>) -> usize
    ensures { result ≡ place_of answer }
{
    match answer {
        Err(Refusal::Broken(_, k)) => k,
        _ => 0,
    }
}
