// The border for C: the calls on plain numbers and lent words. A refusal is 2^48 + 256 * place + number in the returned word.
#![tactic(auto)]

ghost use Rattle.std.specs.Prelude.{◌≡◌, ◌<◌};
ghost use Rattle.unit.specs.Unit.{adder};
ghost use Rattle.column.specs.Refusals.{place_of};
ghost use Rattle.dsp48e2.specs.Border.{refusal, word_of, ClockedC, ClearedC, why_lent, WhyC, run_word, ClockedRunC, PlainRunC};
ghost use Rattle.packed.specs.Packed.{most_rows, batch};
ghost use Rattle.packed.specs.Calls.{place_of as run_place};

use column::{Reason, Refusal};
use unit::Operands;

// A refusal's word, whatever was refused.
fn refused(place: usize, number: u64) -> u64
    requires { (place < most_rows) × (number < 256) }
    ensures { result ≡ refusal place number }
{
    0x1_0000_0000_0000 + 256 * place as u64 + number
}

// The returned word of an answer.
#[tactic(auto, unfolding(crate::specs::Border::word_of))]
fn word_of(answer: Result<(), Refusal>) -> u64
    requires { place_of answer < 24 }
    ensures { result ≡ word_of answer }
{
    match answer {
        Ok(()) => 0,
        Err(_) => refused(column::place(answer), column::number(answer)),
    }
}

// The adder on six plain numbers: the result, or 2^48+5 when a word is over width, or else 2^48+8 when the mode forbids it.
#[unsafe(no_mangle)]
pub extern "C" fn dsp_adder(w: u64, x: u64, y: u64, z: u64, cin: u64, alumode: u64) -> u64
    ensures { result ≡ adder w x y z cin alumode }
{
    unit::adder(Operands { w, x, y, z, cin }, alumode)
}

// One clock of a column; 0 when accepted.
#[unsafe(no_mangle)]
pub extern "C" fn dsp_clock(
    count: u64,
    attributes: &[u64],
    registers: &mut [u64],
    ports: &[u64],
    outputs: &mut [u64],
) -> u64
    ensures { ClockedC count attributes.now registers.old ports.now outputs.old result registers.new outputs.new }
{
    word_of(column::clock(count as usize, attributes, registers, ports, outputs))
}

// Every register becomes 0; 0 when accepted.
#[unsafe(no_mangle)]
pub extern "C" fn dsp_clear(count: u64, registers: &mut [u64]) -> u64
    ensures { ClearedC count registers.old result registers.new }
{
    word_of(column::clear(count as usize, registers))
}

// A `why` of another length is number 2, which only 1 comes before.
#[tactic(auto, unfolding(crate::specs::Border::why_lent))]
fn why_lent(fits: bool, answer: Result<(), Refusal>) -> Result<(), Refusal>
    ensures { result ≡ why_lent fits answer }
{
    match answer {
        Err(Refusal::BadCount) => answer,
        _ if fits => answer,
        _ => Err(Refusal::BadLength),
    }
}

// Why a slice's P is what it is: the words of the reason, or zeros, in `why`; 0 when accepted.
#[unsafe(no_mangle)]
pub extern "C" fn dsp_why(
    count: u64,
    attributes: &[u64],
    registers: &[u64],
    ports: &[u64],
    slice: u64,
    why: &mut [u64],
) -> u64
    ensures { WhyC count attributes.now registers.now ports.now slice why.old result why.new }
{
    let told = column::why(count as usize, attributes, registers, ports, slice as usize);
    let fits = why.len() == Reason::WORDS;
    lent::store(why, &told.unwrap_or(Reason::none()).words());
    word_of(why_lent(fits, told.and(Ok(()))))
}

// The returned word of a packed run. No trait over both crates' refusals: it would be no plainer for two, of which one has clocks.
#[tactic(auto, unfolding(crate::specs::Border::run_word))]
fn run_word(run: Result<u64, packed::Refusal>) -> u64
    requires { run_place run < most_rows }
    ensures { result ≡ run_word run }
{
    match run {
        Ok(clocks) => clocks,
        Err(_) => refused(packed::place(run), packed::number(run)),
    }
}

// The packed run, stepped clock by clock: the clocks it stepped when accepted, one for each word of the list.
#[unsafe(no_mangle)]
pub extern "C" fn dsp_packed_clocked(
    terms: u64,
    rows: u64,
    a: &[i8],
    d: &[i8],
    b: &[i8],
    answers: &mut [i32],
    list: &mut [u64],
) -> u64
    ensures { ClockedRunC (batch terms rows a.now d.now b.now) answers.old list.old result answers.new list.new }
{
    run_word(packed::packed_clocked(terms as usize, rows as usize, a, d, b, answers, list))
}

// The packed run worked out directly; 0 when accepted.
#[unsafe(no_mangle)]
pub extern "C" fn dsp_packed_plain(
    terms: u64,
    rows: u64,
    a: &[i8],
    d: &[i8],
    b: &[i8],
    answers: &mut [i32],
) -> u64
    ensures { PlainRunC (batch terms rows a.now d.now b.now) answers.old result answers.new }
{
    run_word(packed::packed_plain(terms as usize, rows as usize, a, d, b, answers))
}
