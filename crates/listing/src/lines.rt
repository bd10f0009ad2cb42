// The lines of a listing, each when it is whole. A function of one kind of line is given a player that has counted it.
ghost use Rattle.std.specs.Prelude.{◌≡◌, length};
ghost use Rattle.records.specs.Records.{attribute_words};
ghost use Rattle.text.specs.Numbers.{line_of};
ghost use Rattle.listing.specs.Letters.{letter_n};
ghost use Rattle.listing.specs.Steps.{goes_on, shows_within, begin_step, head_step};
ghost use Rattle.listing.specs.Faults.{outcome};
ghost use Rattle.listing.specs.Listing.{leaving, turn_of, byte_turn};
ghost use Rattle.listing.specs.Parts.{read_as, Fair, Clockable, SettingsRead, SettingsTaken, PortsTaken, Ending, playing};

use crate::steps::{Fault, Step};
use crate::{letters, steps};
use column::{Attributes, Outputs, Ports, Registers};
use event::Event;
use player::{ATTRIBUTES, LINE, OUTPUTS, PORTS, Phase, Player, REGISTERS, Shows};

fn quiet(player: Player) -> Step
    ensures { result ≡ goes_on player }
{
    Step {
        player,
        event: Event::Nothing,
    }
}

// The slice that is looked at is one of the column's.
fn shows_within(shows: Shows, count: usize) -> bool
    ensures { result ≡ shows_within shows count }
{
    match shows {
        Shows::Outputs => true,
        Shows::FirstMatch(slice) => slice < count,
    }
}

// An `N` line's numbers: number 1, and then 13, are checked as soon as it is read.
#[tactic(auto, unfolding(crate::specs::Steps::begin_step))]
fn begin(q: Player, count: u64, shows: Shows) -> Result<Step, Fault>
    ensures { outcome q result ≡ begin_step q count shows }
{
    let slices = count as usize;
    let fits = (1..=player::MOST_SLICES).contains(&slices);
    let within = shows_within(shows, slices);
    if !fits {
        return Err(Fault::Count);
    }
    if !within {
        return Err(Fault::Slice);
    }
    Ok(quiet(steps::named(q, slices, shows)))
}

// As many numbers as are asked for, where the line has just these.
#[tactic(auto, using(crate::proofs::Head::numbers_read))]
fn numbers<const N: usize>(line: &[u8], letter: u8) -> Option<[u64; N]>
    ensures { result ≡ read_as (line_of letter N line.now) }
{
    let mut words = [0; N];
    text::line(line, letter, &mut words).then_some(words)
}

// The `N` line: the count, and the slice whose first match is looked for, if there is one.
#[tactic(auto, unfolding(crate::specs::Steps::head_step))]
fn take_head(q: Player, line: &[u8]) -> Result<Step, Fault>
    ensures { outcome q result ≡ head_step q (line_of letter_n 2 line.now) (line_of letter_n 1 line.now) }
{
    if let Some(head) = numbers::<2>(line, letters::N) {
        let [count, slice] = head;
        return begin(q, count, Shows::FirstMatch(slice as usize));
    }
    if let Some(head) = numbers::<1>(line, letters::N) {
        let [count] = head;
        return begin(q, count, Shows::Outputs);
    }
    Err(Fault::Line(q.lines))
}

// The attributes that a line has that does not name USE_SIMD.
const FIRST_ATTRIBUTES: usize = 21;

// The numbers of an `A` line: all of a slice's attributes, or the first of them, and 0 for the rest.
// No `Option`: the numbers are read into the lent words, which a malformed line leaves zeros (`SettingsRead`).
fn read_settings(line: &[u8], into: &mut [u64]) -> bool
    requires { length into.old ≡ attribute_words }
    ensures { SettingsRead line.now result into.new }
{
    if text::line(line, letters::A, into) {
        return true;
    }
    text::line(line, letters::A, &mut into[..FIRST_ATTRIBUTES])
}

// An `A` line. Number 3 is checked after the last of them.
// A player's ranges are no ghost field of its type: `player::read` takes whatever numbers it is lent.
fn take_settings(q: Player, line: &[u8], attributes: &mut [u64; ATTRIBUTES]) -> Result<Step, Fault>
    requires { Fair q }
    ensures { SettingsTaken q line.now attributes.old (outcome q result) attributes.new }
{
    let a = Attributes::WORDS * q.given;
    if !read_settings(line, &mut attributes[a..a + Attributes::WORDS]) {
        return Err(Fault::Line(q.lines));
    }
    let count = q.count;
    if q.given + 1 < count {
        return Ok(quiet(steps::after_slice(q)));
    }
    column::attributes_answer(count, &attributes[..Attributes::WORDS * count])?;
    Ok(quiet(steps::clocking(q)))
}

// A `P` line. The clock, the column's own on the words of its slices, is run after the last of them; what is shown of it is the player's.
// Tried: a struct of the lent words. Taken by `&mut` its proof did not close; by value its clauses read `slices.exit.1.1.1.0.now`.
fn take_ports(
    q: Player,
    line: &[u8],
    attributes: &[u64; ATTRIBUTES],
    registers: &mut [u64; REGISTERS],
    ports: &mut [u64; PORTS],
    outputs: &mut [u64; OUTPUTS],
) -> Result<Step, Fault>
    requires { Clockable q }
    ensures { PortsTaken q line.now attributes.now registers.old ports.old outputs.old (outcome q result) registers.new ports.new outputs.new }
{
    let p = Ports::WORDS * q.given;
    if !text::line(line, letters::P, &mut ports[p..p + Ports::WORDS]) {
        return Err(Fault::Line(q.lines));
    }
    let slices = q.count;
    if q.given + 1 < slices {
        return Ok(quiet(steps::after_slice(q)));
    }
    column::clock(
        slices,
        &attributes[..Attributes::WORDS * slices],
        &mut registers[..Registers::WORDS * slices],
        &ports[..Ports::WORDS * slices],
        &mut outputs[..Outputs::WORDS * slices],
    )?;
    let happened = Step {
        player: steps::after_clock(q),
        event: Event::Clocked(q.clocks),
    };
    Ok(steps::shown(happened, &outputs[..]))
}

// The byte that a stretch of a line's bytes ends at: a newline ends a line of the kind that is due, and any other byte is one too many.
// The lent words stay parameters: see `take_ports`. A `match` and no closures: each kind of line is lent other words.
pub fn take_end(
    q: Player,
    b: u8,
    attributes: &mut [u64; ATTRIBUTES],
    registers: &mut [u64; REGISTERS],
    ports: &mut [u64; PORTS],
    outputs: &mut [u64; OUTPUTS],
    line: &[u8; LINE],
) -> Step
    requires { Ending q b }
    ensures { turn_of (leaving result attributes.new registers.new ports.new outputs.new) line.now ≡ byte_turn (playing q attributes.old registers.old ports.old outputs.old line.now) b }
{
    if b != text::NEWLINE {
        return steps::refused(q, Fault::Line(q.lines + 1));
    }
    let text = &line[..q.held];
    let counted = steps::after_line(q);
    match q.phase {
        Phase::Head => steps::outcome(counted, take_head(counted, text)),
        Phase::Settings => steps::outcome(counted, take_settings(counted, text, attributes)),
        Phase::Clocks => steps::outcome(
            counted,
            take_ports(counted, text, attributes, registers, ports, outputs),
        ),
        Phase::Stopped => quiet(counted),
    }
}
