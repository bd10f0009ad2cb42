// What happened in a step of a listing, what there is to show of it, and its bytes. Both calls take whatever they are given.
#![tactic(auto)]

ghost use Rattle.std.specs.Prelude.{◌+◌, ◌*◌, ◌≤◌, length};
ghost use Rattle.records.specs.Records.{output_words};
ghost use Rattle.text.specs.Printed.{Put};
ghost use Rattle.event.specs.Lines.{output_line, listed, printed_lines};
ghost use Rattle.event.specs.Events.{output_room, bytes_within};

mod letters;
mod showing;

use records::Outputs;
pub use showing::shown;

// A clock by its number (its outputs are lent); the first match by its clock; a refusal by number, clocks run and place; the clocks run.
// `Nothing` is no `None`, which would be no plainer: `put` and `shown` would match twice, once on what happened. A refusal is a number, since
// `put` promises the line of every number.
#[derive(Clone, Copy)]
pub enum Event {
    Nothing,
    Clocked(u64),
    Matched(u64),
    Refused(u64, u64, u64),
    Ended(u64),
}

// Room for an `O` line: its clock, its slice and the outputs, a field's for each, and one more for the letter and the newline.
const OUTPUT_ROOM: usize = text::FIELD_ROOM * (Outputs::WORDS + 3);

// The `O` lines of a clock, from slice 0 up. Bytes and place stay two, since `text::put_line` takes them so.
fn put_clock(clock: u64, count: usize, outputs: &[u64], out: &mut [u8], at: usize) -> usize
    requires { (output_words * count ≤ length outputs.now) × (at + output_room * count ≤ length out.old) }
    ensures { Put at (printed_lines (listed (output_line clock outputs.now) count)) out.old result out.new }
{
    let mut end = at;
    for (k, shown) in outputs.chunks_exact(Outputs::WORDS).take(count).enumerate() {
        end = text::put_line(letters::O, &[clock, k as u64], shown, out, end);
    }
    end
}

// Prints an event of a column of `count` slices, which shows these outputs, from `at` on (so `put_once` has it). Answers where it ends.
// Where outputs are missing, or room for all of its lines, nothing is printed.
#[tactic(auto, unfolding(crate::specs::Events::bytes_within))]
pub fn put(event: Event, count: usize, outputs: &[u64], out: &mut [u8], at: usize) -> usize
    ensures { Put at (bytes_within event count outputs.now at out.old) out.old result out.new }
{
    match event {
        Event::Nothing => at,
        Event::Clocked(clock) => {
            let Some(room) = out.len().checked_sub(at) else {
                return at;
            };
            if (outputs.len() / Outputs::WORDS < count) | (room / OUTPUT_ROOM < count) {
                return at;
            }
            put_clock(clock, count, outputs, out, at)
        }
        Event::Matched(clock) => text::put_line(letters::M, &[clock], &[], out, at),
        Event::Refused(number, clocks, place) => {
            text::put_line(letters::R, &[number, clocks, place], &[], out, at)
        }
        Event::Ended(clocks) => text::put_line(letters::E, &[clocks], &[], out, at),
    }
}
