// Plays a port listing that comes in pieces of any size. All that is known between two pieces stands in lent words and bytes, which are
// zeros to begin with. Both calls take whatever they are lent.
#![tactic(auto)]

ghost use Rattle.listing.specs.Calls.{lending, PiecePlayed, Finished};

mod letters;
mod lines;
mod machine;
mod steps;

use machine::Run;

// What a piece led to: the bytes of it that were taken, the bytes that were printed, and whether there is more to play. `goes` is no
// `Option`'s: both counts are told either way.
#[derive(Clone, Copy, Default)]
pub struct Played {
    pub used: usize,
    pub made: usize,
    pub goes: bool,
}

// How many words and bytes a player is lent: its numbers, the words of 24 slices, and the bytes of a line.
pub use player::{ATTRIBUTES, LINE, NUMBERS, OUTPUTS, PORTS, REGISTERS};

// Room in `out` for what any byte prints: more than the `O` lines of 24 slices, also where a slice had as many as 13 outputs.
const CLOCK_ROOM: usize = 8192;

// Plays a piece, byte after byte, as long as `out` has room for the lines of a clock, and prints from the front of `out` on. Does nothing
// where what is lent is no player's. The lent parts stay parameters: `play_once` and the theorems are of this call.
pub fn play(
    piece: &[u8],
    numbers: &mut [u64],
    attributes: &mut [u64],
    registers: &mut [u64],
    ports: &mut [u64],
    outputs: &mut [u64],
    line: &mut [u8],
    out: &mut [u8],
) -> Played
    ensures { PiecePlayed piece.now (lending numbers.old attributes.old registers.old ports.old outputs.old line.old) out.old result (lending numbers.new attributes.new registers.new ports.new outputs.new line.new) out.new }
{
    if !player::fits(
        piece.len(),
        &numbers[..],
        attributes.len(),
        registers.len(),
        ports.len(),
        outputs.len(),
        line.len(),
    ) {
        return Played::default();
    }
    let begin = player::read(&numbers[..]);
    let Run { player, used, made } = machine::run_piece(
        begin,
        piece,
        attributes.as_mut_array().unwrap(),
        registers.as_mut_array().unwrap(),
        ports.as_mut_array().unwrap(),
        outputs.as_mut_array().unwrap(),
        line.as_mut_array().unwrap(),
        out,
    );
    player::store(player, numbers);
    Played {
        used,
        made,
        goes: player::is_working(player.phase),
    }
}

// The end of the input: prints `E` or what is missing from the front of `out` on, and answers how many bytes that is.
#[tactic(auto, using(crate::proofs::Ending::no_player, crate::proofs::Ending::no_line))]
pub fn finish(numbers: &[u64], out: &mut [u8]) -> usize
    ensures { Finished numbers.now out.old result out.new }
{
    if numbers.len() != NUMBERS {
        return 0;
    }
    let last = player::read(numbers);
    if last.lines == u64::MAX {
        return 0;
    }
    event::put(steps::end_of(last), 0, &[], out, 0)
}
