// A player's numbers: the kind of line that is due, the counts, and what it shows; and the lent words that they are between two pieces.
// Every call takes whatever it is given.
#![tactic(auto)]

ghost use Rattle.std.specs.Prelude.{◌≡◌};
ghost use Rattle.lent.specs.Words.{enough, stored};
ghost use Rattle.player.specs.Numbers.{working, phase_number, phase_of, shows_number, watched, shows_of, player_numbers, player_words, player_of};
ghost use Rattle.player.specs.Fitting.{numbers_fit, fits};

use records::{Attributes, Outputs, Ports, Registers};

// Slices in a column, at most.
pub use records::MOST_SLICES;

// How many words and bytes a player is lent: its numbers, the words of 24 slices, and the bytes of a line.
pub const NUMBERS: usize = 8;

pub const ATTRIBUTES: usize = Attributes::WORDS * MOST_SLICES;

pub const REGISTERS: usize = Registers::WORDS * MOST_SLICES;

pub const PORTS: usize = Ports::WORDS * MOST_SLICES;

pub const OUTPUTS: usize = Outputs::WORDS * MOST_SLICES;

pub const LINE: usize = text::MOST_BYTES;

// The kind of line that is due: `N`, `A` or `P`; none after a refusal or a match.
#[derive(Clone, Copy, Default)]
pub enum Phase {
    #[default]
    Head,
    Settings,
    Clocks,
    Stopped,
}

// What is shown of a clock: every slice's outputs; or the first in which a chosen slice shows PATTERNDETECT, and nothing of the others.
// No `Option`, which would be no plainer: its `None` would mean that everything is shown.
#[derive(Clone, Copy, Default)]
pub enum Shows {
    #[default]
    Outputs,
    FirstMatch(usize),
}

// The slices, the lines that are given of a group of one a slice, the clocks run, the lines read, the bytes of the line so far, and what is
// shown.
#[derive(Clone, Copy, Default)]
pub struct Player {
    pub phase: Phase,
    pub count: usize,
    pub given: usize,
    pub clocks: u64,
    pub lines: u64,
    pub held: usize,
    pub shows: Shows,
}

pub fn is_working(phase: Phase) -> bool
    ensures { result ≡ working phase }
{
    !matches!(phase, Phase::Stopped)
}

impl From<u64> for Phase {
    ghost from_gives = { λ number phase. phase ≡ phase_of number };

    fn from(number: u64) -> Phase {
        match number {
            0 => Phase::Head,
            1 => Phase::Settings,
            2 => Phase::Clocks,
            _ => Phase::Stopped,
        }
    }
}

// What is shown is two words: which, and the slice.
impl From<(u64, u64)> for Shows {
    ghost from_gives = { λ words shows. shows ≡ shows_of words.0 words.1 };

    fn from((number, slice): (u64, u64)) -> Shows {
        match number {
            1 => Shows::FirstMatch(slice as usize),
            _ => Shows::Outputs,
        }
    }
}

impl From<Shows> for (u64, u64) {
    ghost from_gives = { λ shows words. (words.0 ≡ shows_number shows) × (words.1 ≡ watched shows) };

    fn from(shows: Shows) -> (u64, u64) {
        match shows {
            Shows::Outputs => (0, 0),
            Shows::FirstMatch(slice) => (1, slice as u64),
        }
    }
}

// The player whose numbers are lent; of too few words the one that has read nothing.
pub fn read(numbers: &[u64]) -> Player
    ensures { result ≡ player_of (enough player_numbers numbers.now) }
{
    let [phase, count, given, clocks, lines, held, which, slice, ..] = numbers else {
        return Player::default();
    };
    Player {
        phase: Phase::from(*phase),
        count: *count as usize,
        given: *given as usize,
        clocks: *clocks,
        lines: *lines,
        held: *held as usize,
        shows: Shows::from((*which, *slice)),
    }
}

// Its numbers become the lent ones, where these are as many.
pub fn store(player: Player, numbers: &mut [u64])
    ensures { numbers.new ≡ stored numbers.old (player_words player) }
{
    let (which, slice) = player.shows.into();
    let words = [
        player.phase as u64,
        player.count as u64,
        player.given as u64,
        player.clocks,
        player.lines,
        player.held as u64,
        which,
        slice,
    ];
    lent::store(numbers, &words);
}

// The counts are in range, with room for `n` lines and clocks more.
fn numbers_fit(n: usize, player: Player) -> bool
    ensures { result ≡ numbers_fit n player }
{
    let bytes = n as u64;
    (player.count <= MOST_SLICES)
        & (player.given < MOST_SLICES)
        & (player.held <= LINE)
        & (bytes < u64::MAX - player.clocks)
        & (bytes < u64::MAX - player.lines)
}

// What is lent is a player's, by its numbers and by how many words and bytes there are, and a piece of `n` bytes can be played.
// The five lengths are no struct: the clause and `fits_once` are of this call.
#[tactic(auto, unfolding(crate::specs::Fitting::fits))]
pub fn fits(
    n: usize,
    numbers: &[u64],
    attributes: usize,
    registers: usize,
    ports: usize,
    outputs: usize,
    line: usize,
) -> bool
    ensures { result ≡ fits n numbers.now attributes registers ports outputs line }
{
    if numbers.len() != NUMBERS {
        return false;
    }
    let lengths = (attributes == ATTRIBUTES)
        & (registers == REGISTERS)
        & (ports == PORTS)
        & (outputs == OUTPUTS)
        & (line == LINE);
    lengths & numbers_fit(n, read(numbers))
}
