// The bytes of a listing: a stretch of a line at a time, and the byte that ends it.
ghost use Rattle.std.specs.Prelude.{◌≡◌, ◌≤◌, eqb, length, position};
ghost use Rattle.text.specs.Bytes.{newline, most_bytes};
ghost use Rattle.listing.specs.Parts.{Able, Joined, Reaches, Ran, playing};

use crate::lines::take_end;
use crate::steps;
use player::{ATTRIBUTES, LINE, OUTPUTS, PORTS, Player, REGISTERS, is_working};

// Where the first newline stands.
fn newline_in(bytes: &[u8]) -> Option<usize>
    ensures { result ≡ position (λ b. eqb b newline) bytes.now }
{
    bytes.iter().position(|b| *b == text::NEWLINE)
}

// Bytes of the piece join the line: those before a newline, as far as the line has room. Answers how many.
// How many bytes the line has stays beside it: it is one of the lent numbers that `play` keeps between two pieces. `from` stays beside the
// piece, here and below: `Joined` and `Reaches` tell places in the whole of it.
fn gathered(piece: &[u8], from: usize, line: &mut [u8; LINE], held: usize) -> usize
    requires { (from ≤ length piece.now) × (held ≤ most_bytes) }
    ensures { Joined piece.now from held line.old result line.new }
{
    let rest = &piece[from..];
    let most = rest.len().min(LINE - held);
    let n = newline_in(&rest[..most]).unwrap_or(most);
    line[held..held + n].copy_from_slice(&rest[..n]);
    n
}

// Where a stretch of bytes ends, and the player there.
#[derive(Clone, Copy)]
struct Reach {
    player: Player,
    used: usize,
}

// The bytes of the piece up to a newline or one too many, or all of them. Where no line is due bytes do nothing.
#[tactic(auto, using(crate::proofs::Gathering::stopped_reach, crate::proofs::Gathering::joined_reach))]
fn up_to_end(q: Player, piece: &[u8], from: usize, line: &mut [u8; LINE]) -> Reach
    requires { (from ≤ length piece.now) × (q.held ≤ most_bytes) }
    ensures { Reaches q piece.now from line.old result line.new }
{
    if !is_working(q.phase) {
        return Reach {
            player: q,
            used: piece.len(),
        };
    }
    let more = gathered(piece, from, line, q.held);
    Reach {
        player: steps::longer(q, more),
        used: from + more,
    }
}

// What a run of bytes led to.
#[derive(Clone, Copy)]
pub struct Run {
    pub player: Player,
    pub used: usize,
    pub made: usize,
}

// Stretch after stretch, as long as there is room for the lines of a clock.
// The lent words stay parameters: see `take_ports`.
pub fn run_piece(
    begin: Player,
    piece: &[u8],
    attributes: &mut [u64; ATTRIBUTES],
    registers: &mut [u64; REGISTERS],
    ports: &mut [u64; PORTS],
    outputs: &mut [u64; OUTPUTS],
    line: &mut [u8; LINE],
    out: &mut [u8],
) -> Run
    requires { Able begin (length piece.now) }
    ensures { Ran (playing begin attributes.old registers.old ports.old outputs.old line.old) piece.now out.old result (playing result.player attributes.new registers.new ports.new outputs.new line.new) out.new }
{
    let mut player = begin;
    let mut used = 0;
    let mut made = 0;
    // No iterator is plainer: how many bytes a turn takes is known in the turn, and the room in `out` ends the loop too.
    while crate::CLOCK_ROOM <= out.len() - made {
        let reached = up_to_end(player, piece, used, line);
        player = reached.player;
        used = reached.used;
        if used == piece.len() {
            return Run { player, used, made };
        }
        let step = take_end(
            player,
            piece[used],
            attributes,
            registers,
            ports,
            outputs,
            line,
        );
        player = step.player;
        made = event::put(step.event, player.count, &outputs[..], out, made);
        used += 1;
    }
    Run { player, used, made }
}
