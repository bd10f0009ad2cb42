// What a line or a byte makes of a player's numbers, and what there is to print.
ghost use Rattle.std.specs.Prelude.{◌≡◌, ◌+◌, ◌<◌, ◌≤◌};
ghost use Rattle.text.specs.Bytes.{most_bytes};
ghost use Rattle.event.specs.declared.Event.TheVariants.{Refused};
ghost use Rattle.player.specs.Limits.{most_slices, count_bound};
ghost use Rattle.listing.specs.Steps.{counted, longer, one_more, named, clocking, clock_run, halted, refusal, shown_step, end_of};
ghost use Rattle.listing.specs.declared.steps.Fault.TheVariants.{Column};
ghost use Rattle.listing.specs.Faults.{fault_number, fault_place, outcome};

use column::Refusal;
use event::Event;
use player::{Phase, Player, Shows};

// What a listing is refused for: its count, a malformed line, the slice that it looks at, or what the column refuses.
#[derive(Clone, Copy)]
pub enum Fault {
    Count,
    Line(u64),
    Slice,
    Column(Refusal),
}

impl From<Refusal> for Fault {
    ghost from_gives = { λ refusal fault. fault ≡ Column refusal };

    fn from(refusal: Refusal) -> Fault {
        Fault::Column(refusal)
    }
}

impl Fault {
    // The number and the place that are printed. They are read of a fault alone, so no `From` would be plainer for two.
    fn number(self) -> u64
        ensures { result ≡ fault_number self }
    {
        match self {
            Fault::Count => 1,
            Fault::Line(_) => 12,
            Fault::Slice => 13,
            Fault::Column(refusal) => column::number::<()>(Err(refusal)),
        }
    }

    fn place(self) -> u64
        ensures { result ≡ fault_place self }
    {
        match self {
            Fault::Line(line) => line,
            Fault::Column(refusal) => column::place::<()>(Err(refusal)) as u64,
            Fault::Count | Fault::Slice => 0,
        }
    }
}

// What a line leaves: the player, and what there is to print.
#[derive(Clone, Copy)]
pub struct Step {
    pub player: Player,
    pub event: Event,
}

// A line is whole: it counts, and the next one begins.
pub fn after_line(q: Player) -> Player
    requires { q.lines < count_bound }
    ensures { result ≡ counted q }
{
    Player {
        lines: q.lines + 1,
        held: 0,
        ..q
    }
}

// So many bytes more of the line.
pub fn longer(q: Player, more: usize) -> Player
    requires { q.held + more ≤ most_bytes }
    ensures { result ≡ longer more q }
{
    Player {
        held: q.held + more,
        ..q
    }
}

// The line of one slice more is given.
pub fn after_slice(q: Player) -> Player
    requires { q.given < most_slices }
    ensures { result ≡ one_more q }
{
    Player {
        given: q.given + 1,
        ..q
    }
}

// The count is known, and what to show: `A` lines are due.
pub fn named(q: Player, count: usize, shows: Shows) -> Player
    ensures { result ≡ named q count shows }
{
    Player {
        phase: Phase::Settings,
        count,
        given: 0,
        shows,
        ..q
    }
}

// The attributes are known: `P` lines are due.
pub fn clocking(q: Player) -> Player
    ensures { result ≡ clocking q }
{
    Player {
        phase: Phase::Clocks,
        given: 0,
        ..q
    }
}

// A clock was run.
pub fn after_clock(q: Player) -> Player
    requires { q.clocks < count_bound }
    ensures { result ≡ clock_run q }
{
    Player {
        given: 0,
        clocks: q.clocks + 1,
        ..q
    }
}

// No line is due any more.
fn halted(q: Player) -> Player
    ensures { result ≡ halted q }
{
    Player {
        phase: Phase::Stopped,
        given: 0,
        held: 0,
        ..q
    }
}

fn refusal(q: Player, fault: Fault) -> Event
    ensures { result ≡ Refused (fault_number fault) q.clocks (fault_place fault) }
{
    Event::Refused(fault.number(), q.clocks, fault.place())
}

// The listing is refused.
pub fn refused(q: Player, fault: Fault) -> Step
    ensures { result ≡ refusal q (fault_number fault) (fault_place fault) }
{
    Step {
        player: halted(q),
        event: refusal(q, fault),
    }
}

// The step that a line was taken as, or the refusal.
pub fn outcome(q: Player, taken: Result<Step, Fault>) -> Step
    ensures { result ≡ outcome q taken }
{
    match taken {
        Ok(step) => step,
        Err(fault) => refused(q, fault),
    }
}

// What the player shows of a step that led to these outputs. After its match no line is due.
#[tactic(auto, unfolding(crate::specs::Steps::shown_step))]
pub fn shown(step: Step, outputs: &[u64]) -> Step
    ensures { result ≡ shown_step step outputs.now }
{
    let event = event::shown(step.player.shows, step.event, outputs);
    match event {
        Event::Matched(_) => Step {
            player: halted(step.player),
            event,
        },
        Event::Nothing | Event::Clocked(_) | Event::Refused(..) | Event::Ended(_) => {
            Step { event, ..step }
        }
    }
}

// What there is to print where the input ends.
#[tactic(auto, unfolding(crate::specs::Steps::end_of))]
pub fn end_of(player: Player) -> Event
    requires { player.lines < count_bound }
    ensures { result ≡ end_of player }
{
    match player.phase {
        Phase::Clocks if (player.held == 0) & (player.given == 0) => Event::Ended(player.clocks),
        Phase::Head | Phase::Settings | Phase::Clocks => {
            refusal(player, Fault::Line(player.lines + 1))
        }
        Phase::Stopped => Event::Nothing,
    }
}
