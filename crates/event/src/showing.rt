// What a player shows of an event.
ghost use Rattle.std.specs.Prelude.{◌≡◌};
ghost use Rattle.event.specs.Showing.{detects, shown};

use crate::Event;
use player::Shows;
use records::Outputs;

// A slice shows PATTERNDETECT. It shows nothing where its outputs are not lent.
#[tactic(auto, using(crate::proofs::Matches::detects_at))]
fn detects(slice: usize, outputs: &[u64]) -> bool
    ensures { result ≡ detects slice outputs.now }
{
    // A place that would wrap is none, as no slice has a word at usize::MAX.
    let place = slice
        .saturating_mul(Outputs::WORDS)
        .saturating_add(Outputs::PATTERNDETECT);
    outputs.get(place).copied().unwrap_or(0) == 1
}

// Of a column that shows these outputs: the event as it is; or, where the first match is looked for, the match in the place of a clock,
// and nothing for a clock that is none.
pub fn shown(shows: Shows, event: Event, outputs: &[u64]) -> Event
    ensures { result ≡ shown shows event outputs.now }
{
    let Shows::FirstMatch(slice) = shows else {
        return event;
    };
    let Event::Clocked(clock) = event else {
        return event;
    };
    if detects(slice, outputs) {
        return Event::Matched(clock);
    }
    Event::Nothing
}
