//! The best label for an event in a call state, from a fresh start or from who is ready at its stop.
ghost use Rattle.std.specs.Prelude.{◌≡◌};
ghost use Rattle.scans.specs.Entering.{best_before, better_of, capped_end, fresh_label};

use crate::board::{Incumbent, incumbent_at, is_preferred};
use crate::entry::Stage;
use journeys::{Query, end_of, leaves_at, starts_at};
use measures::Measure;
use records::Event;

// The label of a journey that begins with this event, none where no journey may.
fn fresh_label<M: Measure>(query: Query, event: Event) -> Option<M::Label>
    ensures { result ≡ fresh_label M.ops query event }
{
    let begins = leaves_at(event) == query.from && query.open <= starts_at(event);
    begins.then(|| M::begin(starts_at(event)))
}

// Who is ready, if preferred to a fresh start, else that start, with its predecessor.
fn better_of<M: Measure>(
    fresh: Option<M::Label>,
    ready: Option<Incumbent<M::Label>>,
    called: bool,
) -> Option<(M::Label, Option<Stage>)>
    ensures { result ≡ better_of M.ops fresh ready called }
{
    let start = fresh.map(|label| (label, None));
    let Some(incumbent) = ready else {
        return start;
    };
    if fresh.is_some_and(|label| !is_preferred::<M>(incumbent.offer(), (label, None))) {
        return start;
    }
    let event = incumbent.event;
    Some((incumbent.label, Some(Stage { event, called })))
}

// The end of an event; one that no timetable has stops at the largest number.
pub(crate) fn capped_end(event: Event) -> u32
    ensures { result ≡ capped_end event }
{
    u32::try_from(end_of(event)).unwrap_or(u32::MAX)
}

// The label of an event in a call state and its predecessor, before the event itself is taken.
pub(crate) fn best_before<M: Measure>(
    board: &[Option<Incumbent<M::Label>>],
    query: Query,
    event: Event,
    called: bool,
) -> Option<(M::Label, Option<Stage>)>
    ensures { result ≡ best_before M.ops board.now query event called }
{
    let opening = event.is_opening();
    if opening && !called {
        return None;
    }
    let before = called && !opening;
    let fresh = if called == opening {
        fresh_label::<M>(query, event)
    } else {
        None
    };
    better_of::<M>(fresh, incumbent_at(board, leaves_at(event), before), before)
}
