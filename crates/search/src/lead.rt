//! The entry with the lowest score among those that end as a query asks.
ghost use Rattle.std.specs.Prelude.{◌≡◌, ◌≤◌, ◌↔◌, IsTrue};
ghost use Rattle.walks.specs.Logs.{IsAhead};
ghost use Rattle.search.specs.Readings.{Contends, Leads, LeadsOn, entry_outcome};

use journeys::Query;
use measures::Measure;
use records::Stop;
use scans::{Entry, Stage, entry_for};

// An entry and the event that it is for.
#[derive(Clone, Copy)]
pub(crate) struct Leader<L> {
    pub event: u16,
    pub entry: Entry<L>,
}

// Whether a journey that is at a stop in a minute ends as the query asks.
fn ends_rightly(query: Query, stop: Stop, end: u32) -> bool
    ensures { IsTrue result ↔ ((stop ≡ query.to) × (end ≤ query.close)) }
{
    stop == query.to && end <= query.close
}

// The entry for an event, if it ends as the query asks.
fn contender<L: Copy>(query: Query, event: u16, entry: Option<Entry<L>>) -> Option<Leader<L>>
    ensures { Contends query event entry result }
{
    entry
        .filter(|entry| ends_rightly(query, entry.stop, entry.end))
        .map(|entry| Leader { event, entry })
}

// A score, and the number of the last event of the journeys that have it.
type Outcome = ((i64, i64), u16);

// Whether an outcome leads over another. By this the leader is chosen; of two scores that are equal, the first leads, as it is
// asked for.
fn is_ahead(first: Outcome, second: Outcome) -> bool
    ensures { IsTrue result ↔ IsAhead first second }
{
    let ((first, _), (second, _)) = (first, second);
    first <= second
}

// The outcome of an entry, settled at its end.
fn outcome<M: Measure>(leader: &Leader<M::Label>) -> Outcome
    ensures { result ≡ entry_outcome M.ops leader.now.event leader.now.entry }
{
    let entry = &leader.entry;
    (M::settle(entry.label, entry.end), leader.event)
}

// Who leads once the entry for an event, if there is one, is seen too.
fn lead<M: Measure>(
    leader: Option<Leader<M::Label>>,
    query: Query,
    event: u16,
    entry: Option<Entry<M::Label>>,
) -> Option<Leader<M::Label>>
    ensures { LeadsOn M.ops query leader event entry result }
{
    let Some(comes) = contender(query, event, entry) else {
        return leader;
    };
    let Some(first) = leader else {
        return Some(comes);
    };
    if is_ahead(outcome::<M>(&first), outcome::<M>(&comes)) {
        Some(first)
    } else {
        Some(comes)
    }
}

// Of the entries for the events before `done` that end as the query asks, one with the lowest score.
pub(crate) fn lowest<M: Measure>(
    log: &[Option<Entry<M::Label>>],
    query: Query,
    done: u16,
) -> Option<Leader<M::Label>>
    ensures { Leads M.ops query log.now done result }
{
    // A fold was tried: what its closure promises would be the induction over again.
    let mut leader = None;
    for event in 0..done {
        let stage = Stage {
            event,
            called: query.call,
        };
        leader = lead::<M>(leader, query, event, entry_for(log, stage));
    }
    leader
}
