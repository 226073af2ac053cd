//! Judging a list of event numbers: whether it is a journey that fits, and what it scores.
ghost use Rattle.std.specs.Prelude.{◌≡◌, ◌+◌, ◌^◌, ◌<◌, ◌≤◌, ◌&&◌, length, drop, ◌↔◌, IsTrue, nat_lt, Some};
ghost use Rattle.journeys.specs.Formulas.{along};
ghost use Rattle.journeys.specs.Journeys.{Link, minutes, event_numbered, one_if_opening, one_if_ride};
ghost use Rattle.journeys.specs.Shown.{verdict_text};
ghost use Rattle.journeys.specs.Marks.{is_in_force};
ghost use Rattle.journeys.specs.Verdicts.{MeetsQuery, IsChain, IsVerdict, Next, totals_of};

use crate::marks::is_in_force;
use crate::query::Query;
use crate::travel::{end_of, label_through, leaves_at, reaches_at, ready_at, starts_at};
use measures::Measure;
use records::Event;
use std::fmt;

/// What is said of a journey that fits.
#[derive(Clone, Copy, PartialEq, Eq, Debug)]
pub struct Verdict {
    pub begin: u32,
    pub end: u32,
    pub riding: u32,
    pub rides: usize,
    pub score: (i64, i64),
}

// In words, with the score in brackets.
impl fmt::Display for Verdict {
    ghost output = { λ verdict. Some (verdict_text verdict) };

    fn fmt<W: fmt::Write>(&self, f: &mut fmt::Formatter<W>) -> fmt::Result {
        let Verdict {
            begin,
            end,
            riding,
            rides,
            score,
        } = *self;
        let (first, second) = score;
        write!(f, "from {begin} to {end}, riding {riding}, rides {rides}")?;
        write!(f, ", score ({first}; {second})")
    }
}

// Sums over a list of event numbers.
#[derive(Clone, Copy, Default)]
struct Totals {
    riding: u128,
    rides: usize,
    openings: usize,
}

// The event with a number; beyond the list, an opening that no one can use. Sources have the same opening with another meaning,
// in slots of a table that are not filled.
fn event_numbered(events: &[Event], number: usize) -> Event
    ensures { result ≡ event_numbered events.now number }
{
    let unusable = Event::opening(0, 0);
    events.get(number).copied().unwrap_or(unusable)
}

// Whether a number is that of an event in force. Events and marks are lent beside each other, as they are lent to the judge.
fn is_known(events: &[Event], marks: &[bool], number: usize) -> bool
    ensures { result ≡ (nat_lt number (length events.now) && is_in_force marks.now number) }
{
    number < events.len() && is_in_force(marks, number)
}

// Whether a traveller can go on from the first event to the second.
fn is_link(events: &[Event], first: usize, second: usize) -> bool
    ensures { IsTrue result ↔ Link events.now first second }
{
    let (first, second) = (
        event_numbered(events, first),
        event_numbered(events, second),
    );
    reaches_at(first) == leaves_at(second) && ready_at(first) <= u64::from(starts_at(second))
}

// Whether the second number may come right after the first.
fn goes_on(events: &[Event], first: usize, second: usize) -> bool
    ensures { IsTrue result ↔ ((first < second) × Link events.now first second) }
{
    first < second && is_link(events, first, second)
}

// Whether the first of the numbers is that of an event in force, and the second may come right after it.
fn step_holds(events: &[Event], marks: &[bool], steps: &[usize]) -> bool
    ensures { IsTrue result ↔ Next events.now (is_in_force marks.now) steps.now }
{
    match steps {
        [] => true,
        [step] => is_known(events, marks, *step),
        [step, next, ..] => is_known(events, marks, *step) && goes_on(events, *step, *next),
    }
}

// Whether the numbers rise and are those of events in force, each linked to the next.
fn is_chain(events: &[Event], marks: &[bool], steps: &[usize]) -> bool
    ensures { IsTrue result ↔ IsChain events.now (is_in_force marks.now) steps.now }
{
    let mut left = steps;
    while let [_, after @ ..] = left {
        if !step_holds(events, marks, left) {
            return false;
        }
        left = after;
    }
    true
}

impl Totals {
    // Takes one event more. There are fewer than 2 ^ 64 events, of at most 65,535 minutes each.
    fn take(&mut self, event: Event)
        requires riding { self.old.riding < 2 ^ 100 }
        requires rides { self.old.rides < 2 ^ 63 }
        requires openings { self.old.openings < 2 ^ 63 }
        ensures riding { self.new.riding ≡ self.old.riding + minutes event }
        ensures rides { self.new.rides ≡ self.old.rides + one_if_ride event }
        ensures openings { self.new.openings ≡ self.old.openings + one_if_opening event }
        ensures bound { minutes event ≤ 65535 }
    {
        match event {
            Event::Opening(_) => self.openings += 1,
            Event::Ride(ride) => {
                self.riding += u128::from(ride.duration);
                self.rides += 1;
            }
        }
    }
}

// Riding, rides and openings of the numbered events.
fn add_up(events: &[Event], steps: &[usize]) -> Totals
    ensures { result ≡ totals_of events.now steps.now }
{
    let mut totals = Totals::default();
    for step in steps {
        totals.take(event_numbered(events, *step));
    }
    totals
}

// A label taken through the numbered events.
fn label_along<M: Measure>(events: &[Event], begin: M::Label, steps: &[usize]) -> M::Label
    ensures { result ≡ along M.ops events.now begin steps.now }
{
    let mut label = begin;
    for step in steps {
        label = label_through::<M>(label, event_numbered(events, *step));
    }
    label
}

// Whether the first and the last event of a chain, and what it adds up to, are what the query asks for.
fn meets(query: Query, first: Event, last: Event, totals: Totals) -> bool
    ensures { IsTrue result ↔ MeetsQuery query first last totals }
{
    totals.rides >= 1
        && totals.openings == usize::from(query.call)
        && leaves_at(first) == query.from
        && reaches_at(last) == query.to
        && query.open <= starts_at(first)
        && end_of(last) <= u64::from(query.close)
}

/// What a journey that fits is and scores under a measure; none where the steps are not such a journey.
pub fn judge<M: Measure>(
    events: &[Event],
    marks: &[bool],
    query: Query,
    steps: &[usize],
) -> Option<Verdict>
    ensures { IsVerdict M.ops events.now (is_in_force marks.now) query steps.now result }
{
    let (start, goal) = (*steps.first()?, *steps.last()?);
    if !is_chain(events, marks, steps) {
        return None;
    }
    let first = event_numbered(events, start);
    let last = event_numbered(events, goal);
    let totals = add_up(events, steps);
    if !meets(query, first, last, totals) {
        return None;
    }
    let begin = starts_at(first);
    let end = end_of(last) as u32;
    let label = label_along::<M>(events, M::begin(begin), steps);
    Some(Verdict {
        begin,
        end,
        riding: totals.riding as u32,
        rides: totals.rides,
        score: M::settle(label, end),
    })
}
