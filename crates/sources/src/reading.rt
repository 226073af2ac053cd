//! Reading any source from its start to its end.
ghost use Rattle.std.specs.Prelude.{◌≡◌, ◌+◌, ◌<◌, if◌then◌else◌};
ghost use Rattle.records.specs.Events.{is_opening, is_ride};
ghost use Rattle.records.specs.Limits.{most_events};
ghost use Rattle.sources.specs.Sources.{ReadThrough, Repeats};

use crate::source::Source;
use records::Event;

/// How many events of each kind there are.
#[derive(Clone, Copy, PartialEq, Eq, Debug, Default)]
pub struct Counts {
    pub openings: usize,
    pub rides: usize,
}

impl Counts {
    // Counts one event more.
    fn count(&mut self, event: Event)
        requires openings { self.old.openings < most_events }
        requires rides { self.old.rides < most_events }
        ensures openings { let more = if is_opening event then 1 else 0 in
            self.new.openings ≡ self.old.openings + more }
        ensures rides { let more = if is_ride event then 1 else 0 in
            self.new.rides ≡ self.old.rides + more }
    {
        match event {
            Event::Opening(_) => self.openings += 1,
            Event::Ride(_) => self.rides += 1,
        }
    }
}

/// Reads a source from its start to its end, wherever its place is, and counts its events.
pub fn read_through<S: Source>(source: &mut S) -> Counts
    ensures through { let es = S.events source.old in
        ReadThrough es result (S.events source.new) (S.place source.new) }
    ensures repeats { Repeats (S.events source.old) (S.place source.old) }
{
    source.rewind();
    let mut counts = Counts::default();
    while let Some(event) = source.next() {
        counts.count(event);
    }
    counts
}
