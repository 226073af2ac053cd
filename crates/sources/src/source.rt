//! What a source of events is: a list that no call changes, and a place in it.
ghost use Rattle.std.specs.Prelude.{◌≡◌, ℕ, ◌≤◌, List, length};
ghost use Rattle.records.specs.declared.event.Event.{Event as Timed};
ghost use Rattle.records.specs.Events.{IsTimetable};
ghost use Rattle.sources.specs.Sources.{Reading, Rewinding};

use records::Event;

/// Events to be read one after another, from the first one again after a rewind.
pub trait Source {
    ghost events: { Self → List Timed };

    ghost place: { Self → ℕ };

    // The list of every source is a timetable's.
    ghost listed: { (s : Self) → IsTimetable (events s) };

    // No source is past its end.
    ghost within: { (s : Self) → place s ≤ length (events s) };

    /// The number of the list's events.
    fn size(&self) -> usize
        ensures { result ≡ length (events self.now) };

    /// Goes back to the start of the list.
    fn rewind(&mut self)
        ensures { Rewinding (events self.old) (events self.new) (place self.new) };

    /// The event at the place, which then is one further; none at the end.
    fn next(&mut self) -> Option<Event>
        ensures { let es = events self.old in
            Reading es (place self.old) result (events self.new) (place self.new) };
}
