//! The marks of a post: true for an event that is out of force.
ghost use Rattle.std.specs.Prelude.{◌≡◌, false, replicate, count_by};
ghost use Rattle.records.specs.Limits.{most_events};

use records::MOST_EVENTS;

// The marks with every event in force.
pub(crate) fn new_marks() -> [bool; MOST_EVENTS]
    ensures { result ≡ replicate most_events false }
{
    [false; MOST_EVENTS]
}

// How many marks are set. The loop goes over the marks themselves, so that there is no index that could skip one or run past the
// last.
pub(crate) fn count_set(marks: &[bool]) -> usize
    ensures { result ≡ count_by (λ b. b) marks.now }
{
    let mut count = 0;
    for mark in marks {
        count += usize::from(*mark);
    }
    count
}
