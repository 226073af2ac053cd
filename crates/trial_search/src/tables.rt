//! Rubbish in the tables that a search borrows.
use heap_tables::Slots;
use scans::{Arrival, Entry, Incumbent, Stage};
use search::Carried;
use test_filling::{NO_EVENT, NONSENSE};

// What a search might take for its own: an entry and an incumbent of no journey, after an event that there is not, with a label.
// The tests of the post have other rubbish, of which no query writes any.
pub(crate) fn rubbish<L: Copy>(label: L) -> Slots<L> {
    let label = Carried {
        label,
        begin: 1,
        riding: 0,
        rides: 0,
    };
    let nowhere = Stage {
        event: NO_EVENT,
        called: true,
    };
    Slots {
        entry: Some(Entry {
            label,
            predecessor: Some(nowhere),
            stop: 1,
            end: 0,
        }),
        incumbent: Some(Incumbent {
            label,
            event: NO_EVENT,
        }),
        arrival: Arrival {
            minute: 0,
            stage: Stage {
                event: 0,
                called: true,
            },
        },
        step: NONSENSE,
    }
}
