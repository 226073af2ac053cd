//! What the tables have in them before a query, so that a slot that was written is told from one that was not.
use heap_tables::{HeapTables, Slots};
use scans::{Arrival, Entry, Incumbent, Stage};
use search::Carried;
use test_filling::{NO_EVENT, NONSENSE, is_nonsense_behind};

/// What no query writes. The program `trial_search` has other rubbish: what a search might take for its own.
pub fn rubbish() -> Slots<u32> {
    let label = Carried {
        label: 2,
        begin: 3,
        riding: 4,
        rides: 5,
    };
    let nowhere = Stage {
        event: NO_EVENT,
        called: true,
    };
    Slots {
        entry: Some(Entry {
            label,
            predecessor: Some(nowhere),
            stop: 6,
            end: 7,
        }),
        incumbent: Some(Incumbent {
            label,
            event: NO_EVENT,
        }),
        arrival: Arrival {
            minute: 1,
            stage: nowhere,
        },
        step: NONSENSE,
    }
}

/// Whether there is rubbish in each slot of all tables.
pub fn are_spoilt(tables: &HeapTables<u32>) -> bool {
    let Slots {
        entry,
        incumbent,
        arrival,
        ..
    } = rubbish();
    tables.log.iter().all(|slot| *slot == entry)
        && tables.board.iter().all(|slot| *slot == incumbent)
        && tables.queue.iter().all(|slot| *slot == arrival)
        && is_nonsense_behind(&tables.steps, 0)
}
