//! Tests of records, blocks and loads: tables of damage, each with the fault that it meets.
#![tactic(auto)]

use blocks::{Block, Load};
use faults::Report;
use records::{Event, read, write};

// A ride 1-2 100+20, an opening at 2, minute 125, and a ride 2-3 125+30. The tests of sources have the same bytes: data of a
// test that is read by itself.
const GOOD: [u8; 48] = [
    2, 1, 2, 0, 0, 0, 0, 100, 0, 20, 0, 0, 0, 0, 0, 0, //
    1, 2, 0, 0, 0, 0, 0, 125, 0, 0, 0, 0, 0, 0, 0, 0, //
    2, 2, 3, 0, 0, 0, 0, 125, 0, 30, 0, 0, 0, 0, 0, 0, //
];

// How many events the bytes have as a block, or what opening them meets; beside the like for lines, by calls of other names.
fn events_in(bytes: &[u8]) -> Result<usize, Report> {
    Ok(Block::open(bytes)?.len())
}

// What adding the bytes to a load meets.
fn add(load: &mut Load, bytes: &[u8]) -> Result<(), Report> {
    Ok(load.add(bytes)?)
}

// What reading the record of an event gives, or what writing or reading it meets.
fn rewritten(event: Event) -> Result<Event, Report> {
    Ok(read(&write(event)?, 5)?)
}

#[cfg(test)]
mod tests {
    use super::*;

    #[test]
    fn damaged_blocks(rt: HostRuntime) {
        // Two bytes changed in the good block, and the number, layer and place that opening it then meets.
        let table: [((usize, u8), (usize, u8), Result<usize, Report>); 27] = [
            ((0, 2), (0, 2), Ok(3)),
            ((16, 0), (0, 2), Err(Report::new(3, 2, 1))),
            ((16, 3), (0, 2), Err(Report::new(3, 2, 1))),
            ((3, 1), (0, 2), Err(Report::new(4, 2, 0))),
            ((10, 1), (0, 2), Err(Report::new(4, 2, 0))),
            ((15, 1), (0, 2), Err(Report::new(4, 2, 0))),
            ((18, 1), (0, 2), Err(Report::new(4, 2, 1))),
            ((19, 1), (0, 2), Err(Report::new(4, 2, 1))),
            ((24, 1), (0, 2), Err(Report::new(4, 2, 1))),
            ((31, 1), (0, 2), Err(Report::new(4, 2, 1))),
            ((2, 1), (0, 2), Err(Report::new(5, 2, 0))),
            ((9, 0), (0, 2), Err(Report::new(6, 2, 0))),
            ((8, 5), (9, 160), Ok(3)),
            ((8, 5), (9, 161), Err(Report::new(6, 2, 0))),
            ((4, 255), (0, 2), Err(Report::new(8, 2, 0))),
            ((20, 1), (0, 2), Err(Report::new(8, 2, 1))),
            ((7, 126), (0, 2), Err(Report::new(9, 3, 1))),
            // A ride before an opening of the same minute; the same minute from opening to ride is in order.
            ((7, 125), (0, 2), Err(Report::new(9, 3, 1))),
            ((39, 124), (0, 2), Err(Report::new(9, 3, 2))),
            // The first broken rule decides: kind, spare byte, stops, duration, time, order.
            ((0, 9), (3, 1), Err(Report::new(3, 2, 0))),
            ((3, 1), (2, 1), Err(Report::new(4, 2, 0))),
            ((2, 1), (9, 0), Err(Report::new(5, 2, 0))),
            ((9, 0), (4, 255), Err(Report::new(6, 2, 0))),
            ((4, 255), (16, 0), Err(Report::new(8, 2, 0))),
            ((7, 126), (32, 0), Err(Report::new(9, 3, 1))),
            ((20, 1), (32, 0), Err(Report::new(8, 2, 1))),
            ((39, 124), (32, 7), Err(Report::new(3, 2, 2))),
        ];
        for ((at, byte), (also_at, also_byte), meets) in table {
            let mut bytes = GOOD;
            assert!(rt; at < 48 && also_at < 48);
            bytes[at] = byte;
            bytes[also_at] = also_byte;
            assert_eq!(rt; events_in(&bytes), meets);
        }
    }

    #[test]
    fn lengths(rt: HostRuntime) {
        let bytes = [0u8; 16_401];
        assert_eq!(rt; events_in(&bytes[0..0]), Ok(0));
        assert_eq!(rt; events_in(&bytes[0..15]), Err(Report::new(1, 1, 0)));
        assert_eq!(rt; events_in(&bytes[0..17]), Err(Report::new(1, 1, 1)));
        assert_eq!(rt; events_in(&bytes[0..16_384]), Err(Report::new(3, 2, 0)));
        assert_eq!(rt; events_in(&bytes[0..16_400]), Err(Report::new(2, 1, 1_024)));
        assert_eq!(rt; events_in(&bytes), Err(Report::new(1, 1, 1_025)));
    }

    #[test]
    fn full_load(rt: HostRuntime) {
        let mut memory = [0u8; 16_400];
        let mut load = Load::new(&mut memory);
        for _ in 0..1_024 {
            assert_eq!(rt; add(&mut load, &GOOD[0..16]), Ok(()));
        }
        assert_eq!(rt; add(&mut load, &GOOD[0..16]), Err(Report::new(2, 1, 1_024)));
        assert_eq!(rt; load.finish(), 1_024);
        assert_eq!(rt; events_in(&memory[0..16_384]), Ok(1_024));
    }

    #[test]
    fn refused_adds(rt: HostRuntime) {
        let mut memory = [170u8; 40];
        let line = [3, 1, 2, 0, 0, 0, 0, 100, 0, 20, 0, 5, 0, 9, 0, 0];
        let mut load = Load::new(&mut memory);
        assert_eq!(rt; add(&mut load, &GOOD[0..15]), Err(Report::new(1, 1, 0)));
        assert_eq!(rt; add(&mut load, &line), Err(Report::new(3, 2, 0)));
        assert_eq!(rt; add(&mut load, &GOOD[16..32]), Ok(()));
        assert_eq!(rt; add(&mut load, &GOOD[0..16]), Err(Report::new(9, 3, 1)));
        assert_eq!(rt; add(&mut load, &GOOD[32..48]), Ok(()));
        assert_eq!(rt; add(&mut load, &GOOD[16..32]), Err(Report::new(2, 1, 2)));
        assert_eq!(rt; add(&mut load, &GOOD[0..17]), Err(Report::new(1, 1, 2)));
        assert_eq!(rt; load.finish(), 2);
        assert_eq!(rt; &memory[0..32], &GOOD[16..48]);
        assert_eq!(rt; &memory[32..40], [170u8; 8].as_slice());
        assert_eq!(rt; events_in(&memory[0..32]), Ok(2));
    }

    #[test]
    fn written_events(rt: HostRuntime) {
        let table = [
            (Event::ride(1, 2, 999_998, 1), Ok(())),
            (Event::ride(1, 2, 999_999, 1), Err(Report::new(8, 2, 0))),
            (
                Event::ride(1, 2, 4_294_967_295, 1_440),
                Err(Report::new(8, 2, 0)),
            ),
            (Event::ride(255, 0, 0, 1_440), Ok(())),
            (Event::ride(0, 1, 0, 1_441), Err(Report::new(6, 2, 0))),
            (Event::ride(0, 1, 0, 0), Err(Report::new(6, 2, 0))),
            (Event::ride(7, 7, 0, 0), Err(Report::new(5, 2, 0))),
            (Event::ride(0, 1, 999_999, 0), Err(Report::new(6, 2, 0))),
            (Event::opening(255, 999_999), Ok(())),
            (Event::opening(0, 1_000_000), Err(Report::new(8, 2, 0))),
        ];
        for (event, meets) in table {
            assert_eq!(rt; rewritten(event), meets.map(|()| event));
        }
    }
}
