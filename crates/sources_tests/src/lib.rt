//! Tests of sources: blocks of events and of lines, opened, damaged, read through and read again.
#![tactic(auto)]

use faults::{Fault, Report};
use lines::LineSource;
use records::Event;
use sources::{Counts, RecordSource, Source, read_through};

// Room for one line more than a block may have.
const ROOM: usize = 528;

// The record of a line, whose six numbers are written out in a row.
fn line(from: u8, to: u8, first: u32, duration: u16, interval: u16, rides: u16) -> [u8; 16] {
    let [f0, f1, f2, f3] = first.to_be_bytes();
    let [d0, d1] = duration.to_be_bytes();
    let [i0, i1] = interval.to_be_bytes();
    let [r0, r1] = rides.to_be_bytes();
    [3, from, to, 0, f0, f1, f2, f3, d0, d1, i0, i1, r0, r1, 0, 0]
}

fn count_of(openings: usize, rides: usize) -> Counts {
    Counts { openings, rides }
}

// How many rides the bytes have as lines, or what opening them meets; beside the like for blocks, by calls of other names.
fn rides_in(bytes: &[u8]) -> Result<usize, Report> {
    Ok(LineSource::open(bytes)?.size())
}

// Writes a record at every place.
fn fill(bytes: &mut [u8], row: &[u8; 16]) {
    let (places, _) = bytes.as_chunks_mut::<16>();
    places.fill(*row);
}

// Three records in a row.
fn rows(first: [u8; 16], second: [u8; 16], third: [u8; 16]) -> [u8; 48] {
    let mut bytes = [0; 48];
    let (places, _) = bytes.as_chunks_mut::<16>();
    for (place, row) in places.iter_mut().zip([first, second, third]) {
        *place = row;
    }
    bytes
}

// What opening two lines meets.
fn opened_two(first: [u8; 16], second: [u8; 16]) -> Result<usize, Report> {
    rides_in(&rows(first, second, second)[0..32])
}

// Three lines that interleave: two of them depart at minute 130, and the last in the block departs first.
fn three_lines() -> [u8; 48] {
    rows(
        line(1, 2, 100, 20, 30, 3),
        line(2, 3, 130, 10, 15, 2),
        line(3, 4, 90, 5, 1_000, 1),
    )
}

// A ride 1-2 100+20, an opening at 2, minute 125, and a ride 2-3 125+30. The tests of blocks have the same bytes: data of a
// test that is read by itself.
fn three_records() -> [u8; 48] {
    rows(
        [2, 1, 2, 0, 0, 0, 0, 100, 0, 20, 0, 0, 0, 0, 0, 0],
        [1, 2, 0, 0, 0, 0, 0, 125, 0, 0, 0, 0, 0, 0, 0, 0],
        [2, 2, 3, 0, 0, 0, 0, 125, 0, 30, 0, 0, 0, 0, 0, 0],
    )
}

// A refusal that hands its source back.
fn refuse<S: Source>(source: S) -> Result<(), (S, Fault)> {
    Err((source, Fault::NoJourney))
}

#[cfg(test)]
mod tests {
    use super::*;
    use std::test::Fail;

    #[test]
    fn lines_interleave(rt: HostRuntime) -> Result<(), Fail> {
        let mut source = LineSource::open(&three_lines())?;
        assert_eq!(rt; source.size(), 6);
        let rides = [
            Event::ride(3, 4, 90, 5),
            Event::ride(1, 2, 100, 20),
            Event::ride(1, 2, 130, 20),
            Event::ride(2, 3, 130, 10),
            Event::ride(2, 3, 145, 10),
            Event::ride(1, 2, 160, 20),
        ];
        for event in rides {
            assert_eq!(rt; source.next(), Some(event));
        }
        assert_eq!(rt; source.next(), None);
        assert_eq!(rt; source.next(), None);
        source.rewind();
        assert_eq!(rt; source.next(), Some(Event::ride(3, 4, 90, 5)));
        assert_eq!(rt; source.next(), Some(Event::ride(1, 2, 100, 20)));
        source.rewind();
        for event in rides {
            assert_eq!(rt; source.next(), Some(event));
        }
        assert_eq!(rt; source.next(), None);
        Ok(())
    }

    #[test]
    fn equal_departures(rt: HostRuntime) -> Result<(), Fail> {
        let bytes = rows(
            line(9, 1, 60, 10, 10, 2),
            line(5, 2, 70, 20, 65_535, 1),
            line(1, 3, 60, 30, 10, 2),
        );
        let mut source = LineSource::open(&bytes)?;
        let rides = [
            Event::ride(9, 1, 60, 10),
            Event::ride(1, 3, 60, 30),
            Event::ride(9, 1, 70, 10),
            Event::ride(5, 2, 70, 20),
            Event::ride(1, 3, 70, 30),
        ];
        for event in rides {
            assert_eq!(rt; source.next(), Some(event));
        }
        assert_eq!(rt; source.next(), None);
        let mut single = LineSource::open(&bytes[16..32])?;
        assert_eq!(rt; single.next(), Some(Event::ride(5, 2, 70, 20)));
        assert_eq!(rt; single.next(), None);
        single.rewind();
        assert_eq!(rt; single.next(), Some(Event::ride(5, 2, 70, 20)));
        Ok(())
    }

    #[test]
    fn records_in_turn(rt: HostRuntime) -> Result<(), Fail> {
        let mut source = RecordSource::open(&three_records())?;
        assert_eq!(rt; source.size(), 3);
        assert_eq!(rt; source.next(), Some(Event::ride(1, 2, 100, 20)));
        source.rewind();
        let events = [
            Event::ride(1, 2, 100, 20),
            Event::opening(2, 125),
            Event::ride(2, 3, 125, 30),
        ];
        for event in events {
            assert_eq!(rt; source.next(), Some(event));
        }
        assert_eq!(rt; source.next(), None);
        assert_eq!(rt; source.next(), None);
        Ok(())
    }

    #[test]
    fn read_through_both_kinds(rt: HostRuntime) -> Result<(), Fail> {
        let mut records = RecordSource::open(&three_records())?;
        assert_eq!(rt; records.next(), Some(Event::ride(1, 2, 100, 20)));
        assert_eq!(rt; read_through(&mut records), count_of(1, 2));
        assert_eq!(rt; records.next(), None);
        let mut lines = LineSource::open(&three_lines())?;
        assert_eq!(rt; lines.next(), Some(Event::ride(3, 4, 90, 5)));
        assert_eq!(rt; read_through(&mut lines), count_of(0, 6));
        assert_eq!(rt; lines.next(), None);
        let mut empty = RecordSource::open(&[])?;
        assert_eq!(rt; read_through(&mut empty), count_of(0, 0));
        Ok(())
    }

    #[test]
    fn handed_back_in_a_refusal(rt: HostRuntime) -> Result<(), Fail> {
        let lines = LineSource::open(&three_lines())?;
        let (mut source, _) = refuse(lines).err().ok_or("nothing is refused")?;
        assert_eq!(rt; source.next(), Some(Event::ride(3, 4, 90, 5)));
        let records = RecordSource::open(&three_records())?;
        let (mut source, _) = refuse(records).err().ok_or("nothing is refused")?;
        assert_eq!(rt; source.next(), Some(Event::ride(1, 2, 100, 20)));
        Ok(())
    }

    #[test]
    fn damaged_lines(rt: HostRuntime) {
        // Two bytes changed in three good lines, and the number, layer and place that opening them then meets.
        let table: [((usize, u8), (usize, u8), Result<usize, Report>); 22] = [
            ((0, 3), (0, 3), Ok(6)),
            ((16, 2), (0, 3), Err(Report::new(3, 2, 1))),
            ((3, 1), (0, 3), Err(Report::new(4, 2, 0))),
            ((30, 1), (0, 3), Err(Report::new(4, 2, 1))),
            ((31, 1), (0, 3), Err(Report::new(4, 2, 1))),
            ((34, 3), (0, 3), Err(Report::new(5, 2, 2))),
            ((9, 0), (0, 3), Err(Report::new(6, 2, 0))),
            ((8, 5), (9, 160), Ok(6)),
            ((8, 5), (9, 161), Err(Report::new(6, 2, 0))),
            ((27, 0), (0, 3), Err(Report::new(7, 2, 1))),
            ((29, 0), (0, 3), Err(Report::new(7, 2, 1))),
            ((4, 1), (0, 3), Err(Report::new(8, 2, 0))),
            ((12, 4), (0, 3), Err(Report::new(10, 3, 0))),
            ((28, 4), (0, 3), Err(Report::new(10, 3, 1))),
            // The first broken rule decides: kind, spare byte, stops, duration, repetition, time, number of rides.
            ((0, 9), (3, 1), Err(Report::new(3, 2, 0))),
            ((3, 1), (2, 1), Err(Report::new(4, 2, 0))),
            ((2, 1), (9, 0), Err(Report::new(5, 2, 0))),
            ((9, 0), (11, 0), Err(Report::new(6, 2, 0))),
            ((13, 0), (4, 255), Err(Report::new(7, 2, 0))),
            ((4, 255), (12, 4), Err(Report::new(8, 2, 0))),
            ((12, 4), (16, 0), Err(Report::new(10, 3, 0))),
            ((32, 0), (31, 1), Err(Report::new(4, 2, 1))),
        ];
        for ((at, byte), (also_at, also_byte), meets) in table {
            let mut bytes = three_lines();
            assert!(rt; at < 48 && also_at < 48);
            bytes[at] = byte;
            bytes[also_at] = also_byte;
            assert_eq!(rt; rides_in(&bytes), meets);
        }
    }

    #[test]
    fn limits_of_lines(rt: HostRuntime) {
        let one = line(1, 2, 0, 1, 1, 1);
        assert_eq!(rt;
            opened_two(line(1, 2, 0, 1_440, 975, 1_024), one),
            Err(Report::new(10, 3, 1))
        );
        assert_eq!(rt;
            opened_two(line(1, 2, 0, 1_440, 975, 1_023), one),
            Ok(1_024)
        );
        assert_eq!(rt;
            opened_two(line(1, 2, 0, 1, 1, 1_025), one),
            Err(Report::new(10, 3, 0))
        );
        assert_eq!(rt; opened_two(one, line(1, 2, 16_973, 1, 65_535, 16)), Ok(17));
        assert_eq!(rt;
            opened_two(one, line(1, 2, 16_973, 1, 65_535, 17)),
            Err(Report::new(8, 2, 1))
        );
        assert_eq!(rt;
            opened_two(one, line(1, 2, 0, 1, 1, 65_535)),
            Err(Report::new(10, 3, 1))
        );
        assert_eq!(rt;
            opened_two(line(1, 2, 4_294_967_295, 1_440, 65_535, 65_535), one),
            Err(Report::new(8, 2, 0))
        );
        assert_eq!(rt; opened_two(line(1, 2, 999_998, 1, 65_535, 1), one), Ok(2));
        assert_eq!(rt;
            opened_two(line(1, 2, 999_999, 1, 65_535, 1), one),
            Err(Report::new(8, 2, 0))
        );
    }

    #[test]
    fn full_blocks(rt: HostRuntime) -> Result<(), Fail> {
        let mut bytes = [0; ROOM];
        fill(&mut bytes, &line(7, 8, 60, 10, 3, 32));
        assert_eq!(rt; rides_in(&bytes), Err(Report::new(2, 1, 32)));
        assert_eq!(rt; rides_in(&bytes[0..513]), Err(Report::new(1, 1, 32)));
        assert_eq!(rt; rides_in(&bytes[0..0]), Ok(0));
        let mut source = LineSource::open(&bytes[0..512])?;
        assert_eq!(rt; read_through(&mut source), count_of(0, 1_024));
        assert_eq!(rt; source.next(), None);
        source.rewind();
        for ride_of_line in 0..1_024 {
            assert_eq!(rt;
                source.next(),
                Some(Event::ride(7, 8, 60 + ride_of_line / 32 * 3, 10))
            );
        }
        assert_eq!(rt; source.next(), None);
        Ok(())
    }
}
