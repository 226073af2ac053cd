//! Tests of commands: lines with the places at which they stop being one, and commands there and back.
#![tactic(auto)]

use commands::{Command, LONGEST_TEXT, parse, write};
use faults::Report;
use journeys::Query;
use measures::Criterion;

// What a line that stops being a command at a place is refused with.
fn refused_at(place: usize) -> Result<Command, Report> {
    Err(Report::new(11, 4, place))
}

// The command that a line spells, or the report of its fault.
fn parse_line(line: &[u8]) -> Result<Command, Report> {
    parse(line).map_err(Report::from)
}

// Whether a line spells the command, and the command is written as that line.
fn spells(line: &[u8], command: Command) -> bool {
    let mut memory = [170; LONGEST_TEXT];
    match (parse(line), write(command, &mut memory)) {
        (Ok(read), Some(length)) => read == command && &memory[0..length] == line,
        _ => false,
    }
}

// A query, written out in a row.
fn find(criterion: Criterion, from: u8, to: u8, open: u32, close: u32, call: bool) -> Command {
    Command::Find {
        criterion,
        query: Query {
            from,
            to,
            open,
            close,
            call,
        },
    }
}

#[cfg(test)]
mod tests {
    use super::*;

    #[test]
    fn places(rt: HostRuntime) {
        let table: [(&[u8], usize); 30] = [
            (b"", 0),
            (b"x", 0),
            (b"T", 0),
            (b" t", 0),
            (b"\xff", 0),
            (b"t x", 1),
            (b"t\r", 1),
            (b"t ", 1),
            (b"w", 1),
            (b"w\t1", 1),
            (b"w ", 2),
            (b"w  1", 2),
            (b"w -1", 2),
            (b"w 01", 3),
            (b"w 1\0", 3),
            (b"w 1 2", 3),
            (b"r 123456 ", 8),
            (b"w 1234567", 8),
            (b"e 256", 4),
            (b"e 300", 4),
            (b"e 1 3", 5),
            (b"e 1 260 5 6", 6),
            (b"e 1 3 100 200 ", 14),
            (b"e 1 3 100 200v", 13),
            (b"e 1 3 100 200  v", 14),
            (b"e 1 3 100 200 v ", 15),
            (b"e 1 3 100 200 v\r", 15),
            (b"e 1 3 100 200 \x80", 14),
            (b"e 1 3 1000000 200", 12),
            (b"c 0 00 1 2", 5),
        ];
        for (line, place) in table {
            assert_eq!(rt; parse_line(line), refused_at(place));
        }
    }

    #[test]
    fn commands_there_and_back(rt: HostRuntime) {
        let table: [(&[u8], Command); 14] = [
            (b"t", Command::Tally),
            (b"w 0", Command::Withdraw { event: 0 }),
            (b"w 999999", Command::Withdraw { event: 999_999 }),
            (b"r 10", Command::Reinstate { event: 10 }),
            (
                b"e 1 3 100 200",
                find(Criterion::EarliestArrival, 1, 3, 100, 200, false),
            ),
            (
                b"e 1 3 100 200 v",
                find(Criterion::EarliestArrival, 1, 3, 100, 200, true),
            ),
            (
                b"l 0 0 0 0",
                find(Criterion::LatestDeparture, 0, 0, 0, 0, false),
            ),
            (
                b"l 9 8 7 6 v",
                find(Criterion::LatestDeparture, 9, 8, 7, 6, true),
            ),
            (
                b"f 10 20 30 40",
                find(Criterion::Fastest, 10, 20, 30, 40, false),
            ),
            (
                b"s 255 254 999999 0",
                find(Criterion::LeastRiding, 255, 254, 999_999, 0, false),
            ),
            (
                b"n 99 100 10000 9",
                find(Criterion::FewestRides, 99, 100, 10_000, 9, false),
            ),
            (
                b"n 199 200 1 2 v",
                find(Criterion::FewestRides, 199, 200, 1, 2, true),
            ),
            (
                b"c 249 250 5 4",
                find(Criterion::LeastWaiting, 249, 250, 5, 4, false),
            ),
            (
                b"c 255 255 999999 999999 v",
                find(Criterion::LeastWaiting, 255, 255, 999_999, 999_999, true),
            ),
        ];
        for (line, command) in table {
            assert!(rt; spells(line, command), "there or back");
        }
    }

    #[test]
    fn long_lines(rt: HostRuntime) {
        let mut line = [b'1'; 10_000];
        assert_eq!(rt; parse_line(&line), refused_at(0));
        line[0] = b'w';
        line[1] = b' ';
        assert_eq!(rt; parse_line(&line), refused_at(8));
        assert_eq!(rt;
            parse_line(&line[0..8]),
            Ok(Command::Withdraw { event: 111_111 })
        );
        line[1] = b'\0';
        assert_eq!(rt; parse_line(&line), refused_at(1));
    }

    #[test]
    fn refused_writes(rt: HostRuntime) {
        let mut memory = [170; 9];
        assert_eq!(rt;
            write(Command::Withdraw { event: 1_000_000 }, &mut memory),
            None
        );
        assert_eq!(rt;
            write(
                find(Criterion::Fastest, 1, 2, 3, 1_000_000, false),
                &mut memory,
            ),
            None
        );
        assert_eq!(rt;
            write(
                find(Criterion::Fastest, 1, 2, 1_000_000, 3, false),
                &mut memory,
            ),
            None
        );
        assert_eq!(rt;
            write(find(Criterion::Fastest, 1, 2, 3, 45, false), &mut memory),
            None
        );
        assert_eq!(rt; &memory, &[170; 9]);
        assert_eq!(rt;
            write(find(Criterion::Fastest, 1, 2, 3, 4, false), &mut memory),
            Some(9)
        );
        assert_eq!(rt; &memory, b"f 1 2 3 4");
        assert_eq!(rt;
            write(Command::Reinstate { event: 12 }, &mut memory),
            Some(4)
        );
        assert_eq!(rt; &memory, b"r 122 3 4");
    }
}
