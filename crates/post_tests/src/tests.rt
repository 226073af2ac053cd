//! The tests, each with tables of calls and of their right answers.
use crate::days::{place_of, worked_day, worked_line_source};
use crate::queries::Letter::{E, L};
use crate::queries::{Letter, ask, from_to};
use crate::rubbish::{are_spoilt, rubbish};
use faults::{Fault, Report};
use heap_tables::{HeapTables, Lengths};
use journeys::{Answer, Verdict};
use lines::LineSource;
use sources::{RecordSource, Source};
use std::alloc::Global;
use std::process::Abort;
use std::test::Fail;
use test_filling::{NONSENSE, is_nonsense_behind};
use timetable_post::Post;

// A measure, the stop to reach, the numbers that the answer has for the best journey from stop 1 within 100 to 200, and the
// journey.
type Row<'a> = (Letter, u8, Answer, &'a [usize]);

// The answer for a trip, a journey without a call, whose steps are rides: six numbers of a row.
fn trip(
    begin: u32,
    end: u32,
    riding: u32,
    rides: usize,
    score: (i64, i64),
    reads: usize,
) -> Answer {
    Answer {
        verdict: Verdict {
            begin,
            end,
            riding,
            rides,
            score,
        },
        steps: rides,
        reads,
    }
}

// Tables of these lengths, log, board, queue and step table, with rubbish in each slot.
fn spoilt_tables(heap: Global, lengths: [usize; 4]) -> Result<HeapTables<u32>, Fail> {
    let [log, board, queue, steps] = lengths;
    let lengths = Lengths {
        log,
        board,
        queue,
        steps,
    };
    Ok(HeapTables::new(heap, lengths, rubbish())?)
}

// Checks that the step table names a journey, and is as it was behind it.
fn check_named(rt: &impl Abort, tables: &HeapTables<u32>, journey: &[usize]) {
    assert_eq!(rt; tables.steps.get(0..journey.len()), Some(journey));
    assert!(rt; is_nonsense_behind(&tables.steps, journey.len()));
}

fn check_rows(
    rt: &impl Abort,
    post: &mut Post<LineSource>,
    tables: &mut HeapTables<u32>,
    rows: &[Row],
) {
    for (letter, to, wanted, journey) in rows {
        tables.steps.fill(NONSENSE);
        let answer = ask(post, *letter, from_to(1, *to, 100, 200), tables);
        assert_eq!(rt; answer, Ok(*wanted));
        check_named(rt, tables, journey);
    }
}

#[test]
fn lines_through_notices(rt: HostRuntime) -> Result<(), Fail> {
    let all_in_force: [Row; 4] = [
        (E, 3, trip(115, 155, 30, 2, (155, 999_884), 5), &[1, 4]),
        (L, 3, trip(115, 155, 30, 2, (999_884, 155), 5), &[1, 4]),
        (E, 2, trip(100, 120, 20, 1, (120, 999_899), 5), &[0]),
        (L, 2, trip(130, 150, 20, 1, (999_869, 150), 5), &[3]),
    ];
    let without_1: [Row; 4] = [
        (E, 3, trip(100, 155, 30, 2, (155, 999_899), 5), &[0, 4]),
        (L, 3, trip(100, 155, 30, 2, (999_899, 155), 5), &[0, 4]),
        (E, 2, trip(100, 120, 20, 1, (120, 999_899), 5), &[0]),
        (L, 2, trip(130, 150, 20, 1, (999_869, 150), 5), &[3]),
    ];
    let mut tables = spoilt_tables(rt.alloc(), [10, 512, 10, 5])?;
    let mut post = Post::put_up(worked_line_source()?);
    check_rows(&rt, &mut post, &mut tables, &all_in_force);
    post.withdraw(1)?;
    assert_eq!(rt; post.tally(), 1);
    check_rows(&rt, &mut post, &mut tables, &without_1);
    post.reinstate(1)?;
    assert_eq!(rt; post.tally(), 0);
    check_rows(&rt, &mut post, &mut tables, &all_in_force);
    post.withdraw(1)?;
    let mut again = Post::put_up(post.take_down());
    assert_eq!(rt; again.tally(), 0);
    check_rows(&rt, &mut again, &mut tables, &all_in_force);
    Ok(())
}

#[test]
fn notices_on_records(rt: HostRuntime) -> Result<(), Fail> {
    // Whether it is a withdrawal, its event, what it meets, and the tally after it.
    let table = [
        (false, 6, Err(Report::new(13, 5, 6)), 0),
        (true, 6, Ok(()), 1),
        (true, 6, Err(Report::new(13, 5, 6)), 1),
        (true, 0, Ok(()), 2),
        (true, 7, Err(Report::new(12, 5, 7)), 2),
        // Where there is no such event, a reinstatement would meet 13 too.
        (false, 7, Err(Report::new(12, 5, 7)), 2),
        (false, 1_024, Err(Report::new(12, 5, 1_024)), 2),
        (false, 6, Ok(()), 1),
        (false, 6, Err(Report::new(13, 5, 6)), 1),
        (false, 0, Ok(()), 0),
    ];
    let mut post = Post::put_up(worked_day()?);
    for (withdraws, event, meets, tally) in table {
        let answer = if withdraws {
            post.withdraw(event)
        } else {
            post.reinstate(event)
        };
        assert_eq!(rt; answer.map_err(Report::from), meets);
        assert_eq!(rt; post.tally(), tally);
    }
    Ok(())
}

#[test]
fn refused_queries(rt: HostRuntime) -> Result<(), Fail> {
    // A query, the lengths of log, board, queue and step table, and the number of the first fault.
    let table = [
        (from_to(1, 1, 200, 199), [14, 512, 14, 7], 14),
        (from_to(1, 3, 999_999, 1_000_000), [14, 512, 14, 7], 15),
        (from_to(1, 3, 200, 199), [13, 512, 14, 7], 15),
        (from_to(1, 3, 200, 199), [14, 511, 14, 7], 15),
        (from_to(1, 3, 200, 199), [14, 512, 13, 7], 15),
        (from_to(1, 3, 100, 200), [13, 512, 14, 6], 16),
        (from_to(1, 3, 100, 200), [14, 511, 14, 6], 16),
        (from_to(1, 3, 100, 200), [14, 512, 13, 6], 16),
        // No journey goes from 3 to 1.
        (from_to(3, 1, 100, 200), [14, 512, 14, 6], 17),
    ];
    let mut source = worked_day()?;
    assert!(rt; source.next().is_some());
    let mut post = Post::put_up(source);
    post.withdraw(0)?;
    for (query, lengths, number) in table {
        let mut tables = spoilt_tables(rt.alloc(), lengths)?;
        assert_eq!(rt;
            ask(&mut post, E, query, &mut tables),
            Err(Report::new(number, 6, 0))
        );
        assert!(rt; are_spoilt(&tables));
    }
    assert_eq!(rt; post.tally(), 1);
    assert_eq!(rt; place_of(&mut post.take_down()), 1);
    Ok(())
}

// How many events were read for a journey.
fn reads_of(answer: Result<Answer, Report>) -> Result<usize, Report> {
    Ok(answer?.reads)
}

fn check_windows(rt: &impl Abort, post: &mut Post<RecordSource>, tables: &mut HeapTables<u32>) {
    // The stop to reach, open and close, the reads, and the journey from stop 1.
    let table: [(u8, u32, u32, Result<usize, Report>, &[usize]); 9] = [
        (3, 110, 155, Ok(7), &[2, 4]),
        (3, 111, 155, Err(Report::new(18, 6, 0)), &[]),
        (3, 110, 154, Err(Report::new(18, 6, 0)), &[]),
        (2, 100, 124, Ok(4), &[0]),
        (2, 101, 125, Ok(6), &[2]),
        (2, 101, 147, Ok(6), &[2]),
        (2, 101, 148, Ok(7), &[2]),
        (3, 100, 170, Ok(7), &[2, 4]),
        (3, 100, 104, Err(Report::new(18, 6, 0)), &[]),
    ];
    for (to, open, close, reads, journey) in table {
        tables.steps.fill(NONSENSE);
        let answer = ask(post, E, from_to(1, to, open, close), tables);
        assert_eq!(rt; reads_of(answer), reads);
        check_named(rt, tables, journey);
    }
}

// The events that are withdrawn are those at which reading ends.
#[test]
fn windows_and_reads(rt: HostRuntime) -> Result<(), Fail> {
    let mut tables = spoilt_tables(rt.alloc(), [14, 512, 14, 7])?;
    let mut post = Post::put_up(worked_day()?);
    check_windows(&rt, &mut post, &mut tables);
    for event in [1, 3, 5, 6] {
        post.withdraw(event)?;
    }
    check_windows(&rt, &mut post, &mut tables);
    assert_eq!(rt; place_of(&mut post.take_down()), 2);
    Ok(())
}

// Nothing fits on no event, in tables without a slot but for the board.
fn check_nothing_fits<S: Source + Drop>(
    rt: &impl Abort,
    heap: Global,
    source: S,
) -> Result<(), Fail> {
    let mut tables = spoilt_tables(heap, [0, 512, 0, 0])?;
    let mut post = Post::put_up(source);
    assert_eq!(rt;
        post.withdraw(0).map_err(Report::from),
        Err(Report::new(12, 5, 0))
    );
    assert_eq!(rt; post.tally(), 0);
    let answer = ask(&mut post, E, from_to(1, 3, 0, 999_999), &mut tables);
    assert_eq!(rt; answer, Err(Report::new(18, 6, 0)));
    assert_eq!(rt; place_of(&mut post.take_down()), 0);
    Ok(())
}

#[test]
fn empty_sources(rt: HostRuntime) -> Result<(), Fail> {
    check_nothing_fits(&rt, rt.alloc(), RecordSource::open(&[])?)?;
    check_nothing_fits(&rt, rt.alloc(), LineSource::open(&[])?)
}
