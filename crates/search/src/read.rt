//! Reading a source, event by event, up to the close of a query.
ghost use Rattle.std.specs.Prelude.{◌≡◌, ◌*◌, ◌≤◌, length, nat_lt};
ghost use Rattle.records.specs.Events.{time_of};
ghost use Rattle.records.specs.Limits.{board_slots};
ghost use Rattle.journeys.specs.Marks.{is_in_force};
ghost use Rattle.scans.specs.Tables.{SameWork};
ghost use Rattle.search.specs.Lengths.{IsLongEnough};
ghost use Rattle.search.specs.Readings.{IsCleared, IsReadTo, IsRightLog};
ghost use Rattle.search.specs.Tables.{SameTables, lengths};

use crate::tables::Tables;
use journeys::{Query, is_in_force};
use measures::Measure;
use records::Event;
use scans::Work;
use sources::Source;

// How far a reading came: how many events there are up to the close, which is how many were taken, and how many were read, one
// more where a later event ended the reading.
#[derive(Clone, Copy)]
pub(crate) struct Reach {
    pub taken: u16,
    pub reads: usize,
}

// Empties every slot of a table.
fn clear<T: Copy>(table: &mut [Option<T>])
    ensures { IsCleared table.new }
{
    table.fill(None);
}

// Whether an event is later than a minute.
fn is_later(event: Event, minute: u32) -> bool
    ensures { result ≡ nat_lt minute (time_of event) }
{
    event.time() > minute
}

// Reads a source from its start, takes each event up to the query's close, and tells how far it came. Source, marks and query
// are three parameters, as for the whole search. How long each table is at least is spelled out, since `Work` has no step table.
// Not inlined: each source and measure has a loop of its own, and no search waits for the registers of another.
#[inline(never)]
fn read_on<S: Source, M: Measure>(
    source: &mut S,
    marks: &[bool],
    query: Query,
    work: &mut Work<'_, M::Label>,
) -> Reach
    requires no_entry { IsCleared work.old.log.now }
    requires no_one { IsCleared work.old.board.now }
    requires none_awaited { work.old.used ≡ 0 }
    requires log { length (S.events source.old) * 2 ≤ length work.old.log.now }
    requires board { board_slots ≤ length work.old.board.now }
    requires queue { length (S.events source.old) * 2 ≤ length work.old.queue.now }
    ensures source { let es = S.events source.old in
        IsReadTo es query.close result.reads (S.events source.new) (S.place source.new) }
    ensures log { let es = S.events source.old in let p = is_in_force marks.now in
        IsRightLog M.ops es p query result.taken work.new.log.now }
    ensures same { SameWork work.old work.new }
{
    source.rewind();
    // A source is no iterator, and every read is a call on it. So the number is counted here.
    let mut number: u16 = 0;
    while let Some(event) = source.next() {
        if is_later(event, query.close) {
            return Reach {
                taken: number,
                reads: usize::from(number) + 1,
            };
        }
        let in_force = is_in_force(marks, usize::from(number));
        // Not refused, since there is room for every event of the source.
        let _ = work.scan::<M>(query, number, event, in_force);
        number += 1;
    }
    Reach {
        taken: number,
        reads: usize::from(number),
    }
}

// Reads a source up to the query's close, and tells how far it came. The caller has tested that the tables are long enough.
// Source, marks and query are three parameters, as for the whole search.
pub(crate) fn read_up<S: Source, M: Measure>(
    source: &mut S,
    marks: &[bool],
    query: Query,
    tables: &mut Tables<'_, M::Label>,
) -> Reach
    requires { IsLongEnough (length (S.events source.old)) (lengths tables.old) }
    ensures source { let es = S.events source.old in
        IsReadTo es query.close result.reads (S.events source.new) (S.place source.new) }
    ensures log { let es = S.events source.old in let p = is_in_force marks.now in
        IsRightLog M.ops es p query result.taken tables.new.log.now }
    ensures steps { tables.new.steps.now ≡ tables.old.steps.now }
    ensures same { SameTables tables.old tables.new }
{
    clear(tables.log);
    clear(tables.board);
    let mut work = Work {
        log: tables.log,
        board: tables.board,
        queue: tables.queue,
        used: 0,
    };
    read_on::<S, M>(source, marks, query, &mut work)
}
