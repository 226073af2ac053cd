//! The tables of a search on the heap, for programs and tests that have one.
#![tactic(auto)]

ghost use Rattle.std.specs.Prelude.{◌≡◌, length, replicate, Some, IfOk, MatchResult, OnErr};
ghost use Rattle.faults.specs.Rules.{IsKept, first_fault};
ghost use Rattle.journeys.specs.Marks.{is_in_force};
ghost use Rattle.search.specs.Lengths.{lengths_in, table_rules};
ghost use Rattle.search.specs.Searches.{FindsBest, reads_of};
ghost use Rattle.heap_tables.specs.Filling.{IsFilled, lengths_for};
ghost use Rattle.heap_tables.specs.Searching.{SameLengths, SameSlots, rules_for};

mod facts;

pub use facts::{clone_is_identity, defaults_are_empty, equality_is_identity};
use faults::Fault;
use journeys::Answer;
use measures::Measure;
use scans::{Arrival, Entry, Incumbent};
use search::{BOARD_SLOTS, Carried, CheckedQuery, Tables, search};
use sources::Source;
use std::alloc::{AllocError, Global};

/// How many slots each of the tables has.
#[derive(Clone, Copy, PartialEq, Eq, Debug)]
pub struct Lengths {
    pub log: usize,
    pub board: usize,
    pub queue: usize,
    pub steps: usize,
}

impl Lengths {
    /// The least that a search over so many events takes; no table is longer than the largest
    /// number.
    pub fn for_events(events: usize) -> Lengths
        ensures { result ≡ lengths_for events }
    {
        let slots = events.saturating_mul(2);
        Lengths {
            log: slots,
            board: BOARD_SLOTS,
            queue: slots,
            steps: events,
        }
    }
}

/// What new tables have in their slots; by default nothing, or noughts.
#[derive(Clone, Copy, Default)]
pub struct Slots<L> {
    pub entry: Option<Entry<Carried<L>>>,
    pub incumbent: Option<Incumbent<Carried<L>>>,
    pub arrival: Arrival,
    pub step: usize,
}

// A table with the same in each slot.
fn table_of<T: Copy>(heap: Global, slots: usize, value: T) -> Result<Vec<T>, AllocError>
    ensures { IfOk result (λ table. table.items ≡ replicate slots value) }
{
    let mut table = Vec::new(heap);
    table.resize(slots, value)?;
    Ok(table)
}

// Searches in four slices, which are lent for the search alone, one by one, since nothing tells
// what vectors hold once a struct was lent them.
fn search_in<S: Source, M: Measure>(
    source: &mut S,
    marks: &[bool],
    query: CheckedQuery,
    log: &mut [Option<Entry<Carried<M::Label>>>],
    board: &mut [Option<Incumbent<Carried<M::Label>>>],
    queue: &mut [Arrival],
    steps: &mut [usize],
) -> Result<Option<Answer>, Fault>
    ensures found { let es = S.events source.old in
        let rules = table_rules (length es) (lengths_in log.old board.old queue.old steps.old) in
        MatchResult result
        (λ o. IsKept rules × FindsBest M.ops es (is_in_force marks.now) query steps.old o steps.new)
        (λ f. first_fault rules ≡ Some f) }
    ensures read { let es = S.events source.old in
        MatchResult result
        (λ _. (S.events source.new ≡ es) × (S.place source.new ≡ reads_of es query.close))
        (λ _. source.new ≡ source.old) }
    ensures log { OnErr result (log.new ≡ log.old) }
    ensures board { OnErr result (board.new ≡ board.old) }
    ensures queue { OnErr result (queue.new ≡ queue.old) }
    ensures steps { OnErr result (steps.new ≡ steps.old) }
{
    let mut lent = Tables {
        log,
        board,
        queue,
        steps,
    };
    let answer = search::<S, M>(source, marks, query, &mut lent);
    lent.give_back();
    answer
}

/// A log of entries, a board of who is ready where, a queue of awaited arrivals, and a table of steps.
#[derive(Drop)]
pub struct HeapTables<L> {
    pub log: Vec<Option<Entry<Carried<L>>>>,
    pub board: Vec<Option<Incumbent<Carried<L>>>>,
    pub queue: Vec<Arrival>,
    pub steps: Vec<usize>,
}

impl<L: Copy> HeapTables<L> {
    /// Tables of these lengths, with the same in each slot.
    pub fn new(heap: Global, lengths: Lengths, slots: Slots<L>) -> Result<HeapTables<L>, AllocError>
        ensures { IfOk result (λ t. IsFilled lengths slots t) }
    {
        Ok(HeapTables {
            log: table_of(heap, lengths.log, slots.entry)?,
            board: table_of(heap, lengths.board, slots.incumbent)?,
            queue: table_of(heap, lengths.queue, slots.arrival)?,
            steps: table_of(heap, lengths.steps, slots.step)?,
        })
    }

    /// Searches in these tables: finds the best journey for a query over the events that the marks
    /// leave in force, and writes its event numbers into the front of the step table; none where no
    /// journey fits, and then the step table is as it was.
    ///
    /// # Errors
    ///
    /// Fault 16 where a work table is too short for the source's events, and 17 where the step
    /// table is; the source and the tables are then as they were.
    pub fn search<S: Source, M: Measure<Label = L>>(
        &mut self,
        source: &mut S,
        marks: &[bool],
        query: CheckedQuery,
    ) -> Result<Option<Answer>, Fault>
        ensures found { let es = S.events source.old in
            let rules = rules_for es self.old in
            let steps = self.old.steps.items in
            let steps' = self.new.steps.items in
            MatchResult result
            (λ o. IsKept rules × FindsBest M.ops es (is_in_force marks.now) query steps o steps')
            (λ f. first_fault rules ≡ Some f) }
        ensures read { let es = S.events source.old in
            MatchResult result
            (λ _. (S.events source.new ≡ es) × (S.place source.new ≡ reads_of es query.close))
            (λ _. source.new ≡ source.old) }
        ensures refused { OnErr result (SameSlots self.old self.new) }
        ensures lengths { SameLengths self.old self.new }
    {
        search_in::<S, M>(
            source,
            marks,
            query,
            &mut self.log,
            &mut self.board,
            &mut self.queue,
            &mut self.steps,
        )
    }
}

#[cfg(test)]
mod tests {
    use super::*;
    use journeys::Query;
    use measures::EarliestArrival;
    use records::{Event, write};
    use sources::RecordSource;
    use std::test::Fail;

    // The only ride, in force and out of it, in a step table that is longer than it needs to be.
    #[test]
    fn searched_in_place(rt: HostRuntime) -> Result<(), Fail> {
        let ride = Event::ride(1, 2, 110, 20);
        let mut source = RecordSource::open(&write(ride)?)?;
        let query = CheckedQuery::new(Query {
            from: 1,
            to: 2,
            open: 100,
            close: 200,
            call: false,
        })?;
        let slots = Slots::<u32> {
            step: 9,
            ..Slots::default()
        };
        let mut tables = HeapTables::new(rt.alloc(), Lengths::for_events(3), slots)?;
        let none = tables.search::<RecordSource, EarliestArrival>(&mut source, &[true], query);
        assert_eq!(rt; none, Ok(None));
        assert_eq!(rt; tables.steps.as_slice(), [9, 9, 9].as_slice());
        let found = tables.search::<RecordSource, EarliestArrival>(&mut source, &[], query);
        assert!(rt; found.is_ok_and(|answer| answer.is_some()));
        assert_eq!(rt; tables.steps.as_slice(), [0, 9, 9].as_slice());
        assert_eq!(rt; tables.board.len(), 512);
        Ok(())
    }
}
