//! A search under one measure, whose answer is held against the judge before it is told.
ghost use Rattle.std.specs.Prelude.{◌≡◌, ◌↔◌, IsTrue, MatchResult, Some, codes};
ghost use Rattle.faults.specs.declared.Fault.{Fault};
ghost use Rattle.faults.specs.Rules.{IsKept, first_fault};
ghost use Rattle.heap_tables.specs.Searching.{rules_for};
ghost use Rattle.journeys.specs.Marks.{is_in_force};
ghost use Rattle.trial_search.specs.Holding.{Holds, IsBestIfAny};
ghost use Rattle.trial_search.specs.Shown.{score_text};

use crate::day::reads;
use heap_tables::HeapTables;
use journeys::{Answer, judge};
use measures::Measure;
use scripts::Day;
use search::CheckedQuery;
use sources::{RecordSource, Source};
use std::fmt;
use test_filling::{NONSENSE, is_nonsense_behind};

// An answer that does not hold.
#[derive(Clone, Copy)]
pub(crate) struct Wrong;

// The lowest score, of a journey that was named, if any fits.
#[derive(Clone, Copy)]
pub(crate) struct Found(Option<(i64, i64)>);

impl fmt::Display for Found {
    ghost output = { λ found. Some (score_text found.0) };

    fn fmt<W: fmt::Write>(&self, f: &mut fmt::Formatter<W>) -> fmt::Result {
        match self.0 {
            Some((first, second)) => write!(f, "{first};{second}"),
            None => write!(f, "none"),
        }
    }
}

impl fmt::Display for Wrong {
    ghost output = { λ _. Some (codes "wrong") };

    fn fmt<W: fmt::Write>(&self, f: &mut fmt::Formatter<W>) -> fmt::Result {
        write!(f, "wrong")
    }
}

// What is found prints as its words, and so does an answer that does not hold.
pub(crate) fn displays_are_words()
    ensures found { (f : Found) → ⟦<Found as fmt::Display>⟧.output f ≡ Some (score_text f.0) }
    ensures wrong { (w : Wrong) → ⟦<Wrong as fmt::Display>⟧.output w ≡ Some (codes "wrong") }
{}

// Whether an answer names a journey that is judged to be what the answer says, and tells the reads that are due.
fn holds<M: Measure>(day: &Day, query: CheckedQuery, answer: Answer, steps: &[usize]) -> bool
    ensures { let es = day.now.events.items in let p = is_in_force day.now.marks.items in
        IsTrue result ↔ Holds M.ops es p query answer steps.now }
{
    let judged = judge::<M>(
        &day.events,
        &day.marks,
        query.query(),
        answer.named_steps(steps),
    );
    judged == Some(answer.verdict)
        && answer.steps <= steps.len()
        && answer.reads == reads(day, query.query().close)
        && is_nonsense_behind(steps, answer.steps)
}

// Searches a day's source under a measure, in tables that are full of rubbish. Of a source of the
// day's own events no answer is wrong unless a table is too short.
pub(crate) fn best<M: Measure>(
    day: &Day,
    source: &mut RecordSource,
    query: CheckedQuery,
    tables: &mut HeapTables<M::Label>,
) -> Result<Found, Wrong>
    ensures best { let es = day.now.events.items in let p = is_in_force day.now.marks.items in
        let rules = rules_for es tables.old in
        ⟦<RecordSource as Source>⟧.events source.old ≡ es →
        MatchResult result
        (λ found. IsKept rules × IsBestIfAny M.ops es p query found.0)
        (λ _. (fault : Fault) × (first_fault rules ≡ Some fault)) }
    ensures source { let events = ⟦<RecordSource as Source>⟧.events in
        events source.new ≡ events source.old }
{
    tables.steps.fill(NONSENSE);
    match tables.search::<RecordSource, M>(source, &day.marks, query) {
        Ok(Some(answer)) if holds::<M>(day, query, answer, &tables.steps) => {
            Ok(Found(Some(answer.verdict.score)))
        }
        Ok(None) if is_nonsense_behind(&tables.steps, 0) => Ok(Found(None)),
        _ => Err(Wrong),
    }
}
