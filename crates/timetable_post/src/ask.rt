//! Answering a query over a source and marks that are lent.
ghost use Rattle.std.specs.Prelude.{◌≡◌, length};
ghost use Rattle.records.specs.Limits.{most_events};
ghost use Rattle.search.specs.Tables.{SameTables};
ghost use Rattle.timetable_post.specs.Histories.{Continues};
ghost use Rattle.timetable_post.specs.Posts.{post_state};
ghost use Rattle.timetable_post.specs.Queries.{Queries, call_of, query_state};

use faults::Fault;
use journeys::{Answer, Query};
use measures::Measure;
use search::{Carried, CheckedQuery, Tables, search};
use sources::Source;

// Checks the query and the tables, and names the best journey on the events that the marks leave in force.
pub(crate) fn ask<S: Source, M: Measure>(
    source: &mut S,
    marks: &[bool],
    query: Query,
    tables: &mut Tables<'_, Carried<M::Label>>,
) -> Result<Answer, Fault>
    requires { length marks.now ≡ most_events }
    ensures queries { let post = post_state (S.events source.old) (S.place source.old) marks.now in
        let after = post_state (S.events source.new) (S.place source.new) marks.now in
        Queries M.ops query (query_state post tables.old) result (query_state after tables.new) }
    ensures history { let post = post_state (S.events source.old) (S.place source.old) marks.now in
        let after = post_state (S.events source.new) (S.place source.new) marks.now in
        let call = call_of M.ops query (query_state post tables.old) in
        Continues post (call result tables.new.steps.now) after }
    ensures same { SameTables tables.old tables.new }
{
    let checked = CheckedQuery::new(query)?;
    let found = search::<S, M>(source, marks, checked, tables)?;
    found.ok_or(Fault::NoJourney)
}
