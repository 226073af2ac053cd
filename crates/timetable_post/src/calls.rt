//! The calls of a post.
ghost use Rattle.std.specs.Prelude.{◌≡◌, []};
ghost use Rattle.search.specs.Tables.{SameTables};
ghost use Rattle.timetable_post.specs.Calls.{notice_call, notice_of, reinstatement, tally_call, withdrawal};
ghost use Rattle.timetable_post.specs.Histories.{Continues, Explains};
ghost use Rattle.timetable_post.specs.Posts.{Performs, new_post};
ghost use Rattle.timetable_post.specs.Queries.{Queries, call_of, query_state};

use crate::ask::ask;
use crate::marks::{count_set, new_marks};
use faults::Fault;
use journeys::{Answer, Query};
use measures::Measure;
use records::MOST_EVENTS;
use search::{Carried, Tables};
use sources::Source;
use std::marker::Model;

/// A source, and a mark for each event that is out of force. The marks are apart from the source, since events have
/// none, and a source goes back to its owner without them.
#[derive(Drop)]
pub struct Post<S: Source + Drop> {
    source: S,
    marks: [bool; MOST_EVENTS],
}

impl<S: Source + Drop> Model for Post<S> {
    ghost use Rattle.std.specs.Prelude.{◌≡◌, length};
    ghost use Rattle.records.specs.Limits.{most_events};
    ghost use Rattle.timetable_post.specs.Posts.{PostState, post_state};

    ghost Value = { PostState };

    ghost view = { λ p. post_state (S.events p.source) (S.place p.source) p.marks };

    ghost invariant = { λ p. length p.marks ≡ most_events };
}

impl<S: Source + Drop> Post<S> {
    /// Puts a post up over a source at any place; every event is in force then.
    pub fn put_up(source: S) -> Post<S>
        ensures new { result ≡ new_post (S.events source) (S.place source) }
        ensures history { Explains [] result }
    {
        Post {
            source,
            marks: new_marks(),
        }
    }

    /// Takes the post down and gives its source back.
    pub fn take_down(self) -> S
        ensures list { S.events result ≡ self.events }
        ensures place { S.place result ≡ self.place }
    {
        let Post { source, .. } = self;
        source
    }

    // Sets or takes away the mark of an event, which is what tells a withdrawal from a reinstatement; refuses where there is
    // no such event, and where the mark is so already.
    fn note(&mut self, event: usize, out: bool) -> Result<(), Fault>
        ensures performs { Performs self.old (notice_call (notice_of out) event result) self.new }
        ensures history { Continues self.old (notice_call (notice_of out) event result) self.new }
    {
        if event >= self.source.size() {
            return Err(Fault::UnknownEvent { place: event });
        }
        if self.marks[event] == out {
            return Err(Fault::NoticeWithoutEffect { place: event });
        }
        self.marks[event] = out;
        Ok(())
    }

    /// Puts an event out of force.
    ///
    /// # Errors
    ///
    /// 12 where there is no such event, and 13 where it is out of force.
    pub fn withdraw(&mut self, event: usize) -> Result<(), Fault>
        ensures performs { Performs self.old (notice_call withdrawal event result) self.new }
        ensures history { Continues self.old (notice_call withdrawal event result) self.new }
    {
        self.note(event, true)
    }

    /// Puts an event back in force.
    ///
    /// # Errors
    ///
    /// 12 where there is no such event, and 13 where it is in force.
    pub fn reinstate(&mut self, event: usize) -> Result<(), Fault>
        ensures performs { Performs self.old (notice_call reinstatement event result) self.new }
        ensures history { Continues self.old (notice_call reinstatement event result) self.new }
    {
        self.note(event, false)
    }

    /// How many events are out of force.
    pub fn tally(&self) -> usize
        ensures performs { Performs self.now (tally_call result) self.now }
        ensures history { Continues self.now (tally_call result) self.now }
    {
        count_set(&self.marks)
    }

    /// Names the best journey for a query on the events in force, and writes its event numbers into the front of the step
    /// table.
    ///
    /// # Errors
    ///
    /// 14 where the stops are equal, 15 where the window is none, 16 where a work table is too short, 17 where the step table
    /// is, and 18 where no journey fits.
    pub fn query<M: Measure>(
        &mut self,
        query: Query,
        tables: &mut Tables<'_, Carried<M::Label>>,
    ) -> Result<Answer, Fault>
        ensures queries { let b = query_state self.old tables.old in
            Queries M.ops query b result (query_state self.new tables.new) }
        ensures history { let call = call_of M.ops query (query_state self.old tables.old) in
            Continues self.old (call result tables.new.steps.now) self.new }
        ensures same { SameTables tables.old tables.new }
    {
        ask::<S, M>(&mut self.source, &self.marks, query, tables)
    }
}
