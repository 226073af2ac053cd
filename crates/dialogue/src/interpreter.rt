//! What a post does on a line.
ghost use Rattle.std.specs.Prelude.{◌≡◌, ◌≤◌, length};
ghost use Rattle.records.specs.Limits.{longest_line};
ghost use Rattle.measures.specs.Criteria.{ops};
ghost use Rattle.timetable_post.specs.Histories.{Continues};
ghost use Rattle.timetable_post.specs.Queries.{Queries, call_of};
ghost use Rattle.dialogue.specs.Obeying.{Interprets, Obeys, Responds, number_part, query_reply, session, trip_part};
ghost use Rattle.dialogue.specs.Tables.{SamePostTables};
ghost use Rattle.replies.specs.Printed.{reply_line};
ghost use Rattle.texts.specs.Pushing.{IsOverFront};

use crate::tables::PostTables;
use commands::{Command, parse};
use faults::Fault;
use journeys::{Answer, Query, measures_are_plain, walks_are_journeys};
use measures::{
    Criterion, EarliestArrival, Fastest, FewestRides, LatestDeparture, LeastRiding, LeastWaiting,
    Measure,
};
use replies::{LONGEST_LINE, Reply, write};
use search::Tables;
use sources::Source;
use timetable_post::Post;

// Queries the post under a measure whose labels are numbers, in the tables for these. Beside the like for trips: what they
// share is the call.
fn ask_by_number<S: Source + Drop, M: Measure<Label = u32>>(
    post: &mut Post<S>,
    query: Query,
    tables: &mut PostTables<'_>,
) -> Result<Answer, Fault>
    ensures queries { let b = number_part (session post.old tables.old) in
        let a = number_part (session post.new tables.new) in
        Queries M.ops query b result a }
    ensures history { let b = number_part (session post.old tables.old) in
        Continues post.old (call_of M.ops query b result tables.new.steps.now) post.new }
    ensures trips { (tables.new.trip_log.now ≡ tables.old.trip_log.now)
        × (tables.new.trip_board.now ≡ tables.old.trip_board.now) }
    ensures same { SamePostTables tables.old tables.new }
{
    let mut lent = Tables {
        log: tables.log,
        board: tables.board,
        queue: tables.queue,
        steps: tables.steps,
    };
    post.query::<M>(query, &mut lent)
}

// Queries the post under the measure whose labels are trips, in the tables for these.
fn ask_by_trip<S: Source + Drop>(
    post: &mut Post<S>,
    query: Query,
    tables: &mut PostTables<'_>,
) -> Result<Answer, Fault>
    ensures queries { let b = trip_part (session post.old tables.old) in
        let a = trip_part (session post.new tables.new) in
        Queries (ops Criterion.Fastest) query b result a }
    ensures history { let b = trip_part (session post.old tables.old) in
        let call = call_of (ops Criterion.Fastest) query b in
        Continues post.old (call result tables.new.steps.now) post.new }
    ensures numbers { (tables.new.log.now ≡ tables.old.log.now)
        × (tables.new.board.now ≡ tables.old.board.now) }
    ensures same { SamePostTables tables.old tables.new }
{
    let mut lent = Tables {
        log: tables.trip_log,
        board: tables.trip_board,
        queue: tables.queue,
        steps: tables.steps,
    };
    post.query::<Fastest>(query, &mut lent)
}

// Queries the post under the measure of a criterion. The measures are types with labels of their own, which no `dyn` holds.
fn find<S: Source + Drop>(
    post: &mut Post<S>,
    criterion: Criterion,
    query: Query,
    tables: &mut PostTables<'_>,
) -> Result<Answer, Fault>
    ensures obeys { let b = session post.old tables.old in
        let a = session post.new tables.new in
        Obeys b (Command.Find criterion query) (query_reply result) a }
    ensures same { SamePostTables tables.old tables.new }
{
    measures_are_plain();
    walks_are_journeys();
    match criterion {
        Criterion::EarliestArrival => ask_by_number::<S, EarliestArrival>(post, query, tables),
        Criterion::LatestDeparture => ask_by_number::<S, LatestDeparture>(post, query, tables),
        Criterion::Fastest => ask_by_trip(post, query, tables),
        Criterion::LeastRiding => ask_by_number::<S, LeastRiding>(post, query, tables),
        Criterion::FewestRides => ask_by_number::<S, FewestRides>(post, query, tables),
        Criterion::LeastWaiting => ask_by_number::<S, LeastWaiting>(post, query, tables),
    }
}

// Does what a command says. Post and tables are two parameters, since the post has an owner and the tables are lent for a time.
fn obey<S: Source + Drop>(
    post: &mut Post<S>,
    command: Command,
    tables: &mut PostTables<'_>,
) -> Result<Reply, Fault>
    ensures obeys { let b = session post.old tables.old in
        Obeys b command result (session post.new tables.new) }
    ensures same { SamePostTables tables.old tables.new }
{
    match command {
        Command::Withdraw { event } => post.withdraw(event as usize).map(|()| Reply::Accepted),
        Command::Reinstate { event } => post.reinstate(event as usize).map(|()| Reply::Accepted),
        Command::Tally => Ok(Reply::Count(post.tally())),
        Command::Find { criterion, query } => {
            find(post, criterion, query, tables).map(|answer| Reply::Journey(answer))
        }
    }
}

/// Answers a line: the command that it spells is obeyed. The line of every reply has 8,192 bytes at most.
///
/// # Errors
/// 11 where the line spells no command; or the fault that the call of the command answers.
pub fn answer<S: Source + Drop>(
    post: &mut Post<S>,
    line: &[u8],
    tables: &mut PostTables<'_>,
) -> Result<Reply, Fault>
    ensures interprets { let b = session post.old tables.old in
        Interprets b line.now result (session post.new tables.new) }
    ensures same { SamePostTables tables.old tables.new }
{
    obey(post, parse(line)?, tables)
}

/// Answers a line, and writes the line of the reply to the front of `out`; tells how many bytes it has. There is room for
/// every reply, so that nothing is obeyed without being answered.
pub fn respond<S: Source + Drop>(
    post: &mut Post<S>,
    line: &[u8],
    tables: &mut PostTables<'_>,
    out: &mut [u8; LONGEST_LINE],
) -> usize
    ensures responds { let b = session post.old tables.old in
        let a = session post.new tables.new in
        Responds b line.now out.old result a out.new }
    ensures same { SamePostTables tables.old tables.new }
{
    let reply = answer(post, line, tables);
    write_line(reply, tables, out)
}

// Writes the line of a reply, which is not too long, to the front of `out`, with the steps that the tables have.
fn write_line(
    reply: Result<Reply, Fault>,
    tables: &PostTables<'_>,
    out: &mut [u8; LONGEST_LINE],
) -> usize
    requires { length (reply_line reply tables.now.steps.now) ≤ longest_line }
    ensures { IsOverFront (reply_line reply tables.now.steps.now) out.old result out.new }
{
    write(reply, tables.steps, out).unwrap_or(0)
}
