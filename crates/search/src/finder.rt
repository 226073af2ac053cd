//! The search: the best journey over any source, under any measure.
ghost use Rattle.std.specs.Prelude.{◌≡◌, length, Some, MatchResult, OnErr};
ghost use Rattle.std.specs.Option.{option_map};
ghost use Rattle.faults.specs.Rules.{IsKept, first_fault};
ghost use Rattle.journeys.specs.Marks.{is_in_force};
ghost use Rattle.search.specs.Lengths.{IsLongEnough, table_rules};
ghost use Rattle.search.specs.Readings.{IsReadTo, Travels, answer_for};
ghost use Rattle.search.specs.Searches.{FindsBest, reads_of};
ghost use Rattle.search.specs.Tables.{SameTables, lengths};

use crate::asked::CheckedQuery;
use crate::carried::{Carried, Carrying};
use crate::lead::lowest;
use crate::read::read_up;
use crate::tables::Tables;
use crate::trace::trace_back;
use faults::Fault;
use journeys::{Answer, Verdict};
use measures::Measure;
use scans::Stage;
use sources::Source;

// The last label and the end of a journey, how many steps it has, and how many events were read for it.
#[derive(Clone, Copy)]
struct Arrived<L> {
    label: L,
    end: u32,
    steps: usize,
    reads: usize,
}

// Reads the source and finds a journey with the lowest score. Its caller has tested that the tables are long enough
// (`IsLongEnough`). Source, marks and query are three parameters and no struct: the first two are borrowed from two fields of a
// post and the query from whoever asks, so that a struct of borrows would be made here only to be taken apart in the function
// below.
fn travel<S: Source, M: Measure>(
    source: &mut S,
    marks: &[bool],
    query: CheckedQuery,
    tables: &mut Tables<'_, M::Label>,
) -> Option<Arrived<M::Label>>
    requires { IsLongEnough (length (S.events source.old)) (lengths tables.old) }
    ensures travelled { let es = S.events source.old in let p = is_in_force marks.now in
        Travels M.ops es p query tables.old.steps.now result tables.new.steps.now }
    ensures source { let es = S.events source.old in
        let reads = reads_of es query.close in
        IsReadTo es query.close reads (S.events source.new) (S.place source.new) }
    ensures same { SameTables tables.old tables.new }
{
    let asked = query.query();
    let reach = read_up::<S, M>(source, marks, asked, tables);
    let log = &mut *tables.log;
    let leader = lowest::<M>(log, asked, reach.taken)?;
    let last = Stage {
        event: leader.event,
        called: asked.call,
    };
    Some(Arrived {
        label: leader.entry.label,
        end: leader.entry.end,
        steps: trace_back(log, tables.steps, last),
        reads: reach.reads,
    })
}

// The answer for a journey that was found: its score, begin, end, riding and rides, its number of steps, and the reads.
fn answer<M: Measure>(arrived: Arrived<Carried<M::Label>>) -> Answer
    ensures { result ≡ answer_for M.ops arrived }
{
    let Carried {
        label,
        begin,
        riding,
        rides,
    } = arrived.label;
    Answer {
        verdict: Verdict {
            begin,
            end: arrived.end,
            riding,
            rides: rides as usize,
            score: M::settle(label, arrived.end),
        },
        steps: arrived.steps,
        reads: arrived.reads,
    }
}

// The same, if a journey was found.
fn answer_if_any<M: Measure>(arrived: Option<Arrived<Carried<M::Label>>>) -> Option<Answer>
    ensures { result ≡ option_map (answer_for M.ops) arrived }
{
    arrived.map(|arrived| answer::<M>(arrived))
}

/// Finds the best journey for a query over the events that the marks leave in force, and writes its
/// event numbers into the front of the step table; none where no journey fits.
///
/// # Errors
///
/// Fault 16 where a work table is too short for the source's events, and 17 where the step table is;
/// the source and the tables are then as they were.
pub fn search<S: Source, M: Measure>(
    source: &mut S,
    marks: &[bool],
    query: CheckedQuery,
    tables: &mut Tables<'_, Carried<M::Label>>,
) -> Result<Option<Answer>, Fault>
    ensures found { let es = S.events source.old in
        let rules = table_rules (length es) (lengths tables.old) in
        let p = is_in_force marks.now in
        let steps = tables.old.steps.now in
        let steps' = tables.new.steps.now in
        MatchResult result
        (λ o. IsKept rules × FindsBest M.ops es p query steps o steps')
        (λ f. first_fault rules ≡ Some f) }
    ensures read { let es = S.events source.old in
        MatchResult result
        (λ _. (S.events source.new ≡ es) × (S.place source.new ≡ reads_of es query.close))
        (λ _. source.new ≡ source.old) }
    ensures refused { OnErr result (tables.new ≡ tables.old) }
    ensures same { SameTables tables.old tables.new }
{
    tables.check(source.size())?;
    let arrived = travel::<S, Carrying<M>>(source, marks, query, tables);
    Ok(answer_if_any::<M>(arrived))
}
