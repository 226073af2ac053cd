//! A reply, or why there is none, as a line of bytes.
ghost use Rattle.std.specs.Prelude.{◌≡◌, ◌≤◌, [], ◌∷◌, ◌++◌, length, codes, IfErr};
ghost use Rattle.faults.specs.Numbered.{report_of, report_text};
ghost use Rattle.records.specs.Limits.{longest_line};
ghost use Rattle.texts.specs.Pushing.{CopiesOut, Pushes};
ghost use Rattle.replies.specs.Printed.{numbers, reply_line, journey_words};

use crate::reply::Reply;
use arrayvec::{ArrayString, CapacityError};
use faults::{Fault, Report};
use journeys::{Answer, Verdict};
use texts::{copy_out, push, push_number, push_spaced};

/// The most bytes of a line: a journey of 1,024 events has fewer.
pub const LONGEST_LINE: usize = 8_192;

// A line in which a reply is put together.
type Line = ArrayString<LONGEST_LINE>;

// Puts each of the numbers with a space before it behind the text of a line.
fn push_numbers(line: &mut Line, values: &[usize]) -> Result<(), CapacityError>
    ensures { Pushes longest_line line.old.bytes (numbers values.now) result line.new.bytes }
{
    for value in values {
        push_spaced(line, *value)?;
    }
    Ok(())
}

// Begin, end, riding and rides, as a line lists them; no `From`, since an array of numbers means nothing where the verdict is.
fn told_of(verdict: Verdict) -> [usize; 4]
    ensures { result ≡ verdict.begin ∷ verdict.end ∷ verdict.riding ∷ verdict.rides ∷ [] }
{
    let Verdict {
        begin,
        end,
        riding,
        rides,
        ..
    } = verdict;
    [begin as usize, end as usize, riding as usize, rides]
}

// Puts the words of a journey behind the text of a line.
fn push_journey(line: &mut Line, answer: Answer, steps: &[usize]) -> Result<(), CapacityError>
    ensures { let words = journey_words answer steps.now in
        Pushes longest_line line.old.bytes words result line.new.bytes }
{
    push(line, "go")?;
    push_numbers(line, &told_of(answer.verdict))?;
    push(line, " :")?;
    push_numbers(line, answer.named_steps(steps))
}

// A fault's number, layer and place, as a line lists them; no `From`, as for a verdict.
fn report_of(fault: Fault) -> [usize; 3]
    ensures value { let report = report_of fault in
        result ≡ report.number ∷ report.layer ∷ report.place ∷ [] }
    ensures short { length (report_text (report_of fault)) ≤ 31 }
{
    let Report {
        number,
        layer,
        place,
    } = Report::from(fault);
    [usize::from(number), usize::from(layer), place]
}

// Puts the words of a fault behind the text of a line. No clause says that a write to a formatter succeeds, so the `Display` of a
// report can't stand here; the text has one definition, `report_text`.
fn push_fault(line: &mut Line, fault: Fault) -> Result<(), CapacityError>
    ensures pushed { let words = report_text (report_of fault) in
        Pushes longest_line line.old.bytes words result line.new.bytes }
    ensures short { length (report_text (report_of fault)) ≤ 31 }
{
    let report = report_of(fault);
    push(line, "no")?;
    push_numbers(line, &report)
}

// Puts the line of a reply, with the byte that ends it, behind the text of a line.
fn push_line(
    line: &mut Line,
    reply: Result<Reply, Fault>,
    steps: &[usize],
) -> Result<(), CapacityError>
    ensures pushed { let words = reply_line reply steps.now in
        Pushes longest_line line.old.bytes words result line.new.bytes }
    ensures short { IfErr reply (λ f. length (report_text (report_of f)) ≤ 31) }
{
    match reply {
        Ok(Reply::Accepted) => push(line, "ok")?,
        Ok(Reply::Count(count)) => push_number(line, count)?,
        Ok(Reply::Journey(answer)) => push_journey(line, answer, steps)?,
        Err(fault) => push_fault(line, fault)?,
    }
    push(line, "\n")
}

/// Writes the line of a reply, with the byte that ends it, to the front of `out`, and tells its length; none, with
/// nothing written, where it is longer than `out` or than the longest line.
pub fn write(reply: Result<Reply, Fault>, steps: &[usize], out: &mut [u8]) -> Option<usize>
    ensures wrote { let line = reply_line reply steps.now in
        CopiesOut longest_line line out.old result out.new }
    ensures short { IfErr reply (λ f. length (report_text (report_of f)) ≤ 31) }
{
    let mut line = Line::new();
    push_line(&mut line, reply, steps).ok()?;
    copy_out(&line, out)
}
