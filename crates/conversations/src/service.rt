//! The service of a day: a post is put up over its events, and converses.
ghost use Rattle.std.specs.Prelude.{◌≡◌, ℕ, List, [], Some, Ok, Err, IfOk};
ghost use Rattle.blocks.specs.Blocks.{events_or_fault};
ghost use Rattle.replies.specs.Printed.{reply_line};
ghost use Rattle.dialogue.specs.Conversations.{IsReplyText};
ghost use Rattle.conversations.specs.Streams.{Serves, WritesText};

use crate::conversation::converse;
use crate::writing::write_and_flush;
use dialogue::PostTables;
use faults::Fault;
use heap_tables::{HeapTables, Lengths, Slots};
use records::MOST_EVENTS;
use replies::{LONGEST_LINE, write};
use sources::{RecordSource, Source};
use std::alloc::Global;
use std::io;
use std::io::{BufRead, Write};
use timetable_post::Post;

// Converses over a source, by a post that is put up over it.
fn converse_over<R: BufRead, W: Write>(
    alloc: Global,
    source: RecordSource,
    reader: &mut R,
    writer: &mut W,
) -> io::Result<()>
    requires { ⟦<RecordSource as Source>⟧.place source ≡ 0 }
    ensures { (bs : List ℕ)
        → R.remaining reader.old ≡ Some bs
        → let records = ⟦<RecordSource as Source>⟧ in
        Serves (Ok (records.events source)) bs
        (W.contents writer.old) result (R.remaining reader.new) (W.contents writer.new) }
{
    // No more of a log is made than the events need, so that no query clears more.
    let lengths = Lengths {
        log: source.size() * 2,
        ..Lengths::for_events(MOST_EVENTS)
    };
    let mut numbers = HeapTables::new(alloc, lengths, Slots::default())?;
    let log_and_board = Lengths {
        queue: 0,
        steps: 0,
        ..lengths
    };
    let mut trips = HeapTables::new(alloc, log_and_board, Slots::default())?;
    let mut tables = PostTables {
        log: &mut numbers.log,
        board: &mut numbers.board,
        trip_log: &mut trips.log,
        trip_board: &mut trips.board,
        queue: &mut numbers.queue,
        steps: &mut numbers.steps,
    };
    converse(
        alloc,
        &mut Post::put_up(source),
        &mut tables,
        reader,
        writer,
    )
}

// Writes the line of a fault. It has 32 bytes at most, so there is always room for it.
fn write_fault<W: Write>(fault: Fault, writer: &mut W) -> io::Result<()>
    ensures { WritesText (reply_line (Err fault) []) (W.contents writer.old) result
        (W.contents writer.new) }
{
    let mut line = [0; LONGEST_LINE];
    let length = write(Err(fault), &[], &mut line).unwrap_or(0);
    write_and_flush(writer, line.get(..length).unwrap_or(&[]))
}

/// Answers the lines of `reader` by a new post over the day's events; where the bytes of the day are no block of events, writes
/// the line of their fault, and reads nothing.
///
/// # Errors
/// Where there is no memory for the tables, with nothing read or written; where the conversation is cut short, as `converse`
/// tells; or where the line of the fault can't be written, of which a front was.
pub fn serve<R: BufRead, W: Write>(
    alloc: Global,
    day: &[u8],
    reader: &mut R,
    writer: &mut W,
) -> io::Result<()>
    ensures { (bs : List ℕ)
        → R.remaining reader.old ≡ Some bs
        → Serves (events_or_fault day.now) bs (W.contents writer.old) result
        (R.remaining reader.new) (W.contents writer.new) }
{
    match RecordSource::open(day) {
        Ok(source) => converse_over(alloc, source, reader, writer),
        Err(fault) => write_fault(fault, writer),
    }
}

/// What is said to the lines of a text by a new post over the day's events.
///
/// # Errors
/// Where there is no memory for it.
pub fn text_of(alloc: Global, day: &[u8], lines: &[u8]) -> io::Result<Vec<u8>>
    ensures { IfOk result (λ text. IsReplyText (events_or_fault day.now) lines.now text.items) }
{
    let mut reader = lines;
    let mut text = Vec::new(alloc);
    serve(alloc, day, &mut reader, &mut text)?;
    Ok(text)
}
