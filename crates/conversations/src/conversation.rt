//! A conversation: lines answered one after another.
ghost use Rattle.std.specs.Prelude.{◌≡◌, ℕ, List, Some};
ghost use Rattle.dialogue.specs.Obeying.{session};
ghost use Rattle.conversations.specs.Streams.{AnswersLine, Converses};

use crate::reading::next_line;
use crate::writing::write_and_flush;
use dialogue::{PostTables, respond};
use replies::LONGEST_LINE;
use sources::Source;
use std::alloc::Global;
use std::io;
use std::io::{BufRead, ErrorKind, Write};
use timetable_post::Post;

// Answers a line, and writes the reply's line.
fn answer_line<S: Source + Drop, W: Write>(
    post: &mut Post<S>,
    line: &[u8],
    tables: &mut PostTables<'_>,
    writer: &mut W,
) -> io::Result<()>
    ensures { let b = session post.old tables.old in
        let a = session post.new tables.new in
        AnswersLine b line.now (W.contents writer.old) result
        (W.contents writer.new) a }
{
    let mut reply = [0; LONGEST_LINE];
    let length = respond(post, line, tables, &mut reply);
    write_and_flush(writer, reply.get(..length).unwrap_or(&[]))
}

/// Answers the lines of `reader`, one after another, each before the next is read, until there is none. The lines may be of any
/// length, as far as memory goes.
///
/// # Errors
/// Where a line can't be read or held, or a reply can't be written: every line before the one under way has its whole reply, no
/// more was read than this line, and of the last reply a front was written.
pub fn converse<S: Source + Drop, R: BufRead, W: Write>(
    alloc: Global,
    post: &mut Post<S>,
    tables: &mut PostTables<'_>,
    reader: &mut R,
    writer: &mut W,
) -> io::Result<()>
    ensures { (bs : List ℕ)
        → R.remaining reader.old ≡ Some bs
        → let b = session post.old tables.old in
        let a = session post.new tables.new in
        Converses b bs (W.contents writer.old) result (R.remaining reader.new)
        (W.contents writer.new) a }
{
    let mut line = Vec::new(alloc);
    // Every loop is proved to end: after so many lines it gives up.
    'lines: for _ in 0..u64::MAX {
        if !next_line(reader, &mut line)? {
            return Ok(());
        }
        answer_line(post, &line, tables, writer)?;
    }
    Err(io::Error::from(ErrorKind::TimedOut))
}
