//! Lines answered over a day, from bytes to bytes.
ghost use Rattle.std.specs.Prelude.{◌≡◌, ℕ, ◌≤◌, List, ◌++◌, length, Ok, IfSome, MatchOption};
ghost use Rattle.records.specs.Limits.{longest_text};
ghost use Rattle.blocks.specs.Blocks.{events_or_fault};
ghost use Rattle.dialogue.specs.Conversations.{IsFirstLine};
ghost use Rattle.dialogue.specs.Obeying.{session};
ghost use Rattle.dialogue.specs.Tables.{SamePostTables};
ghost use Rattle.texts.specs.Pushing.{CopiesOut};
ghost use Rattle.byte_calls.specs.Conversations.{AnswersBehind, Answers, Converses, IsPrinted, Says};

use dialogue::{PostTables, respond};
use memchr::memchr;
use records::MOST_EVENTS;
use replies::{LONGEST_LINE, write};
use scans::Arrival;
use search::BOARD_SLOTS;
use sources::{RecordSource, Source};
use timetable_post::Post;

/// The most bytes of a text: what is said is put together in memory of this length, so that nothing is written where it does
/// not fit.
pub const LONGEST_TEXT: usize = 65_536;

// How many slots a log and a queue have: two for each event.
pub(crate) const SLOTS: usize = MOST_EVENTS * 2;

// The first line of a text, without the newline at its end, and the text behind it; none where the text is empty. Where there is
// no newline, all of the text is the line.
#[tactic(auto, using(crate::proofs::Lines::line_cut, crate::proofs::Lines::line_last))]
fn first_line(text: &[u8]) -> Option<(&[u8], &[u8])>
    ensures { MatchOption result (length text.now ≡ 0)
        (λ parts. IsFirstLine text.now parts.0.now parts.1.now) }
{
    if text.is_empty() {
        return None;
    }
    match memchr(b'\n', text) {
        Some(end) => Some((&text[..end], &text[end + 1..])),
        None => Some((text, &[])),
    }
}

// Copies bytes behind what a text's front has so far, and tells how many there are then; none where there is no room, or was none
// before. The memory is the caller's, so how much of it is in use is a number of its own.
fn append(text: &mut [u8], so_far: Option<usize>, bytes: &[u8]) -> Option<usize>
    requires { IfSome so_far (λ n. n ≤ length text.old) }
    ensures printed { (t : List ℕ)
        → IsPrinted so_far t text.old
        → IsPrinted result (t ++ bytes.now) text.new }
    ensures within { IfSome result (λ n. n ≤ length text.new) }
    ensures long { length text.new ≡ length text.old }
{
    let at = so_far?;
    if bytes.len() > text.len() - at {
        return None;
    }
    let end = at + bytes.len();
    text[at..end].copy_from_slice(bytes);
    Some(end)
}

// Answers a line behind what a text's front has so far; none where there is no room for the reply's line, or was none for those
// before. The memory for the reply is lent, so that it is not made anew for each line.
fn answer_behind<S: Source + Drop>(
    post: &mut Post<S>,
    line: &[u8],
    tables: &mut PostTables<'_>,
    reply: &mut [u8; LONGEST_LINE],
    text: &mut [u8],
    so_far: Option<usize>,
) -> Option<usize>
    requires { IfSome so_far (λ n. n ≤ length text.old) }
    ensures answering { let b = session post.old tables.old in
        let a = session post.new tables.new in
        AnswersBehind b line.now so_far text.old a result text.new }
    ensures within { IfSome result (λ n. n ≤ length text.new) }
    ensures long { length text.new ≡ length text.old }
    ensures same { SamePostTables tables.old tables.new }
{
    let length = respond(post, line, tables, reply);
    append(text, so_far, &reply[..length])
}

// Answers the lines of a text, one after another; tells how many bytes the text of the replies has, which fills the front of
// `text`, or none where it is longer than `text`.
fn converse<S: Source + Drop>(
    post: &mut Post<S>,
    lines: &[u8],
    tables: &mut PostTables<'_>,
    text: &mut [u8],
) -> Option<usize>
    ensures converses { let b = session post.old tables.old in
        let a = session post.new tables.new in
        Converses b lines.now result text.new a }
    ensures within { IfSome result (λ n. n ≤ length text.new) }
    ensures long { length text.new ≡ length text.old }
{
    let mut reply = [0; LONGEST_LINE];
    let mut so_far = Some(0);
    let mut left = lines;
    while let Some((line, rest)) = first_line(left) {
        so_far = answer_behind(post, line, tables, &mut reply, text, so_far);
        left = rest;
    }
    so_far
}

// Answers lines over a source, by a post that is put up over it and lasts for this call. No memory is allocated: the tables are
// arrays of this function.
fn converse_over(source: RecordSource, lines: &[u8], text: &mut [u8]) -> Option<usize>
    requires { ⟦<RecordSource as Source>⟧.place source ≡ 0 }
    ensures converses { let records = ⟦<RecordSource as Source>⟧ in
        Says (Ok (records.events source)) lines.now result text.new }
    ensures within { IfSome result (λ n. n ≤ length text.new) }
    ensures long { length text.new ≡ length text.old }
{
    let mut log = [None; SLOTS];
    let mut board = [None; BOARD_SLOTS];
    let mut trip_log = [None; SLOTS];
    let mut trip_board = [None; BOARD_SLOTS];
    let mut queue = [Arrival::default(); SLOTS];
    let mut steps = [0; MOST_EVENTS];
    // No more of a log is lent than the events need, so that no query clears more.
    let slots = source.size() * 2;
    let mut tables = PostTables {
        log: &mut log[..slots],
        board: &mut board,
        trip_log: &mut trip_log[..slots],
        trip_board: &mut trip_board,
        queue: &mut queue,
        steps: &mut steps,
    };
    converse(&mut Post::put_up(source), lines, &mut tables, text)
}

// Says to the lines what a new post over the day's events says, or, where the day's bytes are no block, the line of its fault.
fn say(day: &[u8], lines: &[u8], text: &mut [u8]) -> Option<usize>
    requires { length text.old ≡ longest_text }
    ensures said { Says (events_or_fault day.now) lines.now result text.new }
    ensures long { length text.new ≡ length text.old }
{
    match RecordSource::open(day) {
        Ok(source) => converse_over(source, lines, text),
        Err(fault) => write(Err(fault), &[], text),
    }
}

// Copies what was said, so many bytes at the front of a text, to the front of `out`; none, with nothing copied, where it did not
// fit the text, or does not fit there.
fn deliver(text: &[u8], said: Option<usize>, out: &mut [u8]) -> Option<usize>
    ensures { (t : List ℕ) → IsPrinted said t text.now
        → CopiesOut (length text.now) t out.old result out.new }
{
    let said = text.get(..said?)?;
    if said.len() > out.len() {
        return None;
    }
    out[..said.len()].copy_from_slice(said);
    Some(said.len())
}

/// Answers lines over a day, whose bytes are records, as a post with a memory of its own does, and writes what is printed to
/// the front of `out`; tells how many bytes that is, or none, with nothing written, where it is longer than `out` or than the
/// longest text.
pub fn answer_lines(day: &[u8], lines: &[u8], out: &mut [u8]) -> Option<usize>
    ensures { Answers day.now lines.now out.old result out.new }
{
    let mut text = [0; LONGEST_TEXT];
    let length = say(day, lines, &mut text);
    deliver(&text, length, out)
}
