//! Cursors on lines: each has its line's next departure.
ghost use Rattle.std.specs.Prelude.{◌≡◌, ℕ, ◌+◌, ◌<◌, map, length, slice_index_or, slice_set};
ghost use Rattle.records.specs.Limits.{most_lines};
ghost use Rattle.lines.specs.Merges.{end_minute, cursor_of, next_of, no_cursor, next_cursor};

use crate::departure::Departure;
use crate::line::Line;
use crate::line_table::{LineTable, MOST_LINES};

// The minute of a line's next departure, the minutes from one to the next, and how many are left.
#[derive(Clone, Copy)]
pub(crate) struct Cursor {
    pub minute: u32,
    pub interval: u16,
    pub left: u16,
}

impl Cursor {
    // The cursor at a line's first departure.
    fn of(line: Line) -> Cursor
        ensures { result ≡ cursor_of line }
    {
        Cursor {
            minute: line.first.departure,
            interval: line.interval,
            left: line.rides,
        }
    }

    // The next departure of the line, which is at a position, none where no ride is left.
    pub(crate) fn next(self, line: usize) -> Option<Departure>
        ensures { result ≡ next_of line self }
    {
        if self.left == 0 {
            return None;
        }
        Some(Departure {
            minute: self.minute,
            line,
        })
    }

    // The cursor one departure further.
    fn onward(self) -> Cursor
        requires ride { 0 < self.left }
        requires fits { self.minute + self.interval < 4294967296 }
        ensures { result ≡ next_cursor self }
    {
        Cursor {
            minute: self.minute + u32::from(self.interval),
            interval: self.interval,
            left: self.left - 1,
        }
    }
}

// A cursor for each line of a table. The cursors stand beside the lines, which never change, so that no call changes the list is
// plain.
#[derive(Clone, Copy)]
pub(crate) struct Cursors {
    pub table: [Cursor; MOST_LINES],
    ghost all: { length table ≡ most_lines },
    ghost fits: { (k : ℕ) → end_minute (slice_index_or table k no_cursor) < 4294967296 },
}

impl Cursors {
    // The cursors at the first departures of all lines.
    pub(crate) fn of(lines: &LineTable) -> Cursors
        ensures { result.table ≡ map cursor_of lines.now.lines }
    {
        Cursors {
            table: lines.lines.map(Cursor::of),
        }
    }

    // Moves the cursor of one line one departure further, and no other, and answers its next departure then.
    pub(crate) fn advance(&mut self, line: usize) -> Option<Departure>
        requires known { line < most_lines }
        requires ride { 0 < (slice_index_or self.old.table line no_cursor).left }
        ensures after { let cursor = slice_index_or self.old.table line no_cursor in
            self.new.table ≡ slice_set self.old.table line (next_cursor cursor) }
        ensures next { let cursor = slice_index_or self.old.table line no_cursor in
            result ≡ next_of line (next_cursor cursor) }
    {
        let cursor = self.table[line].onward();
        self.table[line] = cursor;
        cursor.next(line)
    }
}
