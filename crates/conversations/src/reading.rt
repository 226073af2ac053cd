//! Lines read, one at a time.
ghost use Rattle.std.specs.Prelude.{◌≡◌, ℕ, List, Some};
ghost use Rattle.std.specs.Io.BufRead.{strip_last};
ghost use Rattle.conversations.specs.Streams.{ReadsLine};

use std::io;
use std::io::BufRead;

// Takes the newline off the end of a line, if there is one.
fn drop_end(line: &mut Vec<u8>)
    ensures { line.new.items ≡ strip_last 10 line.old.items }
{
    let length = line.len();
    if length == 0 {
        return;
    }
    if line[length - 1] == b'\n' {
        line.truncate(length - 1);
    }
}

/// Reads the next line, without the byte that ends it; tells whether there was one. No more is taken than the line, since the
/// next one may not be there before the reply is.
///
/// # Errors
/// Where the line can't be read or held.
pub fn next_line<R: BufRead>(reader: &mut R, line: &mut Vec<u8>) -> io::Result<bool>
    ensures { (bs : List ℕ)
        → R.remaining reader.old ≡ Some bs
        → ReadsLine bs line.new.items result (R.remaining reader.new) }
{
    line.clear();
    if reader.read_until(b'\n', line)? == 0 {
        return Ok(false);
    }
    drop_end(line);
    Ok(true)
}
