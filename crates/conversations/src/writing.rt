//! Text written, with what is known of it at an error: the library's `write_all` tells nothing there.
ghost use Rattle.std.specs.Prelude.{◌≡◌, ◌≤◌, length, take, OnOk};
ghost use Rattle.std.specs.Io.KnownBytes.{Appends};
ghost use Rattle.conversations.specs.Streams.{WritesText};

use std::io;
use std::io::{ErrorKind, Write};

// Writes bytes, and tells how many were taken: all of them, or those before an error.
fn write_counted<W: Write>(writer: &mut W, bytes: &[u8]) -> (usize, io::Result<()>)
    ensures bound { result.0 ≤ length bytes.now }
    ensures taken { Appends (W.contents writer.old) (W.contents writer.new)
        (take result.0 bytes.now) }
    ensures all { OnOk result.1 (result.0 ≡ length bytes.now) }
{
    let mut count = 0;
    // Every loop is proved to end: after so many writes it gives up.
    'writes: for _ in 0..u64::MAX {
        if count >= bytes.len() {
            return (count, Ok(()));
        }
        match writer.write(&bytes[count..]) {
            Ok(0) => return (count, Err(io::Error::from(ErrorKind::WriteZero))),
            Ok(taken) => count += taken,
            Err(e) => {
                if e.kind() != ErrorKind::Interrupted {
                    return (count, Err(e));
                }
            }
        }
    }
    (count, Err(io::Error::from(ErrorKind::TimedOut)))
}

/// Writes a text, and hands it on at once.
///
/// # Errors
/// Where it can't be written or handed on; a front of it was written.
pub fn write_and_flush<W: Write>(writer: &mut W, text: &[u8]) -> io::Result<()>
    ensures { WritesText text.now (W.contents writer.old) result (W.contents writer.new) }
{
    let (_, written) = write_counted(writer, text);
    written?;
    writer.flush()
}
