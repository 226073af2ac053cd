//! The service of a day whose events are in a file.
ghost use Rattle.std.specs.Prelude.{◌≡◌, ℕ, List, Some, IfOk};
ghost use Rattle.blocks.specs.Blocks.{events_or_fault};
ghost use Rattle.conversations.specs.Streams.{IsHeldBy, ServesFile};

use crate::service::serve;
use sources::{RecordSource, Source};
use std::alloc::Global;
use std::io;
use std::io::{BufRead, Read, Write};

// The bytes of a file, to its end; of no file, none.
fn bytes_of<D: Read + Drop>(alloc: Global, file: Option<D>) -> io::Result<Vec<u8>>
    ensures { (day : List ℕ)
        → IsHeldBy D.remaining file day
        → IfOk result (λ bytes. bytes.items ≡ day) }
{
    let mut bytes = Vec::new(alloc);
    if let Some(mut file) = file {
        file.read_to_end(&mut bytes)?;
    }
    Ok(bytes)
}

/// Does as `serve`, over the bytes of a file; where there is none, over no bytes.
///
/// # Errors
/// Where the file can't be read to its end or its bytes can't be held, with nothing read from `reader` and nothing written; or
/// as `serve`.
pub fn serve_file<D: Read + Drop, R: BufRead, W: Write>(
    alloc: Global,
    file: Option<D>,
    reader: &mut R,
    writer: &mut W,
) -> io::Result<()>
    ensures { (day bs : List ℕ)
        → IsHeldBy D.remaining file day
        → R.remaining reader.old ≡ Some bs
        → ServesFile (events_or_fault day) bs (W.contents writer.old) result
        (R.remaining reader.new) (W.contents writer.new) }
{
    let day = bytes_of(alloc, file)?;
    serve(alloc, &day, reader, writer)
}
