//! What the contracts leave open: that a conversation comes to its end, and when a reply is flushed. The text that is wanted
//! is spelled out here, after the program's page.
ghost use Rattle.std.specs.Prelude.{Some};

use conversations::{serve, serve_file, text_of};
use std::cell::Cell;
use std::io;
use std::io::{BufRead, ErrorKind, Read, Write};
use std::test::Fail;

// A reader that fails.
#[derive(Drop)]
struct BrokenReader;

impl Read for BrokenReader {
    fn read(&mut self, _buf: &mut [u8]) -> io::Result<usize> {
        Err(io::Error::from(ErrorKind::ConnectionReset))
    }
}

impl BufRead for BrokenReader {
    fn fill_buf(&mut self) -> io::Result<&[u8]> {
        Err(io::Error::from(ErrorKind::ConnectionReset))
    }

    fn consume(&mut self, _amount: usize) {}
}

// A writer that takes a byte at a time, is interrupted in between, and has room for so many.
#[derive(Drop)]
struct NarrowWriter {
    taken: Vec<u8>,
    room: usize,
    was_interrupted: bool,
}

impl Write for NarrowWriter {
    ghost contents = { λ w. Some w.taken.items };

    fn write(&mut self, buf: &[u8]) -> io::Result<usize> {
        self.was_interrupted = !self.was_interrupted;
        if self.was_interrupted {
            return Err(io::Error::from(ErrorKind::Interrupted));
        }
        if self.room == 0 {
            return Err(io::Error::from(ErrorKind::StorageFull));
        }
        if buf.is_empty() {
            return Ok(0);
        }
        self.taken.push(buf[0])?;
        self.room -= 1;
        Ok(1)
    }

    fn flush(&mut self) -> io::Result<()> {
        Ok(())
    }
}

// A writer that tells how many bytes were handed on.
#[derive(Drop)]
struct CountingWriter<'a> {
    written: usize,
    handed_on: &'a Cell<usize>,
}

impl Write for CountingWriter<'_> {
    fn write(&mut self, buf: &[u8]) -> io::Result<usize> {
        self.written = self.written.saturating_add(buf.len());
        Ok(buf.len())
    }

    fn flush(&mut self) -> io::Result<()> {
        self.handed_on.set(self.written);
        Ok(())
    }
}

// A reader of no bytes that fails unless so many were handed on before it is asked for any.
#[derive(Drop)]
struct GatedReader<'a> {
    wanted: usize,
    handed_on: &'a Cell<usize>,
}

impl Read for GatedReader<'_> {
    fn read(&mut self, _buf: &mut [u8]) -> io::Result<usize> {
        Err(io::Error::from(ErrorKind::Unsupported))
    }
}

impl BufRead for GatedReader<'_> {
    fn fill_buf(&mut self) -> io::Result<&[u8]> {
        if self.handed_on.get() != self.wanted {
            return Err(io::Error::from(ErrorKind::WouldBlock));
        }
        Ok(&[])
    }

    fn consume(&mut self, _amount: usize) {}
}

#[test]
fn reader_that_fails(rt: HostRuntime) -> Result<(), Fail> {
    let mut out = Vec::new(rt.alloc());
    let mut reader = b"t\nx\nt".as_slice().chain(BrokenReader);
    assert!(rt; serve(rt.alloc(), &[], &mut reader, &mut out).is_err());
    assert_eq!(rt; out.as_slice(), b"0\nno 11 4 0\n".as_slice());
    Ok(())
}

#[test]
fn writer_that_fails(rt: HostRuntime) -> Result<(), Fail> {
    let whole = b"0\nno 11 4 0\n0\n".as_slice();
    for room in 0..16usize {
        let mut writer = NarrowWriter {
            taken: Vec::new(rt.alloc()),
            room,
            was_interrupted: false,
        };
        let mut lines = b"t\nx\nt".as_slice();
        let served = serve(rt.alloc(), &[], &mut lines, &mut writer);
        assert_eq!(rt; served.is_ok(), room >= 14);
        assert_eq!(rt; writer.taken.as_slice(), &whole[..room.min(14)]);
        let left = match room {
            0..2 => 3,
            2..12 => 1,
            _ => 0,
        };
        assert_eq!(rt; lines.len(), left);
    }
    Ok(())
}

#[test]
fn replies_are_flushed_before_the_next_line(rt: HostRuntime) -> Result<(), Fail> {
    let handed_on = Cell::new(0);
    let mut writer = CountingWriter {
        written: 0,
        handed_on: &handed_on,
    };
    let gate = |wanted: usize| GatedReader {
        wanted,
        handed_on: &handed_on,
    };
    let first = b"t\n".as_slice().chain(gate(2));
    let mut reader = first.chain(b"x\n".as_slice()).chain(gate(12));
    serve(rt.alloc(), &[], &mut reader, &mut writer)?;
    assert_eq!(rt; writer.written, 12);
    Ok(())
}

#[test]
fn files(rt: HostRuntime) -> Result<(), Fail> {
    let mut out = Vec::new(rt.alloc());
    let mut lines = b"t\n".as_slice();
    let broken = b"\x02".as_slice().chain(BrokenReader);
    assert!(rt; serve_file(rt.alloc(), Some(broken), &mut lines, &mut out).is_err());
    assert_eq!(rt; (lines.len(), out.len()), (2, 0));
    serve_file(rt.alloc(), None::<BrokenReader>, &mut lines, &mut out)?;
    assert_eq!(rt; lines.len(), 0);
    assert_eq!(rt; out.as_slice(), b"0\n".as_slice());
    let mut lines = b"t\n".as_slice();
    let partial = Some([0; 20].as_slice());
    serve_file(rt.alloc(), partial, &mut lines, &mut out)?;
    assert_eq!(rt; lines.len(), 2);
    assert_eq!(rt; out.as_slice(), b"0\nno 1 1 1\n".as_slice());
    Ok(())
}

#[test]
fn text_without_an_end(rt: HostRuntime) -> Result<(), Fail> {
    let text = text_of(rt.alloc(), &[], b"t\n\r\n\xff")?;
    assert_eq!(rt; text.as_slice(), b"0\nno 11 4 0\nno 11 4 0\n".as_slice());
    assert_eq!(rt; text_of(rt.alloc(), &[], b"")?.len(), 0);
    Ok(())
}
