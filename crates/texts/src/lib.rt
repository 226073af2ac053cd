//! Text that is put together in a line of a fixed length, and copied out.
#![tactic(auto)]

ghost use Rattle.std.specs.Prelude.{◌≡◌, ◌<◌, ◌∷◌, length, OnErr, IfNone};
ghost use Rattle.texts.specs.Pushing.{CopiesOut, Pushes};

use arrayvec::{ArrayString, CapacityError};
use itoa::{Buffer, Integer};

/// Puts a text behind that of a line, or nothing where there is no room.
pub fn push<const N: usize>(line: &mut ArrayString<N>, text: &str) -> Result<(), CapacityError>
    ensures pushed { Pushes N line.old.bytes text.now result line.new.bytes }
    ensures unchanged { OnErr result (line.new.bytes ≡ line.old.bytes) }
{
    line.try_push_str(text).map_err(CapacityError::simplify)
}

/// Puts a number in decimal behind the text of a line, or nothing where there is no room.
pub fn push_number<const N: usize, I: Integer>(
    line: &mut ArrayString<N>,
    number: I,
) -> Result<(), CapacityError>
    ensures pushed { Pushes N line.old.bytes (I.text number) result line.new.bytes }
    ensures unchanged { OnErr result (line.new.bytes ≡ line.old.bytes) }
{
    push(line, Buffer::new().format(number))
}

/// Puts a space and a number behind the text of a line, or nothing where there is no room for both.
pub fn push_spaced<const N: usize, I: Integer>(
    line: &mut ArrayString<N>,
    number: I,
) -> Result<(), CapacityError>
    ensures pushed { Pushes N line.old.bytes (32 ∷ I.text number) result line.new.bytes }
    ensures unchanged { OnErr result (line.new.bytes ≡ line.old.bytes) }
{
    let mut buffer = Buffer::new();
    let digits = buffer.format(number);
    if line.remaining_capacity() <= digits.len() {
        return Err(CapacityError::new(()));
    }
    line.push_str(" ");
    push(line, digits)
}

/// Copies the text of a line to the front of the caller's bytes, and tells its length; none, with
/// nothing copied, where it is longer.
pub fn copy_out<const N: usize>(line: &ArrayString<N>, out: &mut [u8]) -> Option<usize>
    ensures copied { CopiesOut N line.now.bytes out.old result out.new }
    ensures longer { IfNone result (length out.old < length line.now.bytes) }
{
    if line.len() > out.len() {
        return None;
    }
    out[..line.len()].copy_from_slice(line.as_str().as_bytes());
    Some(line.len())
}
