//! The library for firmware: calls across C, of bytes and numbers alone. No memory is allocated. No `Option` or `Result`
//! crosses to C, so each call answers in one number.
#![tactic(auto)]

ghost use Rattle.std.specs.Prelude.{◌≡◌, Err};
ghost use Rattle.firmware.specs.Calls.{AnswersByCode, LoadsByCode, load_code};

use byte_calls::{answer_lines, load_records};
use faults::{Fault, Report};

/// Answers lines over the records of a day, and writes what is printed to the front of `out`; tells its length, or -1, with
/// nothing written, where it is longer than `out` or than 65,536 bytes.
#[unsafe(no_mangle)]
pub extern "C" fn firmware_answer_lines(day: &[u8], lines: &[u8], out: &mut [u8]) -> isize
    ensures { AnswersByCode day.now lines.now out.old result out.new }
{
    match answer_lines(day, lines, out) {
        Some(length) => length as isize,
        None => -1,
    }
}

// A fault in one number: its number, its layer and its place, from the highest bits on.
fn code_of(fault: Fault) -> u64
    ensures { result ≡ load_code (Err fault) }
{
    let report = Report::from(fault);
    let place = u32::try_from(report.place).unwrap_or(u32::MAX);
    (u64::from(report.number) << 40) + (u64::from(report.layer) << 32) + u64::from(place)
}

/// Loads records into memory, from its front on, and tells how many there are; or the first fault in one number, and then the
/// memory has its old bytes again.
#[unsafe(no_mangle)]
pub extern "C" fn firmware_load_records(memory: &mut [u8], records: &[u8]) -> u64
    ensures { LoadsByCode memory.old records.now result memory.new }
{
    match load_records(memory, records) {
        Ok(count) => count as u64,
        Err(fault) => code_of(fault),
    }
}
