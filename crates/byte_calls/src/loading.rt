//! Records loaded into memory, from bytes to bytes.
ghost use Rattle.byte_calls.specs.Loadings.{Fills, Loads};

use blocks::{Load, RECORD_BYTES};
use faults::Fault;
use records::MOST_EVENTS;

// Adds the records that the bytes are, one after another, to memory that holds none, until one is refused. What is left behind
// the whole records counts as one more, which is too short.
fn fill(memory: &mut [u8], records: &[u8]) -> Result<usize, Fault>
    ensures { Fills memory.old records.now result memory.new }
{
    let mut load = Load::new(memory);
    for record in records.chunks(RECORD_BYTES) {
        load.add(record)?;
    }
    Ok(load.finish())
}

// The most bytes that a load fills.
const LONGEST_LOAD: usize = MOST_EVENTS * RECORD_BYTES;

/// Loads the records that the bytes are into memory, from its front on, and tells how many there are.
///
/// # Errors
/// The first rule that one of them breaks; then the memory has its old bytes again, from a copy of the part that a load may fill.
pub fn load_records(memory: &mut [u8], records: &[u8]) -> Result<usize, Fault>
    ensures { Loads memory.old records.now result memory.new }
{
    let mut found = [0; LONGEST_LOAD];
    let most = memory.len().min(LONGEST_LOAD);
    found[..most].copy_from_slice(&memory[..most]);
    let loaded = fill(memory, records);
    if loaded.is_err() {
        memory[..most].copy_from_slice(&found[..most]);
    }
    loaded
}
