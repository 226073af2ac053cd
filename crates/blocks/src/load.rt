//! A load: memory that is filled with records, one after another.
ghost use Rattle.std.specs.Prelude.{◌≡◌, ℕ, ◌+◌, ◌*◌, List, ◌++◌, is_ok, if◌then◌else◌};
ghost use Rattle.faults.specs.Rules.{ruling};
ghost use Rattle.records.specs.Layout.{event_in};
ghost use Rattle.blocks.specs.Blocks.{last_event};
ghost use Rattle.blocks.specs.Loads.{IsFilledWith, Filling, accepted_records, add_rules, memory_with};

use crate::block::read_after;
use crate::row::RECORD_BYTES;
use faults::Fault;
use records::{Event, MOST_EVENTS, fields};

/// The caller's memory, whose front holds `held` records.
#[derive(Drop)]
pub struct Load<'a> {
    memory: &'a mut [u8],
    held: usize,
}

// The event of the last of the records, none where there is none.
fn last_event(rows: &[[u8; 16]]) -> Option<Event>
    ensures { result ≡ last_event rows.now }
{
    rows.last().map(|row| fields(row))
}

impl<'a> Load<'a> {
    ghost use Rattle.blocks.specs.Views.{count_of, memory_of, name_of};

    /// Begins a load over the caller's memory, which holds no record yet and is not written to.
    pub fn new(memory: &'a mut [u8]) -> Load<'a>
        ensures same { memory_of result ≡ memory.old }
        ensures held { count_of result ≡ 0 }
        ensures named { name_of result ≡ memory.entry.ghost_name }
    {
        Load { memory, held: 0 }
    }

    // The event of a record, refused with the first rule broken where it may not be added behind those held.
    fn check_next(&self, bytes: &[u8]) -> Result<Event, Fault>
        ensures { let rules = add_rules (memory_of self.now) (count_of self.now) bytes.now in
            result ≡ ruling rules (event_in bytes.now) }
    {
        let held = self.held;
        let row = <&[u8; 16]>::try_from(bytes).map_err(|_| Fault::PartialRecord { place: held })?;
        let (rows, _) = self.memory.as_chunks::<RECORD_BYTES>();
        if held >= MOST_EVENTS || held >= rows.len() {
            return Err(Fault::TooManyRecords { place: held });
        }
        read_after(last_event(&rows[..held]), held, row)
    }

    /// Adds a record behind those held; a refusal changes nothing.
    ///
    /// # Errors
    ///
    /// With the number of records held as the place: fault 1 where the record has not 16 bytes, 2 where the load holds the most
    /// records or has fewer than 16 bytes free, then 3 to 6, 8 and 9 by the record, as the next of a block.
    pub fn add(&mut self, bytes: &[u8]) -> Result<(), Fault>
        ensures value { let rules = add_rules (memory_of self.old) (count_of self.old) bytes.now in
            result ≡ ruling rules tt }
        ensures after { let m = memory_of self.old in
            memory_of self.new
            ≡ (if is_ok result then memory_with m (16 * count_of self.old) bytes.now else m) }
        ensures held { let n = count_of self.old in
            count_of self.new ≡ (if is_ok result then n + 1 else n) }
        ensures filling { (o : List ℕ) (rs : List (List ℕ)) →
            Filling o rs (memory_of self.old) (count_of self.old)
            → Filling o (rs ++ accepted_records result bytes.now)
            (memory_of self.new) (count_of self.new) }
        ensures named { name_of self.new ≡ name_of self.old }
    {
        // By bytes: nothing is said of what a row of `as_chunks_mut` ends as.
        self.check_next(bytes)?;
        let at = self.held * RECORD_BYTES;
        self.memory[at..at + RECORD_BYTES].copy_from_slice(bytes);
        self.held += 1;
        Ok(())
    }

    /// The number of records held.
    pub fn len(&self) -> usize
        ensures { result ≡ count_of self.now }
    {
        self.held
    }

    /// Ends the load and tells how many records it holds: the front of the memory is their block.
    #[tactic(auto, using(crate::proofs::Fills::filled_from_filling))]
    pub fn finish(self) -> usize
        ensures value { result ≡ count_of self.entry }
        ensures same { self.exit.0.now ≡ memory_of self.entry }
        ensures filled { (o : List ℕ) (rs : List (List ℕ)) →
            Filling o rs (memory_of self.entry) (count_of self.entry)
            → IsFilledWith o rs self.exit.0.now result }
    {
        self.len()
    }
}
