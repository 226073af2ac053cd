//! Bytes as rows of sixteen, a record in each.
ghost use Rattle.std.specs.Prelude.{◌≡◌};
ghost use Rattle.std.specs.Result.{result_map_both};
ghost use Rattle.faults.specs.Rules.{ruling};
ghost use Rattle.blocks.specs.Rows.{records_of, size_rules};

use faults::Fault;

/// The length of a record in bytes.
pub const RECORD_BYTES: usize = 16;

/// The records of the bytes.
///
/// # Errors
///
/// Fault 1 where they are not whole records only, its place the number of those; 2 where they are more than the most, which is
/// its place.
pub fn rows<const MOST: usize>(bytes: &[u8]) -> Result<&[[u8; 16]], Fault>
    ensures { result_map_both (λ rs. rs.now) (λ f. f) result
        ≡ ruling (size_rules MOST bytes.now) (records_of bytes.now) }
{
    let (rows, rest) = bytes.as_chunks::<RECORD_BYTES>();
    if !rest.is_empty() {
        return Err(Fault::PartialRecord { place: rows.len() });
    }
    if rows.len() > MOST {
        return Err(Fault::TooManyRecords { place: MOST });
    }
    Ok(rows)
}
