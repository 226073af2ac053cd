//! The kinds of records, each with the byte that tells it.
ghost use Rattle.records.specs.Kinds.{Decodes};

// What a record holds.
#[derive(Clone, Copy, PartialEq, Eq, Debug)]
pub(crate) enum Kind {
    Opening = 1,
    Ride = 2,
}

// A byte that tells no kind of record.
#[derive(Clone, Copy, PartialEq, Eq, Debug)]
pub(crate) struct UnknownKind(pub u8);

impl TryFrom<u8> for Kind {
    type Error = UnknownKind;

    ghost try_from_gives = { Decodes };

    // The kind that a byte tells.
    fn try_from(code: u8) -> Result<Kind, UnknownKind> {
        match code {
            1 => Ok(Kind::Opening),
            2 => Ok(Kind::Ride),
            _ => Err(UnknownKind(code)),
        }
    }
}
