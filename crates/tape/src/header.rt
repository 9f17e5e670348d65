use thiserror::Error;

/// The kind of worth that a sale is run with.
#[derive(Clone, Copy, PartialEq, Eq, Debug)]
pub enum Kind {
    Plain,
    Strict,
}

/// A number that no kind has.
#[derive(Clone, Copy, PartialEq, Eq, Debug, Error)]
#[error("no kind of worth has the number {0}")]
pub struct UnknownKind(pub u8);

/// What the front of a tape says of its sale.
#[derive(Clone, Copy, PartialEq, Eq, Debug)]
pub struct Header {
    pub book: u16,
    /// 1 to 16 on a tape that is read.
    pub products: u8,
    pub kind: Kind,
}

/// The kind of that number, if there is one.
impl TryFrom<u8> for Kind {
    ghost use Rattle.tape.specs.Format.{Named};

    type Error = UnknownKind;

    ghost try_from_gives = { Named };

    fn try_from(number: u8) -> Result<Kind, UnknownKind> {
        match number {
            0 => Ok(Kind::Plain),
            1 => Ok(Kind::Strict),
            _ => Err(UnknownKind(number)),
        }
    }
}

/// The kind's number on a tape.
impl From<Kind> for u8 {
    ghost use Rattle.std.specs.Prelude.{◌≡◌};
    ghost use Rattle.tape.specs.Format.{kind_number};

    ghost from_gives = { λ kind number. number ≡ kind_number kind };

    fn from(kind: Kind) -> u8 {
        match kind {
            Kind::Plain => 0,
            Kind::Strict => 1,
        }
    }
}
