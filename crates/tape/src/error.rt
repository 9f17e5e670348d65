use thiserror::Error;

/// Why a tape is refused.
#[derive(Clone, Copy, PartialEq, Eq, Debug, Error)]
pub enum TapeError {
    /// It has more than 32,768 bytes.
    #[error("the tape has more than 32,768 bytes")]
    TooLong,
    /// Its header is short, or holds a wrong mark, version, number of products or kind.
    #[error("the header is short, or its mark, version, number of products or kind is wrong")]
    BadHeader,
    /// A record's letter is unknown.
    #[error("unknown record: expected O, T, C, W, S or V")]
    UnknownLetter,
    /// A record is cut off by the end of the tape.
    #[error("a record is cut off by the end of the tape")]
    CutOff,
}

/// The refusal's number in the house's list.
impl From<TapeError> for u8 {
    ghost use Rattle.std.specs.Prelude.{◌≡◌};
    ghost use Rattle.tape.specs.Format.{error_number};

    ghost from_gives = { λ error number. number ≡ error_number error };

    fn from(error: TapeError) -> u8 {
        match error {
            TapeError::TooLong => 13,
            TapeError::BadHeader => 14,
            TapeError::UnknownLetter => 15,
            TapeError::CutOff => 16,
        }
    }
}
