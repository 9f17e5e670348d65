use thiserror::Error;

/// Why a line is refused.
#[derive(Clone, Copy, PartialEq, Eq, Debug, Error)]
pub enum LineError {
    /// The text ends before a heading.
    #[error("the text ends before its heading")]
    NoHeading,
    /// The line is no heading.
    #[error("expected a heading, as `book 7 products 2 kind plain`")]
    NotAHeading,
    /// A heading names no number of products from 1 to 16.
    #[error("a sale has 1 to 16 products")]
    BadProducts,
    /// The line begins with no record's letter.
    #[error("unknown record: expected O, T, C, W, S or V")]
    UnknownRecord,
    /// A word that has to be a number is none.
    #[error("expected a number, digits only")]
    NotANumber,
    /// A number passes its range.
    #[error("the number is above its range")]
    TooLarge,
    /// The line has too few words or too many.
    #[error("too few words or too many: a row has one number for each product")]
    WrongCount,
    /// The tape has no room for the record.
    #[error("the tape would be longer than 32,768 bytes")]
    TapeFull,
}

/// A line that no tape can be made of, by its number from 1 on.
#[derive(Clone, Copy, PartialEq, Eq, Debug, Error)]
#[error("line {line}: {error}")]
pub struct BadLine {
    pub line: usize,
    pub error: LineError,
}
