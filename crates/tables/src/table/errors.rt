use thiserror::Error;

/// Why a table takes no further round.
#[derive(Clone, Copy, PartialEq, Eq, Debug, Error)]
pub enum RoundError {
    /// The row does not have one price for each product.
    #[error("the row does not have one price for each product")]
    RowLength,
    /// 128 rounds are there.
    #[error("the table has no room for a further round")]
    TooManyRounds,
}

/// Why a table does not take a bid.
#[derive(Clone, Copy, PartialEq, Eq, Debug, Error)]
pub enum BidError {
    /// The row does not have one quantity for each product.
    #[error("the row does not have one quantity for each product")]
    RowLength,
    /// There is no round to bid in.
    #[error("there is no round to bid in")]
    NoRound,
    /// The latest round has a bid.
    #[error("the latest round has a bid")]
    BidStands,
}
