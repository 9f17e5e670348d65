ghost use Rattle.std.specs.Prelude.{◌≡◌};
ghost use Rattle.ledger.specs.Refusals.{refusal_number};

use thiserror::Error;

/// Why a book refuses a call.
#[derive(Clone, Copy, PartialEq, Eq, Debug, Error)]
pub enum Refusal {
    /// The book's number of products is not 1 to 16.
    #[error("the book's number of products is not 1 to 16")]
    BadProducts,
    /// The column, or a memory that is handed in, is shorter than its figure.
    #[error("the column, or a memory that is handed in, is shorter than its figure")]
    ShortMemory,
    /// The row does not have one entry for each product.
    #[error("the row does not have one entry for each product")]
    RowLength,
    /// 128 rounds have been opened already.
    #[error("128 rounds have been opened already")]
    TooManyRounds,
    /// A round is open.
    #[error("a round is open")]
    RoundOpen,
    /// A price is above 1,000,000,000.
    #[error("a price is above 1,000,000,000")]
    PriceTooHigh,
    /// A price is below the price of the same product in the round before.
    #[error("a price is below the price of the same product in the round before")]
    PriceFell,
    /// No round is open.
    #[error("no round is open")]
    NoRoundOpen,
    /// A trial stands.
    #[error("a trial stands")]
    TrialStands,
    /// The slip does not fit.
    #[error("the slip does not fit")]
    SlipMisfit,
    /// The open round has its confirmed bid.
    #[error("the open round has its confirmed bid")]
    BidConfirmed,
    /// No worths make the confirmed bids and the offered one best choices.
    #[error("no worths make the confirmed bids and the offered one best choices")]
    Contradiction,
}

/// A refusal's number in the house's list.
impl From<Refusal> for u8 {
    ghost from_gives = { λ refusal number. number ≡ refusal_number refusal };

    fn from(refusal: Refusal) -> u8 {
        match refusal {
            Refusal::BadProducts => 1,
            Refusal::ShortMemory => 2,
            Refusal::RowLength => 3,
            Refusal::TooManyRounds => 4,
            Refusal::RoundOpen => 5,
            Refusal::PriceTooHigh => 6,
            Refusal::PriceFell => 7,
            Refusal::NoRoundOpen => 8,
            Refusal::TrialStands => 9,
            Refusal::SlipMisfit => 10,
            Refusal::BidConfirmed => 11,
            Refusal::Contradiction => 12,
        }
    }
}
