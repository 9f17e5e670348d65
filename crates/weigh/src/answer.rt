//! What weighing answers.

use tables::table::BidError;
use thiserror::Error;

/// A bid that is held: some worths make all bids and this one best choices.
#[derive(Clone, Copy, PartialEq, Eq, Debug)]
pub struct Held {
    /// The package's number on the roll, from 1; a package that was not there has the number past the last.
    pub package: usize,
    /// How many packages that were on the roll have a smaller inner worth now.
    pub moved: usize,
}

/// Why a bid is not held.
#[derive(Clone, Copy, PartialEq, Eq, Debug, Error)]
pub enum Refused {
    /// A memory is shorter than 128.
    #[error("a memory is shorter than 128")]
    ShortMemory,
    /// The row does not have one quantity for each product.
    #[error("the row does not have one quantity for each product")]
    RowLength,
    /// There is no round to bid in.
    #[error("there is no round to bid in")]
    NoRound,
    /// The latest round has a bid.
    #[error("the latest round has a bid")]
    BidStands,
    /// No worths make all bids and this one best choices; so many steps of a chain that forbids it were written.
    #[error("a chain of {steps} steps forbids the bid")]
    Contradiction { steps: usize },
}

/// The number of the refusal.
// The ledger, which stands beside this crate, gives the same numbers to refusals of its own.
impl From<Refused> for u8 {
    ghost use Rattle.std.specs.Prelude.{◌≡◌};
    ghost use Rattle.weigh.specs.Answers.{refused_number};

    ghost from_gives = { λ refused number. number ≡ refused_number refused };

    fn from(refused: Refused) -> u8 {
        match refused {
            Refused::ShortMemory => 2,
            Refused::RowLength => 3,
            Refused::NoRound => 8,
            Refused::BidStands => 11,
            Refused::Contradiction { .. } => 12,
        }
    }
}

/// The refusal of a bid that the table does not take.
// Its three reasons stand among the refusals by name, so that a caller matches one enum.
impl From<BidError> for Refused {
    ghost use Rattle.std.specs.Prelude.{◌≡◌};
    ghost use Rattle.weigh.specs.Answers.{refusal_of};

    ghost from_gives = { λ error refused. refused ≡ refusal_of error };

    fn from(error: BidError) -> Refused {
        match error {
            BidError::RowLength => Refused::RowLength,
            BidError::NoRound => Refused::NoRound,
            BidError::BidStands => Refused::BidStands,
        }
    }
}
