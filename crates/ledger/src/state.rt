ghost use Rattle.std.specs.Prelude.{◌≡◌};
ghost use Rattle.ledger.specs.Table.{cell};

use crate::refusal::Refusal;

/// Where a book stands.
#[derive(Clone, Copy, PartialEq, Eq, Debug)]
pub enum State {
    /// No round is open.
    Shut,
    /// A round is open, and nothing is bid in it.
    Open,
    /// A bid of the open round is on trial.
    Trial,
    /// The open round has its confirmed bid.
    Done,
}

/// What a book is asked to do, readings apart.
#[derive(Clone, Copy, PartialEq, Eq, Debug)]
pub enum Call {
    Open,
    Offer,
    Confirm,
    Withdraw,
    Close,
}

impl State {
    /// The state after a call that meets no other refusal, or the refusal of the state table. An offer that goes to
    /// trial here can still be a contradiction.
    pub fn next(self, call: Call) -> Result<State, Refusal>
        ensures { result ≡ cell self call }
    {
        // An arm for each cell of the state table, in its order.
        match (self, call) {
            (State::Shut, Call::Open) => Ok(State::Open),
            (State::Open, Call::Open) => Err(Refusal::RoundOpen),
            (State::Trial, Call::Open) => Err(Refusal::RoundOpen),
            (State::Done, Call::Open) => Err(Refusal::RoundOpen),
            (State::Shut, Call::Offer) => Err(Refusal::NoRoundOpen),
            (State::Open, Call::Offer) => Ok(State::Trial),
            (State::Trial, Call::Offer) => Err(Refusal::TrialStands),
            (State::Done, Call::Offer) => Err(Refusal::BidConfirmed),
            (State::Shut, Call::Confirm) => Err(Refusal::SlipMisfit),
            (State::Open, Call::Confirm) => Err(Refusal::SlipMisfit),
            (State::Trial, Call::Confirm) => Ok(State::Done),
            (State::Done, Call::Confirm) => Err(Refusal::SlipMisfit),
            (State::Shut, Call::Withdraw) => Err(Refusal::SlipMisfit),
            (State::Open, Call::Withdraw) => Err(Refusal::SlipMisfit),
            (State::Trial, Call::Withdraw) => Ok(State::Open),
            (State::Done, Call::Withdraw) => Err(Refusal::SlipMisfit),
            (State::Shut, Call::Close) => Err(Refusal::NoRoundOpen),
            (State::Open, Call::Close) => Ok(State::Shut),
            (State::Trial, Call::Close) => Err(Refusal::TrialStands),
            (State::Done, Call::Close) => Ok(State::Shut),
        }
    }
}
