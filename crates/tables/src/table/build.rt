ghost use Rattle.std.specs.Prelude.{◌≡◌, ℕ, ◌+◌, ◌<◌, ◌≤◌, true, false, ◌≢◌, is_ok, Some, IfOk, OnOk, OnErr, MatchBool, MatchOption};
ghost use Rattle.std.specs.Result.{result_err};
ghost use Rattle.chains.specs.Rounds.{Placed, enrolled, offered, roll};
ghost use Rattle.tables.specs.Changes.{bid_error, has_bid, opened, round_error, takes_bid, takes_round, unbid};
ghost use Rattle.tables.specs.Tables.{bid_of, packages_of, rounds_of};
ghost use Rattle.tables.specs.View.{rounds};

use super::rows::cells_of;
use super::{BidError, Round, RoundError, Table};

// `same` speaks of two moments, which no invariant of the type can do.
impl Table {
    /// Adds a round at these prices, one a product, with no bid yet. An error, and nothing is changed, where the row is
    /// longer or shorter, or else 128 rounds are there.
    pub fn add_round(&mut self, prices: &[u32]) -> Result<(), RoundError>
        ensures value { is_ok result ≡ takes_round self.old.products (rounds self.old) prices.now }
        ensures error { result_err result ≡ round_error self.old.products (rounds self.old) prices.now }
        ensures after { OnOk result (rounds self.new ≡ opened (rounds self.old) prices.now) }
        ensures same { self.new.products ≡ self.old.products }
        ensures refused { OnErr result (self.new ≡ self.old) }
    {
        if prices.len() != self.products {
            return Err(RoundError::RowLength);
        }
        let latest = self.rounds;
        if latest >= 128 {
            return Err(RoundError::TooManyRounds);
        }
        self.played[latest] = Round {
            prices: cells_of(prices, 0),
            bid: None,
        };
        self.rounds = latest + 1;
        Ok(())
    }

    // The latest round, if there is one.
    fn latest(&self) -> Option<usize>
        ensures { MatchOption result (self.now.rounds ≡ 0) (λ t. t + 1 ≡ self.now.rounds) }
    {
        self.rounds.checked_sub(1)
    }

    // The latest round, where this row can be its bid.
    fn free_round(&self, row: &[u8]) -> Result<usize, BidError>
        ensures error { result_err result ≡ bid_error self.now.products (rounds self.now) row.now }
        ensures latest { IfOk result (λ t. t + 1 ≡ self.now.rounds) }
    {
        if row.len() != self.products {
            return Err(BidError::RowLength);
        }
        let latest = self.latest().ok_or(BidError::NoRound)?;
        match self.played[latest].bid {
            Some(_) => Err(BidError::BidStands),
            None => Ok(latest),
        }
    }

    /// Sets the bid of the latest round, and answers the place of its package on the roll; a package that is not there
    /// yet comes last. An error, and nothing is changed, where the row does not have one quantity a product, or there is no
    /// round, or it has a bid, in this order.
    pub fn set_bid(&mut self, row: &[u8]) -> Result<usize, BidError>
        ensures value { is_ok result ≡ takes_bid self.old.products (rounds self.old) row.now }
        ensures error { result_err result ≡ bid_error self.old.products (rounds self.old) row.now }
        ensures place { IfOk result (λ place. Placed (roll (rounds self.new)) row.now (Some place)) }
        ensures after { OnOk result (rounds self.new ≡ offered (rounds self.old) row.now) }
        ensures enrols { OnOk result (roll (rounds self.new) ≡ enrolled (roll (rounds self.old)) (Some row.now)) }
        ensures same { self.new.products ≡ self.old.products }
        ensures refused { OnErr result (self.new ≡ self.old) }
    {
        let latest = self.free_round(row)?;
        let cells = cells_of(row, 0);
        let place = self.place_of(&cells).unwrap_or(self.packages);
        self.rows[place] = cells;
        self.packages = self.packages.max(place + 1);
        self.played[latest].bid = Some(place);
        Ok(place)
    }

    // Whether the package at `place` stood before round `t`.
    fn stood_before(&self, place: usize, t: usize) -> bool
        requires { t ≤ self.now.rounds }
        ensures { MatchBool result ((s : ℕ) × (s < t) × (bid_of self.now.played s ≡ Some place)) ((s : ℕ) → s < t → bid_of self.now.played s ≢ Some place) }
    {
        self.played[..t]
            .iter()
            .any(|round| round.bid == Some(place))
    }

    // How many packages stood before the latest round, in which the one at `place` does.
    fn packages_before(&self, latest: usize, place: usize) -> usize
        requires { (latest + 1 ≡ self.now.rounds) × (bid_of self.now.played latest ≡ Some place) }
        ensures few { result ≤ self.now.packages }
        ensures value { roll (rounds_of self.now.products self.now.rows self.now.played latest) ≡ packages_of self.now.products self.now.rows result }
        ensures within { (t a : ℕ) → t < latest → bid_of self.now.played t ≡ Some a → a < result }
    {
        if self.stood_before(place, latest) {
            self.packages
        } else {
            self.packages - 1
        }
    }

    // A `bool`, as `HashSet::remove` gives: no value goes with it.
    /// Takes the bid of the latest round away, and its place on the roll where the package stood only there. False, and
    /// nothing is changed, where there is none.
    pub fn clear_bid(&mut self) -> bool
        ensures value { result ≡ has_bid (rounds self.old) }
        ensures after { result ≡ true → rounds self.new ≡ unbid (rounds self.old) }
        ensures same { self.new.products ≡ self.old.products }
        ensures refused { result ≡ false → self.new ≡ self.old }
    {
        let Some(latest) = self.latest() else {
            return false;
        };
        let Some(place) = self.played[latest].bid else {
            return false;
        };
        self.packages = self.packages_before(latest, place);
        self.played[latest].bid = None;
        true
    }
}
