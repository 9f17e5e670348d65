ghost use Rattle.std.specs.Prelude.{◌≡◌, min, [], length, take, option_and_then, option_copied, option_map};
ghost use Rattle.chains.specs.Rounds.{Placed, roll};
ghost use Rattle.tables.specs.Readings.{BidAt, CostAt, PackageAt, PricesAt, StepAt};
ghost use Rattle.tables.specs.Tables.{Found};
ghost use Rattle.tables.specs.View.{rounds};

use super::{Round, Table};
use crate::cost::{cost_of, step};
use worth::{OrderedWorth, Worth};

// The place of the first of these rows that begins with these cells.
fn place_among(rows: &[[u8; 16]], front: &[u8]) -> Option<usize>
    ensures { Found (length front.now) rows.now (length rows.now) front.now result }
{
    rows.iter().position(|cells| cells.starts_with(front))
}

impl Table {
    /// A table with no round yet, for a sale of so many products; more than 16 count as 16.
    pub fn new(products: usize) -> Table
        ensures { (rounds result ≡ []) × (result.products ≡ min products 16) }
    {
        Table {
            products: products.min(16),
            rounds: 0,
            packages: 0,
            played: [Round {
                prices: [0; 16],
                bid: None,
            }; 128],
            rows: [[0; 16]; 128],
        }
    }

    // Round `t` as it is kept, if it is there.
    pub(super) fn round(&self, t: usize) -> Option<&Round>
        ensures prices { PricesAt self.now.products (rounds self.now) t (option_map (λ r. r.now.prices) result) }
        ensures bid { BidAt (rounds self.now) t (option_and_then (λ r. r.now.bid) result) }
    {
        self.played[..self.rounds].get(t)
    }

    // The row at place `a` of the roll, if it is there.
    pub(super) fn row(&self, a: usize) -> Option<&[u8; 16]>
        ensures { PackageAt self.now.products (rounds self.now) a (option_copied result) }
    {
        self.rows[..self.packages].get(a)
    }

    /// The place of the package that stood in round `t`, counted from 0; none in a round with no bid and past the last.
    pub fn bid_in(&self, t: usize) -> Option<usize>
        ensures { BidAt (rounds self.now) t result }
    {
        self.round(t)?.bid
    }

    /// What the package at place `a` costs in round `t`; none where there is no such round or place.
    pub fn cost_in(&self, t: usize, a: usize) -> Option<u64>
        ensures { CostAt (rounds self.now) t a result }
    {
        let round = self.round(t)?;
        let cells = self.row(a)?;
        Some(cost_of(cells, &round.prices, self.products))
    }

    /// The step from place `a` to place `b` in round `t`; none where there is no such round or place.
    pub fn step_in<W: OrderedWorth>(&self, a: usize, b: usize, t: usize) -> Option<W>
        ensures { StepAt W.Worth.group W.Worth.meaning (rounds self.now) a b t result }
    {
        let round = self.round(t)?;
        let from = self.row(a)?;
        let to = self.row(b)?;
        Some(step(from, to, &round.prices, self.products))
    }

    /// The prices of round `t`, in the first cells; none where there is no such round.
    pub fn prices_in(&self, t: usize) -> Option<[u32; 16]>
        ensures { PricesAt self.now.products (rounds self.now) t result }
    {
        Some(self.round(t)?.prices)
    }

    /// The quantities of the package at place `a` of the roll, in the first cells; none where there is no such place.
    pub fn package_at(&self, a: usize) -> Option<[u8; 16]>
        ensures { PackageAt self.now.products (rounds self.now) a result }
    {
        self.row(a).copied()
    }

    /// The place on the roll of the package in the first cells of `row`, if it is there.
    pub fn place_of(&self, row: &[u8; 16]) -> Option<usize>
        ensures { Placed (roll (rounds self.now)) (take self.now.products row.now) result }
    {
        place_among(&self.rows[..self.packages], &row[..self.products])
    }
}
