//! The rounds of a sale and their bids, in tables of fixed size, so that no call can fail for want of memory.
ghost use Rattle.std.specs.Prelude.{◌≡◌, ℕ, ◌<◌, ◌≤◌, true, Some};
ghost use Rattle.chains.specs.Rounds.{roll};
ghost use Rattle.tables.specs.Tables.{bid_of, packages_of, rounds_fit, rounds_of};

// A round as it is kept: its prices, in the first cells, and its bid, by the place of its package on the roll.
#[derive(Clone, Copy)]
struct Round {
    prices: [u32; 16],
    bid: Option<usize>,
}

// Counts beside arrays of fixed size: a table is copied whole, and an array that keeps its own length is no `Copy`.
/// The rounds of a sale, the packages on its roll and the bids. A row is the first cells, one a product.
#[derive(Clone, Copy)]
pub struct Table {
    products: usize,
    rounds: usize,
    packages: usize,
    played: [Round; 128],
    rows: [[u8; 16]; 128],
    ghost few_products: { products ≤ 16 },
    ghost few_rounds: { rounds ≤ 128 },
    ghost few_packages: { packages ≤ 128 },
    ghost within: { (t a : ℕ) → t < rounds → bid_of played t ≡ Some a → a < packages },
    ghost enrolled: { roll (rounds_of products rows played rounds) ≡ packages_of products rows packages },
    ghost fits: { rounds_fit products (rounds_of products rows played rounds) ≡ true },
}

pub mod access;
mod build;
mod counts;
mod errors;
mod roll;
mod rows;
mod sheet;

pub use errors::{BidError, RoundError};
