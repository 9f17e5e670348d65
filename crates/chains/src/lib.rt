//! Rounds, packages, costs, steps, chains and sheets of a sale, by definitions and laws: what bids say of a merchant's worths.

#![tactic(auto)]

ghost use Rattle.chains.specs.Laws.{BidsStand, PlainSheet};

use worth::Worth;

/// The laws of chains, worths and sheets, at every kind: a theorem, whose proof is this function's.
pub fn bids_stand<W: Worth>()
    ensures { BidsStand W.Worth.group }
{}

/// The sheet at plain money makes each standing bid a best choice among all packages that exist.
pub fn plain_sheet_stands()
    ensures { PlainSheet }
{}
