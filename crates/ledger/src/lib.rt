//! The ledger of one merchant's book: what was handed to the book, which refusal each call gets, and what a met call
//! changes, by definitions and laws.

#![tactic(auto)]

ghost use Rattle.ledger.specs.Laws.{LedgerLaws};

use worth::Worth;

pub mod refusal;
pub mod state;

/// The laws of ledgers, at every kind: a theorem, whose proof is this function's.
pub fn ledger_stands<W: Worth>()
    ensures { LedgerLaws W.Worth.group }
{}
