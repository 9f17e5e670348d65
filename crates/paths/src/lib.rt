//! Chains of steps between packages, and what they say of the worths of packages. This crate is theory: what its
//! functions promise is proved of every kind of worth, and they do nothing.

#![tactic(auto)]

ghost use Rattle.paths.specs.Theorems.{Stands, Decides, Listed, HasGreatest};

use worth::Worth;

/// A step of a chain, from a package that stood in this round to another package.
#[derive(Clone, Copy, PartialEq, Eq, Debug)]
pub struct Step {
    pub from: u8,
    pub to: u8,
    pub round: u8,
}

/// Worths rise along a chain by at most its sum, inner worths are unique and explain the bids, and a chain around
/// below zero leaves no worths.
pub fn chains_stand<W: Worth>()
    ensures { Stands W.Worth.group }
{}

/// Some worths explain the bids exactly when no chain around is below zero.
pub fn chains_decide<W: Worth>()
    ensures { Decides W.Worth.group }
{}

/// Chains and lists of steps are the same.
pub fn chains_are_lists<W: Worth>()
    ensures { Listed W.Worth.group }
{}

/// Of finitely many worths, but not none, one is the greatest.
pub fn greatest_stands<W: Worth>()
    ensures { HasGreatest W.Worth.group }
{}
