//! What packages cost in a round, and the steps between them.

ghost use Rattle.std.specs.Prelude.{◌≡◌, ◌^◌, ◌<◌, ◌≤◌, List, ℕ};
ghost use Rattle.chains.specs.Places.{package_at};
ghost use Rattle.chains.specs.Rounds.{round};
ghost use Rattle.chains.specs.Rows.{cost};
ghost use Rattle.chains.specs.Steps.{step_at};
ghost use Rattle.tables.specs.View.{rounds};

use tables::table::Table;
use worth::{OrderedWorth, Worth, difference};

// What the package at place `a` costs in round `s`.
pub(crate) fn cost_at(table: &Table, s: usize, a: usize) -> u64
    requires { (s < table.now.rounds) × (a < table.now.packages) }
    ensures value { result ≡ cost (package_at (rounds table.now) a) (round (rounds table.now) s).prices }
    ensures bound { result ≤ 2 ^ 44 }
{
    table.cost_in(s, a).unwrap()
}

// The step from one package to another, by what each costs: a search computes the cost of the one once for all steps from it.
// `tables` has the same by rows; by costs it cannot be public, since only bounded costs can be taken from one another.
pub(crate) fn step_between<W: OrderedWorth>(from: u64, to: u64) -> W
    requires { (from ≤ 2 ^ 44) × (to ≤ 2 ^ 44) }
    ensures value { (x y prices : List ℕ) → from ≡ cost x prices → to ≡ cost y prices → W.Worth.meaning result ≡ step_at W.Worth.group x y prices }
    ensures bound { W.Worth.group.size (W.Worth.meaning result) ≤ 2 ^ 45 }
{
    difference(&W::amount(to as i64 - from as i64), &W::notch())
}
