//! Money in whole units, with notches to tell equal amounts apart.

ghost use Rattle.worth.specs.Models.{plain, strict};
ghost use Rattle.worth.specs.Says.{ExactSum};
ghost use Rattle.worth.specs.ModelsLemmas.{strict_laws};

use crate::{OrderedWorth, Worth};

/// An amount of money and a number of notches, which count only where the money is the same.
#[derive(Clone, Copy, PartialEq, Eq, PartialOrd, Ord, Default, Debug)]
pub struct StrictMoney {
    pub money: i64,
    pub notches: i64,
}

impl Worth for StrictMoney {
    ghost group = { strict };

    ghost meaning = { λ m. (m.money, m.notches) };

    ghost laws = { strict_laws };

    fn zero() -> StrictMoney {
        StrictMoney::default()
    }

    fn sum(&self, other: &StrictMoney) -> StrictMoney {
        StrictMoney {
            money: part_sum(self.money, other.money),
            notches: part_sum(self.notches, other.notches),
        }
    }

    fn opposite(&self) -> StrictMoney {
        StrictMoney {
            money: self.money.saturating_neg(),
            notches: self.notches.saturating_neg(),
        }
    }
}

// Two parts together, which stop at the ends of their type.
fn part_sum(a: i64, b: i64) -> i64
    ensures exact { ExactSum plain (λ d. d) a b result }
{
    a.saturating_add(b)
}

impl OrderedWorth for StrictMoney {
    fn below(&self, other: &StrictMoney) -> bool {
        self < other
    }

    fn amount(d: i64) -> StrictMoney {
        StrictMoney {
            money: d,
            ..Self::zero()
        }
    }

    fn notch() -> StrictMoney {
        StrictMoney {
            notches: 1,
            ..Self::zero()
        }
    }

    fn tell(&self) -> (i64, i64) {
        (self.money, self.notches)
    }
}
