//! Money in whole units.

ghost use Rattle.worth.specs.Models.{plain};
ghost use Rattle.worth.specs.ModelsLemmas.{plain_laws};

use crate::{OrderedWorth, Worth};

/// An amount of money, with no notches.
#[derive(Clone, Copy, PartialEq, Eq, PartialOrd, Ord, Default, Debug)]
pub struct PlainMoney {
    pub value: i64,
}

impl Worth for PlainMoney {
    ghost group = { plain };

    ghost meaning = { λ m. m.value };

    ghost laws = { plain_laws };

    fn zero() -> PlainMoney {
        PlainMoney::default()
    }

    fn sum(&self, other: &PlainMoney) -> PlainMoney {
        PlainMoney {
            value: self.value.saturating_add(other.value),
        }
    }

    fn opposite(&self) -> PlainMoney {
        PlainMoney {
            value: self.value.saturating_neg(),
        }
    }
}

impl OrderedWorth for PlainMoney {
    fn below(&self, other: &PlainMoney) -> bool {
        self < other
    }

    fn amount(d: i64) -> PlainMoney {
        PlainMoney { value: d }
    }

    fn notch() -> PlainMoney {
        Self::zero()
    }

    fn tell(&self) -> (i64, i64) {
        (self.value, 0)
    }
}
