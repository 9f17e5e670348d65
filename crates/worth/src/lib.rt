//! Kinds of worth: values that add, and values that are also judged.

#![tactic(auto)]

ghost use Rattle.std.specs.Prelude.{◌≡◌};
ghost use Rattle.worth.specs.Group.{Group, Laws};
ghost use Rattle.worth.specs.Says.{ExactSum, ExactDifference, ExactOpposite, ExactAmount, less_of, smaller_of};
ghost use Rattle.worth.specs.Totals.{ExactTotal};

mod plain;
mod strict;

pub use plain::PlainMoney;
pub use strict::StrictMoney;

/// A kind of value that adds.
///
/// A value means an element of an unlimited group. No call wraps or fails: a result is exact where the sizes are
/// small, and may be any value elsewhere.
pub trait Worth: Copy {
    ghost group: { Group };

    ghost meaning: { Self → group.Carrier };

    /// The value that adds nothing.
    fn zero() -> Self
        ensures value { meaning result ≡ group.zero };

    /// The two values together, exact where their sizes come to at most 2^60.
    fn sum(&self, other: &Self) -> Self
        ensures exact { ExactSum group meaning self.now other.now result };

    /// The value that makes zero together with this one, exact where the size is at most 2^60.
    fn opposite(&self) -> Self
        ensures exact { ExactOpposite group meaning self.now result };

    ghost laws: { Laws group };
}

/// A kind of worth that can be judged: compared, made from an amount of money, and told.
pub trait OrderedWorth: Worth {
    /// Whether this value is below the other.
    fn below(&self, other: &Self) -> bool
        ensures value { result ≡ less_of Self.Worth.group Self.Worth.meaning self.now other.now };

    /// An amount of money, exact up to 10^15 either way.
    fn amount(d: i64) -> Self
        ensures exact { ExactAmount Self.Worth.group Self.Worth.meaning d result };

    /// The notch: the lead that a chosen package must have over every other.
    fn notch() -> Self
        ensures value { Self.Worth.meaning result ≡ Self.Worth.group.notch };

    /// The two whole numbers by which this value is told.
    fn tell(&self) -> (i64, i64)
        ensures value { result ≡ Self.Worth.group.tell (Self.Worth.meaning self.now) };
}

/// The values together, exact where their sizes come to at most 2^60.
pub fn total<W: Worth>(values: &[W]) -> W
    ensures exact { ExactTotal W.Worth.group W.Worth.meaning values.now result }
{
    let mut all = W::zero();
    for value in values {
        all = all.sum(value);
    }
    all
}

/// `a` without `b`, exact where their sizes come to at most 2^60.
pub fn difference<W: Worth>(a: &W, b: &W) -> W
    ensures exact { ExactDifference W.Worth.group W.Worth.meaning a.now b.now result }
{
    a.sum(&b.opposite())
}

/// The smaller of the two, and `a` where they are equal.
pub fn smaller<W: OrderedWorth>(a: &W, b: &W) -> W
    ensures value { result ≡ smaller_of W.Worth.group W.Worth.meaning a.now b.now }
{
    if b.below(a) { *b } else { *a }
}
