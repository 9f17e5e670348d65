ghost use Rattle.std.specs.Prelude.{◌≡◌, ℕ, ◌<◌, ◌≤◌, min, length, drop, slice_index_or};
ghost use Rattle.chains.specs.Rounds.{roll};
ghost use Rattle.tables.specs.Known.{Known, LeadAt, RiseIs, SheetWritten, larger_of};
ghost use Rattle.tables.specs.Tables.{blank};
ghost use Rattle.tables.specs.View.{rounds};
ghost use Rattle.worth.specs.Says.{ExactSum};

use super::{Round, Table};
use crate::cost::cost_of;
use worth::{OrderedWorth, Worth, difference};

// The larger of two values that are there, and the first where they are equal.
fn larger<W: OrderedWorth>(a: Option<W>, b: Option<W>) -> Option<W>
    ensures { result ≡ larger_of W.Worth.group W.Worth.meaning a b }
{
    match (a, b) {
        (None, b) => b,
        (a, None) => a,
        (Some(x), Some(y)) => { if x.below(&y) { Some(y) } else { Some(x) } }
    }
}

// Writes the worths of the first `packages` packages, and answers how many there were and fitted.
fn write_worths<W: OrderedWorth>(inner: &[W], rise: &W, packages: usize, sheet: &mut [W]) -> usize
    ensures value { result ≡ min packages (min (length inner.now) (length sheet.old)) }
    ensures each { (k : ℕ) (d : W) → k < result → ExactSum W.Worth.group W.Worth.meaning (slice_index_or inner.now k d) rise.now (slice_index_or sheet.new k d) }
    ensures rest { drop result sheet.new ≡ drop result sheet.old }
{
    let count = packages.min(inner.len().min(sheet.len()));
    // By place: through a zipped `iter_mut` no proof follows what is written.
    for (k, worth) in inner[..count].iter().enumerate() {
        sheet[k] = worth.sum(rise);
    }
    count
}

// Whether values are the inner worths no test tells, and no call asks for more than it tests: so `Known` is a premise of
// clauses, and no invariant of a type.
impl Table {
    // What the bid of a round costs there, less the inner worth of its package.
    fn lead_in<W: OrderedWorth>(&self, inner: &[W], round: &Round) -> Option<W>
        ensures { (t : ℕ) → t < self.now.rounds → round.now ≡ slice_index_or self.now.played t blank → Known W.Worth.group W.Worth.meaning (rounds self.now) inner.now → LeadAt W.Worth.group W.Worth.meaning (rounds self.now) t result }
    {
        let place = round.bid?;
        let worth = inner.get(place)?;
        let cells = self.row(place)?;
        let cost = cost_of(cells, &round.prices, self.products);
        Some(difference(&W::amount(cost as i64), worth))
    }

    /// The rise, from the inner worths of the packages on the roll: the greatest, over all standing bids, of the bid's
    /// cost in its round less its package's inner worth. None where no package stands.
    pub fn rise<W: OrderedWorth>(&self, inner: &[W]) -> Option<W>
        ensures { Known W.Worth.group W.Worth.meaning (rounds self.now) inner.now → RiseIs W.Worth.group W.Worth.meaning (rounds self.now) result }
    {
        let mut most = None;
        for round in &self.played[..self.rounds] {
            most = larger(most, self.lead_in(inner, round));
        }
        most
    }

    /// Writes the sheet from the start of `sheet`, from the inner worths of the packages on the roll: the inner worth
    /// and the rise, for each package. Answers how many worths were written; what comes after them is unchanged.
    pub fn write_sheet<W: OrderedWorth>(&self, inner: &[W], sheet: &mut [W]) -> usize
        ensures after { Known W.Worth.group W.Worth.meaning (rounds self.now) inner.now → length (roll (rounds self.now)) ≤ length sheet.old → SheetWritten W.Worth.group W.Worth.meaning (rounds self.now) result sheet.new }
        ensures few { (result ≤ length (roll (rounds self.now))) × (result ≤ length sheet.old) }
        ensures rest { drop result sheet.new ≡ drop result sheet.old }
    {
        match self.rise(inner) {
            None => 0,
            Some(rise) => write_worths(inner, &rise, self.packages, sheet),
        }
    }
}
