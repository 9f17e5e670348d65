//! The worths that a search starts from.

ghost use Rattle.std.specs.Prelude.{◌==◌};
ghost use Rattle.chains.specs.Places.{Earlier, graph_of};
ghost use Rattle.paths.specs.Entry.{Entry};
ghost use Rattle.tables.specs.Known.{worths};
ghost use Rattle.tables.specs.View.{rounds};
ghost use Rattle.weigh.specs.Starts.{SmallBefore};
ghost use Rattle.weigh.specs.Trials.{Before};

use crate::steps::{cost_at, step_between};
use crate::trial::Trial;
use worth::{OrderedWorth, Worth, smaller};

impl<W: OrderedWorth> Trial<'_, W> {
    // The worth with which the bid's package comes in: the least of zero and of what each step to it comes to, in the
    // rounds before the latest, from a package at its inner worth.
    fn entry(&self) -> W
        ensures { SmallBefore W.Worth.group W.Worth.meaning (rounds self.now.table.now) self.now.inner.now → Entry W.Worth.group (graph_of W.Worth.group (rounds self.now.table.now)) (Earlier (rounds self.now.table.now)) (worths W.Worth.group W.Worth.meaning self.now.inner.now) self.now.place (W.Worth.meaning result) }
    {
        let mut least = W::zero();
        // By its number: a table tells the bid and the costs of a round by it.
        for s in 0..self.table.rounds() - 1 {
            if let Some(a) = self.table.bid_in(s) {
                let far: W = step_between(
                    cost_at(self.table, s, a),
                    cost_at(self.table, s, self.place),
                );
                least = smaller(&least, &self.inner[a].sum(&far));
            }
        }
        least
    }

    // Writes the worths before the bid: the inner worths, and where its package is new, the one with which it comes in. The
    // array is lent: one that is handed back is copied on the way.
    pub(crate) fn worths_before(&self, before: &mut [W; 128])
        ensures { Before W.Worth.group W.Worth.meaning (rounds self.now.table.now) self.now.place (self.now.place == self.now.enrolled) self.now.inner.now (worths W.Worth.group W.Worth.meaning before.new) }
    {
        *before = *self.inner.first_chunk().unwrap();
        if self.place == self.enrolled {
            before[self.place] = self.entry();
        }
    }
}
