//! One more bid, as it is weighed.

ghost use Rattle.std.specs.Prelude.{◌<◌, ◌≤◌, length};

use crate::answer::{Held, Refused};
use crate::mark::{Mark, marks_at};
use crate::search::Search;
use paths::Step;
use queue::Entry;
use tables::table::Table;
use worth::{OrderedWorth, Worth};

// The bid of a table's latest round, for the package at `place`, against the others: `enrolled` packages were on the roll
// before it, and `inner` holds their inner worths.
#[derive(Drop)]
pub(crate) struct Trial<'t, W> {
    pub(crate) table: &'t Table,
    pub(crate) place: usize,
    pub(crate) enrolled: usize,
    pub(crate) inner: &'t [W],
    ghost on_roll: { place < table.now.packages },
    ghost some_round: { 0 < table.now.rounds },
    ghost covered: { 128 ≤ length inner.now },
}

impl<W: OrderedWorth> Trial<'_, W> {
    ghost use Rattle.std.specs.Prelude.{◌==◌};
    ghost use Rattle.tables.specs.View.{rounds};
    ghost use Rattle.weigh.specs.Trials.{WeighsTrial};

    // Weighs the bid.
    pub(crate) fn weigh(
        self,
        heap: &mut [Entry<W>],
        chain: &mut [Step],
        after: &mut [W],
    ) -> Result<Held, Refused>
        requires { (128 ≤ length heap.old) × ((128 ≤ length chain.old) × (128 ≤ length after.old)) }
        ensures { WeighsTrial W.Worth.group W.Worth.meaning (rounds self.entry.table.now) self.entry.place (self.entry.place == self.entry.enrolled) self.entry.inner.now (record { chain = chain.entry.now; worths = after.old }) (record { chain = chain.exit.now; worths = after.new }) result }
    {
        let mut before = [W::zero(); 128];
        self.worths_before(&mut before);
        let mut marks = [Mark {
            worth: W::zero(),
            turn: 0,
            from: 0,
            round: 0,
        }; 128];
        marks_at(&before, &mut marks);
        let place = self.place;
        let mut search = Search::new(self, &before, &mut marks, heap);
        match search.run() {
            Ok(moved) => {
                search.write_worths(after);
                Ok(Held {
                    package: place + 1,
                    moved,
                })
            }
            Err(closing) => {
                let steps = search.trace(closing, chain);
                Err(Refused::Contradiction { steps })
            }
        }
    }
}
