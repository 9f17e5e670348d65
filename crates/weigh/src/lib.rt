//! One more bid against the inner worths of the standing ones.

#![tactic(auto)]

ghost use Rattle.weigh.specs.Weighing.{Weighs};

use paths::Step;
use queue::Entry;
use tables::table::Table;
use worth::{OrderedWorth, Worth};

mod answer;
mod entry;
mod mark;
mod search;
mod steps;
#[cfg(test)]
mod tests;
mod trace;
mod trial;

pub use answer::{Held, Refused};
use trial::Trial;

/// Weighs one more bid: `row` in the latest round of the table, which has no bid there yet, against the bids that stand.
///
/// `inner` are the inner worths of the packages on the roll, by their places. The bid is held exactly where some worths
/// make all bids and this one best choices: then the new inner worths are written from the start of `after`, one for
/// each package on the roll with the bid. Otherwise a chain of the merchant's own bids that forbids it is written from
/// the start of `chain`. Each memory must hold at least 128. The table is only read, and nothing else is written but
/// `heap`, which may then hold anything.
pub fn weigh<W: OrderedWorth>(
    table: &Table,
    row: &[u8],
    inner: &[W],
    heap: &mut [Entry<W>],
    chain: &mut [Step],
    after: &mut [W],
) -> Result<Held, Refused>
    ensures weighs { Weighs W.Worth.group W.Worth.meaning table.now row.now inner.now heap.old heap.new (record { chain = chain.entry.now; worths = after.old }) (record { chain = chain.exit.now; worths = after.new }) result }
{
    let shortest = inner
        .len()
        .min(heap.len().min(chain.len().min(after.len())));
    if shortest < 128 {
        return Err(Refused::ShortMemory);
    }
    let mut later = *table;
    let place = later.set_bid(row)?;
    let trial = Trial {
        table: &later,
        place,
        enrolled: table.packages(),
        inner,
    };
    trial.weigh(heap, chain, after)
}
