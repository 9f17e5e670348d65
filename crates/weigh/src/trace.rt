//! The chain around that a search has closed.

ghost use Rattle.std.specs.Prelude.{◌≡◌, ℕ, ◌<◌, ◌≤◌, List, length, take, drop, reverse};
ghost use Rattle.chains.specs.Numbers.{in_numbers};
ghost use Rattle.chains.specs.Rounds.{Round};
ghost use Rattle.weigh.specs.Reads.{state};
ghost use Rattle.weigh.specs.Traces.{Closed, TracedOut};

use crate::mark::Mark;
use crate::search::Closing;
use paths::Step;
use worth::{OrderedWorth, Worth};

// A step between places in a round, by the numbers that a merchant sees: these count from 1.
fn numbered(from: u8, to: u8, round: u8) -> Step
    ensures { from < 255 → to < 255 → round < 255 → result ≡ in_numbers (record { from = from; to = to; round = round }) }
{
    Step {
        from: from.saturating_add(1),
        to: to.saturating_add(1),
        round: round.saturating_add(1),
    }
}

// Writes the chain around from `x`, from its last step to its first: the one that closes it, and then the links back.
pub(crate) fn trace_back<W: OrderedWorth>(
    marks: &[Mark<W>],
    x: usize,
    closing: Closing,
    chain: &mut [Step],
) -> usize
    requires { (128 ≤ length chain.old) × ((128 ≤ length marks.now) × (x < 128)) }
    ensures few { result ≤ 128 }
    ensures long { length chain.new ≡ length chain.old }
    ensures rest { drop result chain.new ≡ drop result chain.old }
    ensures route { (R : List Round) (t : ℕ) → Closed W.Worth.group R x t (state W.Worth.group W.Worth.meaning marks.now) closing.last closing.round → TracedOut W.Worth.group R x t (reverse (take result chain.new)) }
{
    chain[0] = numbered(closing.last as u8, x as u8, closing.round as u8);
    let mut to = closing.last;
    // By place: of what is written through an adapter of `iter_mut` no proof knows anything.
    for n in 1..128 {
        if to == x || to >= 128 {
            return n;
        }
        let from = marks[to].from;
        chain[n] = numbered(from, to as u8, marks[to].round);
        to = from as usize;
    }
    128
}
