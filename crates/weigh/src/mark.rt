//! What a search holds of each package.

ghost use Rattle.std.specs.Prelude.{◌≡◌, ℕ};
ghost use Rattle.weigh.specs.Reads.{Unfinished, state};

use worth::{OrderedWorth, Worth};

// What a search holds of a package: its worth so far, the turn in which it was finished (0 where it was not, as the
// theory of searches counts), and its link, the place and round of the step that led to it. Before a step has led to it, the
// link means nothing.
#[derive(Clone, Copy)]
pub(crate) struct Mark<W> {
    pub(crate) worth: W,
    pub(crate) turn: u8,
    pub(crate) from: u8,
    pub(crate) round: u8,
}

// Writes the marks of packages at these worths, over marks by which nothing is finished. The array is
// lent: one that is handed back is copied on the way.
pub(crate) fn marks_at<W: OrderedWorth>(worths: &[W; 128], marks: &mut [Mark<W>; 128])
    requires { (y : ℕ) → (state W.Worth.group W.Worth.meaning marks.old).turn y ≡ 0 }
    ensures { Unfinished W.Worth.group W.Worth.meaning worths.now marks.new }
{
    // By place: of what is written through an adapter of `iter_mut` no proof knows anything.
    for (y, worth) in worths.iter().enumerate() {
        marks[y].worth = *worth;
    }
}
