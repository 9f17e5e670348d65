//! The search for the worths that one more bid lowers: shortest paths over reduced lengths.

ghost use Rattle.std.specs.Prelude.{◌≡◌, ◌+◌, ◌<◌, ◌≤◌, length};
ghost use Rattle.weigh.specs.Queues.{Fit};

use crate::mark::Mark;
use crate::steps::{cost_at, step_between};
use crate::trace::trace_back;
use crate::trial::Trial;
use paths::Step;
use queue::{Entry, Queue};
use worth::{OrderedWorth, Worth, difference};

// A step from `last` in `round` leads back to the bid's package, below its worth.
#[derive(Clone, Copy)]
pub(crate) struct Closing {
    pub(crate) last: usize,
    pub(crate) round: usize,
    ghost few_packages: { last < 128 },
    ghost few_rounds: { round < 128 },
}

// A search from the worths before the bid: the marks of the packages by their places, and the queue of those that wait.
// The rows are slices: where arrays were tried, the borrow checker did not cover an element behind the `&mut`, and the reads
// of `before` did not prove.
#[derive(Drop)]
pub(crate) struct Search<'s, 'h, W: OrderedWorth> {
    trial: Trial<'s, W>,
    before: &'s [W],
    marks: &'s mut [Mark<W>],
    queue: Queue<'h, W>,
    ghost covered: { 128 ≤ length before.now },
    ghost marked: { 128 ≤ length marks.now },
    ghost fit: { Fit W.Worth.group W.Worth.meaning trial.table.now.packages queue },
}

// The turn past the last: there is one for each place.
fn turns_end(places: usize) -> usize
    requires { places ≤ 128 }
    ensures { result ≡ places + 1 }
{
    1 + places
}

// How many packages fell before this turn: all that were finished, but the first.
fn fallen_before(turn: usize) -> usize
    requires { 2 ≤ turn }
    ensures { result + 2 ≡ turn }
{
    turn - 2
}

// What is asked of a place or a round is a fact of one call's argument, and `same` of what a call leaves: a type can say
// neither. A place and a round are handed on as two numbers, as the theory of searches takes them.
impl<'s, 'h, W: OrderedWorth> Search<'s, 'h, W> {
    ghost use Rattle.std.specs.Prelude.{ℕ, ◌^◌, IfSome, List, take, drop, ◌==◌};
    ghost use Rattle.chains.specs.Places.{package_at};
    ghost use Rattle.chains.specs.Rounds.{Round, round};
    ghost use Rattle.chains.specs.Rows.{cost};
    ghost use Rattle.paths.specs.Queued.{Enters, Leaves};
    ghost use Rattle.queue.specs.Contents.{key_of};
    ghost use Rattle.paths.specs.Searching.{Finish, Put};
    ghost use Rattle.tables.specs.Known.{worths};
    ghost use Rattle.tables.specs.View.{rounds};
    ghost use Rattle.weigh.specs.Queues.{keys};
    ghost use Rattle.weigh.specs.Reads.{Offers, state, Unfinished};
    ghost use Rattle.weigh.specs.Searches.{Fresh, Inside, Looked, LookedAll, Same, Searched};
    ghost use Rattle.worth.specs.Says.{Below};
    ghost use Rattle.weigh.specs.Traces.{Closed, TracedOut};

    // A search in which nothing but the bid's package is finished, and nothing waits.
    pub(crate) fn new(
        trial: Trial<'s, W>,
        before: &'s [W],
        marks: &'s mut [Mark<W>],
        heap: &'h mut [Entry<W>],
    ) -> Search<'s, 'h, W>
        requires long { (128 ≤ length before.now) × ((128 ≤ length marks.old) × (128 ≤ length heap.old)) }
        requires unfinished { Unfinished W.Worth.group W.Worth.meaning before.now marks.old }
        ensures trial { result.trial ≡ trial.entry }
        ensures before { result.before.now ≡ before.now }
        ensures fresh { Fresh W.Worth.group W.Worth.meaning result }
    {
        marks[trial.place].turn = 1;
        Search {
            trial,
            before,
            marks,
            queue: Queue::new(heap),
        }
    }

    // Place `z` is put at `worth`, with a link from `a` in round `s`.
    fn link(&mut self, z: usize, worth: W, a: usize, s: usize)
        requires { (z < 128) × ((a < 128) × (s < 128)) }
        ensures same { Same self.old self.new }
        ensures queue { self.new.queue ≡ self.old.queue }
        ensures puts { Put W.Worth.group (state W.Worth.group W.Worth.meaning self.old.marks.now) (state W.Worth.group W.Worth.meaning self.new.marks.now) z (W.Worth.meaning worth) a s }
    {
        let marks = &mut *self.marks;
        marks[z] = Mark {
            worth,
            from: a as u8,
            round: s as u8,
            ..marks[z]
        };
    }

    // Place `z` waits with this key, or with the one that it has, whichever is smaller.
    fn wait(&mut self, z: usize, key: W)
        requires { z < self.old.trial.table.now.packages }
        ensures same { Same self.old self.new }
        ensures marks { self.new.marks ≡ self.old.marks }
        ensures enters { ((k : W) → key_of self.old.queue z ≡ Some k → Below W.Worth.group (W.Worth.meaning key) (W.Worth.meaning k)) → Enters W.Worth.group (keys W.Worth.group W.Worth.meaning self.old.queue) (keys W.Worth.group W.Worth.meaning self.new.queue) z (W.Worth.meaning key) }
    {
        // There is room for each package.
        self.queue.put(z, key).unwrap();
    }

    // The package at place `y` is finished in this turn.
    fn finish(&mut self, y: usize, turn: usize)
        requires { (y < 128) × (turn < 256) }
        ensures same { Same self.old self.new }
        ensures queue { self.new.queue ≡ self.old.queue }
        ensures finishes { Finish W.Worth.group (state W.Worth.group W.Worth.meaning self.old.marks.now) (state W.Worth.group W.Worth.meaning self.new.marks.now) y turn }
    {
        let marks = &mut *self.marks;
        marks[y].turn = turn as u8;
    }

    // Whether a step to place `z` leads back to the bid's package.
    fn leads_back(&self, z: usize) -> bool
        ensures { result ≡ (z == self.now.trial.place) }
    {
        z == self.trial.place
    }

    // The worth that place `z` is offered by a step from place `a` in round `s`, where `a` costs `base`.
    fn offered(&self, base: u64, a: usize, s: usize, z: usize) -> W
        requires within { (s < self.now.trial.table.now.rounds) × ((a < self.now.trial.table.now.packages) × (z < self.now.trial.table.now.packages)) }
        requires base { (base ≡ cost (package_at (rounds self.now.trial.table.now) a) (round (rounds self.now.trial.table.now) s).prices) × (base ≤ 2 ^ 44) }
        ensures { Offers W.Worth.group W.Worth.meaning (rounds self.now.trial.table.now) self.now.marks.now a s z result }
    {
        let far: W = step_between(base, cost_at(self.trial.table, s, z));
        let from = self.marks[a].worth;
        from.sum(&far)
    }

    // Whether `worth` is below what place `z` is held at.
    fn undercuts(&self, worth: &W, z: usize) -> bool
        requires { z < 128 }
        ensures { result ≡ W.Worth.group.less (W.Worth.meaning worth.now) ((state W.Worth.group W.Worth.meaning self.now.marks.now).dist z) }
    {
        let held = self.marks[z].worth;
        worth.below(&held)
    }

    // How far place `z` fell, to `worth`.
    fn fallen(&self, worth: &W, z: usize) -> W
        requires { z < 128 }
        ensures { W.Worth.group.size (W.Worth.meaning worth.now) ≤ 2 ^ 59 → W.Worth.group.size (worths W.Worth.group W.Worth.meaning self.now.before.now z) ≤ 2 ^ 59 → W.Worth.meaning result ≡ W.Worth.group.add (W.Worth.meaning worth.now) (W.Worth.group.neg (worths W.Worth.group W.Worth.meaning self.now.before.now z)) }
    {
        let before = self.before[z];
        difference(worth, &before)
    }

    // Looks at the steps from place `a` in round `s`. A package that one leads below is put there, unless it is the
    // bid's: then that step closes a chain around.
    fn relax(&mut self, a: usize, s: usize) -> Result<(), Closing>
        requires { (a < self.old.trial.table.now.packages) × (s < self.old.trial.table.now.rounds) }
        ensures { Looked W.Worth.group W.Worth.meaning self.old self.new a s result }
    {
        let table = self.trial.table;
        let base = cost_at(table, s, a);
        // By its number, which is handed on: a package is known by its place.
        for z in 0..table.packages() {
            if z != a {
                let worth = self.offered(base, a, s, z);
                if self.undercuts(&worth, z) {
                    if self.leads_back(z) {
                        return Err(Closing { last: a, round: s });
                    }
                    let key = self.fallen(&worth, z);
                    self.wait(z, key);
                    self.link(z, worth, a, s);
                }
            }
        }
        Ok(())
    }

    // Looks at the steps from place `y` in each round before the latest in which its package stood.
    fn relax_all(&mut self, y: usize) -> Result<(), Closing>
        requires { y < self.old.trial.table.now.packages }
        ensures { LookedAll W.Worth.group W.Worth.meaning self.old self.new y result }
    {
        let table = self.trial.table;
        // By its number, which is handed on: a link names its round.
        for s in 0..table.rounds() - 1 {
            if table.bid_in(s) == Some(y) {
                self.relax(y, s)?;
            }
        }
        Ok(())
    }

    // The foremost of the packages that wait leaves the queue.
    fn next(&mut self) -> Option<usize>
        ensures same { Same self.old self.new }
        ensures marks { self.new.marks ≡ self.old.marks }
        ensures on { IfSome result (λ y. y < self.old.trial.table.now.packages) }
        ensures leaves { Leaves W.Worth.group (keys W.Worth.group W.Worth.meaning self.old.queue) (keys W.Worth.group W.Worth.meaning self.new.queue) result }
    {
        self.queue.take().map(|first| first.package)
    }

    // Weighs the bid against the worths before it: so many packages fell, or a step closes a chain around.
    pub(crate) fn run(&mut self) -> Result<usize, Closing>
        requires { Fresh W.Worth.group W.Worth.meaning self.old }
        ensures same { Same self.old self.new }
        ensures within { Inside self.old.trial.table.now result }
        ensures searched { Searched W.Worth.group W.Worth.meaning self.old self.new result }
    {
        let table = self.trial.table;
        let place = self.trial.place;
        self.relax(place, table.rounds() - 1)?;
        let end = turns_end(table.packages());
        // By its number, which a mark keeps: nothing is indexed by it.
        for turn in 2..end {
            match self.next() {
                None => return Ok(fallen_before(turn)),
                Some(y) => {
                    self.finish(y, turn);
                    self.relax_all(y)?;
                }
            }
        }
        Ok(fallen_before(end))
    }

    // Writes the worth of each package.
    pub(crate) fn write_worths(&self, after: &mut [W])
        requires { 128 ≤ length after.old }
        ensures long { length after.new ≡ length after.old }
        ensures rest { drop self.now.trial.table.now.packages after.new ≡ drop self.now.trial.table.now.packages after.old }
        ensures written { (y : ℕ) → y < self.now.trial.table.now.packages → worths W.Worth.group W.Worth.meaning after.new y ≡ (state W.Worth.group W.Worth.meaning self.now.marks.now).dist y }
    {
        let n = self.trial.table.packages();
        // By place: of what is written through an adapter of `iter_mut` no proof knows anything.
        for (y, mark) in self.marks[..n].iter().enumerate() {
            after[y] = mark.worth;
        }
    }

    // Writes the chain around that this step closes: it is found from the last step to the first, and then turned round.
    pub(crate) fn trace(&self, closing: Closing, chain: &mut [Step]) -> usize
        requires { 128 ≤ length chain.old }
        ensures few { result ≤ 128 }
        ensures long { length chain.new ≡ length chain.old }
        ensures rest { drop result chain.new ≡ drop result chain.old }
        ensures route { (R : List Round) (t : ℕ) → Closed W.Worth.group R self.now.trial.place t (state W.Worth.group W.Worth.meaning self.now.marks.now) closing.last closing.round → TracedOut W.Worth.group R self.now.trial.place t (take result chain.new) }
    {
        let n = trace_back(self.marks, self.trial.place, closing, chain);
        chain[0..n].reverse();
        n
    }
}
