//! A priority queue of packages over lent memory.
//!
//! Each package that waits has a key, a worth of some kind. The package with the least key comes out first, and among
//! equal keys the one with the lowest number.

#![tactic(auto)]

ghost use Rattle.std.specs.Prelude.{◌≡◌, ◌≤◌, length, position, MatchOption, ◌==◌};

mod heap;

use heap::{append, lower, pop, undercuts};
use thiserror::Error;
use worth::OrderedWorth;

/// A package that waits, and its key.
#[derive(Clone, Copy)]
pub struct Entry<W> {
    pub package: usize,
    pub key: W,
}

/// What became of a package that was put in.
#[derive(Clone, Copy, PartialEq, Eq, Debug)]
pub enum Put {
    /// It waits now.
    Added,
    /// It waited with a larger key, and waits with the new one now.
    Lowered,
    /// It waited with a key that is no larger: nothing changed.
    Kept,
}

/// The package does not wait, and all of the memory does: nothing changed.
#[derive(Clone, Copy, PartialEq, Eq, Debug, Error)]
#[error("the memory is full")]
pub struct Full;

/// Packages that wait, in memory that was lent: a binary heap in the first `len` entries. The others mean nothing.
// The caller lends the memory, so the length stands beside a slice and not in a `Vec`. Heap order hangs on the kind, for
// which the type would then ask wherever it is named: so `Sound` is a premise and no invariant.
#[derive(Drop)]
pub struct Queue<'a, W> {
    entries: &'a mut [Entry<W>],
    len: usize,
    ghost within: { len ≤ length entries.now },
}

impl<'a, W: OrderedWorth> Queue<'a, W> {
    ghost use Rattle.queue.specs.Contents.{room, waiting, count};
    ghost use Rattle.queue.specs.Calls.{Made, PutIn, TakenOut, Nothing};

    /// A queue in which nothing waits, whatever the memory holds.
    pub fn new(entries: &'a mut [Entry<W>]) -> Queue<'a, W>
        ensures made { Made W.Worth.group W.Worth.meaning entries.old result }
    {
        Queue { entries, len: 0 }
    }

    /// How many packages wait.
    pub fn len(&self) -> usize
        ensures value { result ≡ count self.now }
        ensures within { result ≤ room self.now }
    {
        self.len
    }

    /// Whether nothing waits.
    pub fn is_empty(&self) -> bool
        ensures value { result ≡ (count self.now == 0) }
    {
        self.len == 0
    }

    // Whether all of the memory waits.
    fn is_full(&self) -> bool
        ensures value { result ≡ (count self.now == room self.now) }
    {
        self.len == self.entries.len()
    }

    // Where the package stands among those that wait.
    fn place(&self, package: usize) -> Option<usize>
        ensures value { result ≡ position (λ e. e.«package» == «package») (waiting self.now) }
    {
        self.entries[..self.len]
            .iter()
            .position(|e| e.package == package)
    }

    /// Lets the package wait with the key, or with the one that it has, whichever is smaller.
    pub fn put(&mut self, package: usize, key: W) -> Result<Put, Full>
        ensures done { PutIn W.Worth.group W.Worth.meaning self.old «package» key result self.new }
    {
        let entry = Entry { package, key };
        match self.place(package) {
            Some(i) => {
                let old = self.entries[i];
                if undercuts(&key, &old) {
                    lower(&mut self.entries[..self.len], i, entry);
                    Ok(Put::Lowered)
                } else {
                    Ok(Put::Kept)
                }
            }
            None if self.is_full() => Err(Full),
            None => {
                append(&mut self.entries[..self.len + 1], entry);
                self.len += 1;
                Ok(Put::Added)
            }
        }
    }

    /// Takes the first package out, if any waits.
    pub fn take(&mut self) -> Option<Entry<W>>
        ensures done { MatchOption result (Nothing self.old self.new) (λ e. TakenOut W.Worth.group W.Worth.meaning self.old e self.new) }
    {
        if self.is_empty() {
            return None;
        }
        let first = pop(&mut self.entries[..self.len]);
        self.len -= 1;
        Some(first)
    }
}
