//! A binary heap of entries in a slice: the entry that comes out first stands at the front. That a slice is in heap order is a
//! premise of what each function promises, since lent memory may hold any entries.

ghost use Rattle.std.specs.Prelude.{◌≡◌, ◌+◌, ◌-◌, ◌*◌, ◌/◌, ◌<◌, ◌≤◌, true, [], ◌∷◌, ◌++◌, length, take, if◌then◌else◌, slice_index_or, slice_set};
ghost use Rattle.heaps.specs.Heap.{parent, Rising, Sinking};
ghost use Rattle.queue.specs.Order.{ahead_of, Over, Heaped};
ghost use Rattle.std.specs.List.Sorted.{IsPermutation};
ghost use Rattle.worth.specs.Says.{less_of};

use crate::Entry;
use worth::OrderedWorth;

// Puts `e` in the place of the entry at `i`, and lets it rise.
pub(crate) fn lower<W: OrderedWorth>(s: &mut [Entry<W>], i: usize, e: Entry<W>)
    requires { i < length s.old }
    ensures shuffled { IsPermutation (slice_set s.old i e) s.new }
    ensures heap { ((d : Entry W) → ahead_of W.Worth.group W.Worth.meaning e (slice_index_or s.old i d) ≡ true) → Heaped W.Worth.group W.Worth.meaning s.old → Heaped W.Worth.group W.Worth.meaning s.new }
{
    s[i] = e;
    sift_up(s, i);
}

// Puts `e` into the last place, and lets it rise.
pub(crate) fn append<W: OrderedWorth>(s: &mut [Entry<W>], e: Entry<W>)
    requires { 0 < length s.old }
    ensures shuffled { IsPermutation (take (length s.old - 1) s.old ++ e ∷ []) s.new }
    ensures heap { Heaped W.Worth.group W.Worth.meaning (take (length s.old - 1) s.old) → Heaped W.Worth.group W.Worth.meaning s.new }
{
    let last = s.len() - 1;
    s[last] = e;
    sift_up(s, last);
}

// Takes the first entry out, and leaves the others in all but the last place.
pub(crate) fn pop<W: OrderedWorth>(s: &mut [Entry<W>]) -> Entry<W>
    requires { 0 < length s.old }
    ensures value { result ≡ slice_index_or s.old 0 result }
    ensures shuffled { IsPermutation s.old (result ∷ take (length s.old - 1) s.new) }
    ensures heap { Heaped W.Worth.group W.Worth.meaning s.old → Heaped W.Worth.group W.Worth.meaning (take (length s.old - 1) s.new) }
{
    let last = s.len() - 1;
    let first = s[0];
    s.swap(0, last);
    sift_down(&mut s[..last]);
    first
}

// Lets the entry at `at` rise to its place.
fn sift_up<W: OrderedWorth>(s: &mut [Entry<W>], at: usize)
    requires { at < length s.old }
    ensures shuffled { IsPermutation s.old s.new }
    ensures heap { Rising (Over W.Worth.group W.Worth.meaning) s.old at → Heaped W.Worth.group W.Worth.meaning s.new }
{
    // The place is halved at each step, so no range counts it.
    let mut i = at;
    while 0 < i {
        let above = (i - 1) / 2;
        if !ahead_at(s, i, above) {
            return;
        }
        s.swap(above, i);
        i = above;
    }
}

// Lets the first entry sink to its place.
fn sift_down<W: OrderedWorth>(s: &mut [Entry<W>])
    ensures shuffled { IsPermutation s.old s.new }
    ensures heap { Sinking (Over W.Worth.group W.Worth.meaning) s.old 0 → Heaped W.Worth.group W.Worth.meaning s.new }
{
    // The place is doubled at each step, so no range counts it.
    let mut i = 0;
    while i < s.len() / 2 {
        let child = first_child(s, i);
        if !ahead_at(s, child, i) {
            return;
        }
        s.swap(i, child);
        i = child;
    }
}

// The child of `i` that comes out before the other.
fn first_child<W: OrderedWorth>(s: &[Entry<W>], i: usize) -> usize
    requires { i < length s.now / 2 }
    ensures child { (0 < result) × (result < length s.now) × (parent result ≡ i) }
    ensures only { length s.now ≤ 2 * i + 2 → result ≡ 2 * i + 1 }
    ensures value { (d : Entry W) → 2 * i + 2 < length s.now → result ≡ (if ahead_of W.Worth.group W.Worth.meaning (slice_index_or s.now (2 * i + 2) d) (slice_index_or s.now (2 * i + 1) d) then 2 * i + 2 else 2 * i + 1) }
{
    let left = 2 * i + 1;
    let right = left + 1;
    if right < s.len() && ahead_at(s, right, left) {
        right
    } else {
        left
    }
}

// Whether the entry at `i` comes out before that at `j`.
fn ahead_at<W: OrderedWorth>(s: &[Entry<W>], i: usize, j: usize) -> bool
    requires { (i < length s.now) × (j < length s.now) }
    ensures value { (d : Entry W) → result ≡ ahead_of W.Worth.group W.Worth.meaning (slice_index_or s.now i d) (slice_index_or s.now j d) }
{
    ahead(&s[i], &s[j])
}

// Whether `a` comes out before `b`. Keys compare by what they mean, so no derived order would serve.
fn ahead<W: OrderedWorth>(a: &Entry<W>, b: &Entry<W>) -> bool
    ensures value { result ≡ ahead_of W.Worth.group W.Worth.meaning a.now b.now }
{
    if undercuts(&a.key, b) {
        return true;
    }
    if undercuts(&b.key, a) {
        return false;
    }
    a.package < b.package
}

// Whether the key is smaller than that of the entry.
pub(crate) fn undercuts<W: OrderedWorth>(key: &W, e: &Entry<W>) -> bool
    ensures value { result ≡ less_of W.Worth.group W.Worth.meaning key.now e.now.key }
{
    key.below(&e.key)
}
