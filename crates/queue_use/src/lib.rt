//! How a queue is used: packages go in with their keys, and come out in order.

#![tactic(auto)]

ghost use Rattle.std.specs.Prelude.{◌≡◌, ℕ, length, if◌then◌else◌, Some, None, nat_lt};
ghost use Rattle.queue.specs.Contents.{count, key_of};
ghost use Rattle.queue_use.specs.Order.{order_of};

use queue::{Entry, Queue};
use worth::OrderedWorth;

#[cfg(test)]
mod tests;

/// The packages 1 and 2 in the order in which they come out of a queue over the memory, if it has room for both.
pub fn in_order<W: OrderedWorth>(memory: &mut [Entry<W>], one: W, two: W) -> Option<(usize, usize)>
    ensures value { result ≡ (if nat_lt (length memory.old) 2 then None else Some (order_of W.Worth.group W.Worth.meaning one two)) }
{
    if memory.len() < 2 {
        return None;
    }
    let mut queue = Queue::new(memory);
    queue.put(1, one).ok()?;
    queue.put(2, two).ok()?;
    let first = queue.take()?;
    let second = queue.take()?;
    Some((first.package, second.package))
}

/// Takes all packages out, and answers how many there were.
pub fn drain<W: OrderedWorth>(queue: &mut Queue<W>) -> usize
    ensures value { result ≡ count queue.old }
    ensures none { (p : ℕ) → key_of queue.new p ≡ None }
{
    let waiting = queue.len();
    while queue.take().is_some() {}
    waiting
}
