//! The front of a queue.
ghost use Rattle.std.specs.Prelude.{◌≡◌, drop};
ghost use Rattle.std.specs.VecDeque.{deque_capacity};

use std::collections::VecDeque;

/// Drops the first items, as many as there are. The others stay where they are.
pub(crate) fn drop_front<T: Drop>(items: &mut VecDeque<T>, count: usize)
    ensures items { items.new.items ≡ drop count items.old.items }
    ensures capacity { deque_capacity items.new ≡ deque_capacity items.old }
{
    for _ in 0..count.min(items.len()) {
        items.pop_front();
    }
}
