//! Fresh chunks.
ghost use Rattle.std.specs.Prelude.{◌≡◌, ◌-◌, ◌≤◌, ◌<◌, None, Some, replicate, MatchOption};
ghost use Rattle.dym_base.specs.Numbers.{number};
ghost use Rattle.dym_base.specs.Heaps.{fresh};
ghost use Rattle.dym_base.specs.HeapStep.{held_with_fresh, with_chunk};
ghost use Rattle.dym_heap.specs.Meaning.{IsSizeOf};
ghost use Rattle.dym_heap.specs.Shelves.{IsTidy, Keeps};

use crate::shelf::Shelf;
use dym_base::Class;
use dym_quota::Supply;

/// A fresh chunk of a class, of `len` zero bytes, where the quota allows it.
#[inline(always)]
pub(crate) fn take_fresh<S: Supply>(
    shelf: &mut Shelf<S>,
    way: &S::Way,
    class: Class,
    len: u32,
) -> Option<u32>
    requires tidy { IsTidy shelf.old }
    requires sized { IsSizeOf shelf.old.version class.exp len }
    ensures answer { MatchOption result
        (shelf.old.quota < held_with_fresh shelf.old.state.live class.exp)
        (λ i. (held_with_fresh shelf.old.state.live class.exp ≤ shelf.old.quota)
        × (i ≡ fresh shelf.old.state.live class.exp)) }
    ensures after { MatchOption result (shelf.new ≡ shelf.old)
        (λ i. shelf.new.state
        ≡ with_chunk shelf.old.state (number class.exp i) (replicate len 0)) }
    ensures keeps { Keeps shelf.old shelf.new }
    ensures tidy { IsTidy shelf.new }
{
    if let Some(index) = shelf.take_chunk(class, len) {
        return Some(index);
    }
    if shelf.held() == shelf.quota() {
        return None;
    }
    shelf.add_area(way, class);
    let Some(index) = shelf.take_chunk(class, len) else {
        unreachable!();
    };
    Some(index)
}
