//! The room of changes, and changes that no log needs.
ghost use Rattle.std.specs.Prelude.{◌≡◌, ℕ, ◌+◌, ◌-◌, ◌≤◌, ◌<◌, true, [], length, map, take, drop, OnOk, slice_get, Some, vec_len, vec_capacity};
ghost use Rattle.std.specs.FinMap.{contains_key};
ghost use Rattle.dym_base.specs.HeapStep.{key};
ghost use Rattle.dym_undo.specs.Heads.{bytes_in};
ghost use Rattle.dym_undo.specs.Keys.{IsKey};
ghost use Rattle.dym_undo.specs.UndoLogs.{ArePlaced, IsDrained};

use crate::entry::Entry;
use crate::head::Head;
use crate::passes::count_bytes;
use crate::undo_heap::UndoHeap;
use dym_base::Handle;
use std::alloc::AllocError;

/// The handles that can be live in one area of each class.
pub(crate) const MOST_HANDLES: usize = 4_095;

/// Takes room for a log more, and for so many heads and bytes.
pub(crate) fn make_room(
    entries: &mut Vec<Entry>,
    places: &mut Vec<usize>,
    heads: &mut Vec<Head>,
    bytes: &mut Vec<u8>,
    more_heads: usize,
    more_bytes: usize,
) -> Result<(), AllocError>
    ensures entries { entries.new.items ≡ entries.old.items }
    ensures places { places.new.items ≡ places.old.items }
    ensures heads { heads.new.items ≡ heads.old.items }
    ensures bytes { bytes.new.items ≡ bytes.old.items }
    ensures head_room { vec_capacity heads.old ≤ vec_capacity heads.new }
    ensures byte_room { vec_capacity bytes.old ≤ vec_capacity bytes.new }
    ensures entry { OnOk result (vec_len entries.new < vec_capacity entries.new) }
    ensures place { OnOk result (vec_len places.new < vec_capacity places.new) }
    ensures heads_left { OnOk result (length heads.new.items + more_heads ≤ vec_capacity heads.new) }
    ensures bytes_left { OnOk result (length bytes.new.items + more_bytes ≤ vec_capacity bytes.new) }
{
    entries.reserve(1)?;
    places.reserve(1)?;
    reserve_ahead(heads, more_heads)?;
    reserve_ahead(bytes, more_bytes)?;
    Ok(())
}

/// Takes room for so many more items where it isn't there, and then for as many again. What is reserved is address space until it
/// is written, but what grows may be copied, with all room that it had: so it grows once, and again when it is half full.
fn reserve_ahead<T>(items: &mut Vec<T>, more: usize) -> Result<(), AllocError>
    ensures items { items.new.items ≡ items.old.items }
    ensures room { vec_capacity items.old ≤ vec_capacity items.new }
    ensures left { OnOk result (vec_len items.new + more ≤ vec_capacity items.new) }
{
    if items.capacity() - items.len() >= more {
        return Ok(());
    }
    items.reserve(more.saturating_add(more))
}

/// A live chunk has a handle that can be live within the heap's quota.
pub(crate) fn live_is_key<H: UndoHeap>(heap: &H, handle: Handle)
    requires sound { H.is_sound heap.now }
    requires live { contains_key (H.state heap.now).live (key handle) ≡ true }
    ensures { IsKey (H.quota_of heap.now) (key handle) }
{
    let _ = heap;
    let _ = handle;
}

/// Drops the first items.
pub(crate) fn drop_first<T: Copy>(items: &mut Vec<T>, count: usize)
    requires { count ≤ vec_len items.old }
    ensures items { items.new.items ≡ drop count items.old.items }
    ensures capacity { vec_capacity items.new ≡ vec_capacity items.old }
{
    let left = items.len() - count;
    items.copy_within(count.., 0);
    items.truncate(left);
}

/// Drops the changes before the oldest log, once they are as many as the others.
pub(crate) fn drop_dead(places: &mut Vec<usize>, heads: &mut Vec<Head>, bytes: &mut Vec<u8>)
    requires placed { ArePlaced 0 (length heads.old.items) places.old.items }
    requires whole { bytes_in heads.old.items ≡ length bytes.old.items }
    ensures drained { IsDrained places.old.items heads.old.items bytes.old.items
        places.new.items heads.new.items bytes.new.items }
    ensures head_room { vec_capacity heads.new ≡ vec_capacity heads.old }
    ensures byte_room { vec_capacity bytes.new ≡ vec_capacity bytes.old }
{
    let Some(place) = first_place(places) else {
        return;
    };
    if place < heads.len() - place {
        return;
    }
    let len = bytes.len();
    let gone = count_bytes(heads.split_at(place).0, len);
    drop_first(heads, place);
    drop_first(bytes, gone);
    move_places(places, place);
}

/// How many changes stand before the oldest log.
fn first_place(places: &[usize]) -> Option<usize>
    ensures { result ≡ slice_get places.now 0 }
{
    places.first().copied()
}

/// The first changes are gone.
fn move_places(places: &mut [usize], count: usize)
    requires { (high : ℕ) × ArePlaced count high places.old }
    ensures { places.new ≡ map (λ p. p - count) places.old }
{
    for place in places.iter_mut() {
        *place -= count;
    }
}
