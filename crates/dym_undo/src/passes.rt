//! What a log and a restore do to the heap and the stamps, change by change.
ghost use Rattle.std.specs.Prelude.{◌≡◌, ℕ, ◌+◌, ◌-◌, ◌*◌, ◌/◌, ◌<◌, ◌≤◌, ⊤, true, false, not, ◌&&◌, if◌then◌else◌, List, [], ◌∷◌, length, take, drop, vec_len, vec_capacity};
ghost use Rattle.std.specs.FinMap as map;
ghost use Rattle.std.specs.FinSet as set;
ghost use Rattle.dym_base.specs.HeapStep.{key};
ghost use Rattle.dym_base.specs.Heaps.{HeapState, held};
ghost use Rattle.dym_undo.specs.Changes.{patched};
ghost use Rattle.dym_undo.specs.Heads.{changes_of, change_of, bytes_in, len_of};
ghost use Rattle.dym_undo.specs.Heaps.{all_forgotten};
ghost use Rattle.dym_undo.specs.UndoLogs.{last_place};
ghost use Rattle.dym_undo.specs.Keys.{IsKey, is_stamped, with_stamp, without_stamp};
ghost use Rattle.dym_undo.specs.Passes.{is_headed, cleared, take_one, take_dead, put, put_one, put_live, AreHeadKeys, AreFitting, Fits, IsAmong, IsUnstamped, TouchesNoMore};

use crate::head::Head;
use crate::stamps::{is_stamped, stamp, unstamp};
use crate::undo_heap::UndoHeap;
use dym_base::Handle;

/// Takes the stamps of these chunks away.
fn clear_stamps(words: &mut [u64], heads: &[Head])
    requires { AreHeadKeys (length words.old / 64) heads.now }
    ensures { words.new ≡ cleared heads.now words.old }
{
    for head in heads {
        unstamp(words, head.handle);
    }
}

/// Takes the touched marks of these chunks away.
fn forget_heads<H: UndoHeap>(heap: &mut H, heads: &[Head])
    requires { H.is_sound heap.old }
    ensures live { (H.state heap.new).live ≡ (H.state heap.old).live }
    ensures touched { (k : ℕ) → set.contains (H.state heap.new).touched k
        ≡ (not (is_headed k heads.now) && set.contains (H.state heap.old).touched k) }
    ensures rest { H.keeps_rest heap.old heap.new }
    ensures sound { H.is_sound heap.new }
{
    for head in heads {
        heap.forget(head.handle);
    }
}

/// Takes all touched marks away, which only these chunks have: one by one, or those of each area where there are fewer areas.
fn forget_touched<H: UndoHeap>(heap: &mut H, heads: &[Head])
    requires sound { H.is_sound heap.old }
    requires noted { (k : ℕ) → set.contains (H.state heap.old).touched k ≡ true
        → is_headed k heads.now ≡ true }
    ensures state { H.state heap.new ≡ all_forgotten (H.state heap.old) }
    ensures rest { H.keeps_rest heap.old heap.new }
    ensures sound { H.is_sound heap.new }
{
    if (heap.held() as usize) < heads.len() {
        heap.forget_all();
    } else {
        forget_heads(heap, heads);
    }
}

/// The first pass of a restore: takes away the chunks that were dead before the first of their changes.
fn take_dead<H: UndoHeap>(heap: &mut H, way: &H::Way, words: &mut [u64], heads: &[Head])
    requires sound { H.is_sound heap.old }
    requires keys { AreHeadKeys (length words.old / 64) heads.now }
    ensures way { record { words = words.new; live = (H.state heap.new).live }
        ≡ take_dead heads.now (record { words = words.old; live = (H.state heap.old).live }) }
    ensures touched { TouchesNoMore (H.state heap.old) (H.state heap.new) }
    ensures rest { H.keeps_rest heap.old heap.new }
    ensures sound { H.is_sound heap.new }
{
    for head in heads {
        take_one(heap, way, words, *head);
    }
}

/// One step of the first pass.
fn take_one<H: UndoHeap>(heap: &mut H, way: &H::Way, words: &mut [u64], head: Head)
    requires sound { H.is_sound heap.old }
    requires key { IsKey (length words.old / 64) (key head.handle) }
    ensures way { record { words = words.new; live = (H.state heap.new).live }
        ≡ take_one head (record { words = words.old; live = (H.state heap.old).live }) }
    ensures touched { TouchesNoMore (H.state heap.old) (H.state heap.new) }
    ensures rest { H.keeps_rest heap.old heap.new }
    ensures sound { H.is_sound heap.new }
{
    if is_stamped(words, head.handle) {
        return;
    }
    stamp(words, head.handle);
    if head.len.is_none() {
        take_chunk(heap, way, head.handle);
    }
}

/// Takes a chunk away, if it is live.
fn take_chunk<H: UndoHeap>(heap: &mut H, way: &H::Way, handle: Handle)
    requires sound { H.is_sound heap.old }
    ensures live { (H.state heap.new).live ≡ map.remove (H.state heap.old).live (key handle) }
    ensures touched { TouchesNoMore (H.state heap.old) (H.state heap.new) }
    ensures rest { H.keeps_rest heap.old heap.new }
    ensures sound { H.is_sound heap.new }
{
    if heap.chunk(handle).is_some() {
        heap.take_away(way, handle);
    }
}

/// The second pass: puts back the chunks that were live before the first of their changes.
fn put_live<H: UndoHeap>(
    heap: &mut H,
    way: &H::Way,
    words: &mut [u64],
    heads: &[Head],
    bytes: &[u8],
)
    requires sound { H.is_sound heap.old }
    requires fits { bytes_in heads.now ≤ length bytes.now }
    requires keys { AreHeadKeys (length words.old / 64) heads.now }
    requires fitting { AreFitting (H.version_of heap.old) (changes_of heads.now bytes.now) }
    requires within { held (put_live (changes_of heads.now bytes.now)
        (record { words = words.old; live = (H.state heap.old).live })).live
        ≤ H.quota_of heap.old }
    requires among { IsAmong (H.state heap.old).live (put_live (changes_of heads.now bytes.now)
        (record { words = words.old; live = (H.state heap.old).live })).live }
    ensures way { record { words = words.new; live = (H.state heap.new).live }
        ≡ put_live (changes_of heads.now bytes.now)
        (record { words = words.old; live = (H.state heap.old).live }) }
    ensures touched { TouchesNoMore (H.state heap.old) (H.state heap.new) }
    ensures rest { H.keeps_rest heap.old heap.new }
    ensures sound { H.is_sound heap.new }
{
    let mut rest = bytes;
    for head in heads {
        put_one(heap, way, words, *head, rest);
        rest = bytes_after(rest, *head);
    }
}

/// The bytes behind those of a head.
fn bytes_after(bytes: &[u8], head: Head) -> &[u8]
    requires { len_of head.len ≤ length bytes.now }
    ensures { result.now ≡ drop (len_of head.len) bytes.now }
{
    match head.len {
        None => bytes,
        Some(len) => &bytes[len as usize..],
    }
}

/// One step of the second pass.
fn put_one<H: UndoHeap>(heap: &mut H, way: &H::Way, words: &mut [u64], head: Head, bytes: &[u8])
    requires sound { H.is_sound heap.old }
    requires fits { len_of head.len ≤ length bytes.now }
    requires key { IsKey (length words.old / 64) (key head.handle) }
    requires fitting { Fits (H.version_of heap.old) (key head.handle)
        (change_of head bytes.now).before }
    requires within { is_stamped words.old (key head.handle) ≡ true
        → held (put (H.state heap.old).live (key head.handle) (change_of head bytes.now).before)
        ≤ H.quota_of heap.old }
    ensures way { record { words = words.new; live = (H.state heap.new).live }
        ≡ put_one (change_of head bytes.now)
        (record { words = words.old; live = (H.state heap.old).live }) }
    ensures touched { TouchesNoMore (H.state heap.old) (H.state heap.new) }
    ensures rest { H.keeps_rest heap.old heap.new }
    ensures sound { H.is_sound heap.new }
{
    if !is_stamped(words, head.handle) {
        return;
    }
    unstamp(words, head.handle);
    if let Some(len) = head.len {
        heap.put_back(way, head.handle, &bytes[..len as usize]);
    }
}

/// Takes changes back: each chunk is again what it was before the first of its changes.
pub(crate) fn take_back<H: UndoHeap>(
    heap: &mut H,
    way: &H::Way,
    words: &mut [u64],
    heads: &[Head],
    bytes: &[u8],
)
    requires sound { H.is_sound heap.old }
    requires fits { bytes_in heads.now ≤ length bytes.now }
    requires keys { AreHeadKeys (length words.old / 64) heads.now }
    requires fitting { AreFitting (H.version_of heap.old) (changes_of heads.now bytes.now) }
    requires unstamped { IsUnstamped words.old }
    requires within { held (patched (changes_of heads.now bytes.now) (H.state heap.old).live)
        ≤ H.quota_of heap.old }
    ensures live { (H.state heap.new).live
        ≡ patched (changes_of heads.now bytes.now) (H.state heap.old).live }
    ensures unstamped { IsUnstamped words.new }
    ensures touched { TouchesNoMore (H.state heap.old) (H.state heap.new) }
    ensures rest { H.keeps_rest heap.old heap.new }
    ensures sound { H.is_sound heap.new }
{
    take_dead(heap, way, words, heads);
    put_live(heap, way, words, heads, bytes);
}

/// Begins an interval: nothing is stamped or touched any more. The price is that of the changes since the newest log; where there
/// is none, that of the heap.
pub(crate) fn begin_interval<H: UndoHeap>(
    heap: &mut H,
    words: &mut [u64],
    heads: &[Head],
    places: &[usize],
)
    requires sound { H.is_sound heap.old }
    requires keys { AreHeadKeys (length words.old / 64) heads.now }
    requires within { last_place places.now ≤ length heads.now }
    requires unlogged { length places.now ≡ 0 → heads.now ≡ [] }
    requires stamps { (k : ℕ) → IsKey (length words.old / 64) k → is_stamped words.old k
        ≡ is_headed k (drop (last_place places.now) heads.now) }
    requires noted { 0 < length places.now → (k : ℕ)
        → set.contains (H.state heap.old).touched k ≡ true
        → is_headed k (drop (last_place places.now) heads.now) ≡ true }
    ensures state { H.state heap.new ≡ all_forgotten (H.state heap.old) }
    ensures unstamped { IsUnstamped words.new }
    ensures rest { H.keeps_rest heap.old heap.new }
    ensures sound { H.is_sound heap.new }
{
    match places.last() {
        None => heap.forget_all(),
        Some(place) => {
            let changed = heads.split_at(*place).1;
            clear_stamps(words, changed);
            forget_touched(heap, changed);
        }
    }
}

/// Takes the changes from a place on back.
pub(crate) fn undo_from<H: UndoHeap>(
    heap: &mut H,
    way: &H::Way,
    words: &mut [u64],
    heads: &mut Vec<Head>,
    bytes: &mut Vec<u8>,
    place: usize,
)
    requires sound { H.is_sound heap.old }
    requires whole { bytes_in heads.old.items ≡ length bytes.old.items }
    requires keys { AreHeadKeys (length words.old / 64) heads.old.items }
    requires fitting { AreFitting (H.version_of heap.old)
        (changes_of heads.old.items bytes.old.items) }
    requires within_heads { place ≤ length heads.old.items }
    requires unstamped { IsUnstamped words.old }
    requires within { held (patched (drop place (changes_of heads.old.items bytes.old.items))
        (H.state heap.old).live) ≤ H.quota_of heap.old }
    ensures live { (H.state heap.new).live
        ≡ patched (drop place (changes_of heads.old.items bytes.old.items))
        (H.state heap.old).live }
    ensures heads { heads.new.items ≡ take place heads.old.items }
    ensures bytes { bytes.new.items ≡ take (bytes_in (take place heads.old.items)) bytes.old.items }
    ensures head_room { vec_capacity heads.new ≡ vec_capacity heads.old }
    ensures byte_room { vec_capacity bytes.new ≡ vec_capacity bytes.old }
    ensures unstamped { IsUnstamped words.new }
    ensures touched { TouchesNoMore (H.state heap.old) (H.state heap.new) }
    ensures rest { H.keeps_rest heap.old heap.new }
    ensures sound { H.is_sound heap.new }
{
    let len = bytes.len();
    let undone = heads.split_at(place).1;
    let from = len - count_bytes(undone, len);
    take_back(heap, way, words, undone, bytes.split_at(from).1);
    heads.truncate(place);
    bytes.truncate(from);
}

/// How many bytes belong to heads, which are at most this many.
pub(crate) fn count_bytes(heads: &[Head], most: usize) -> usize
    requires { bytes_in heads.now ≤ most }
    ensures { result ≡ bytes_in heads.now }
{
    let mut count = 0;
    for head in heads {
        if let Some(len) = head.len {
            count += len as usize;
        }
    }
    count
}
