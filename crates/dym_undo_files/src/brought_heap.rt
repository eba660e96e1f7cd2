//! A heap with an undo log that becomes as another heap is, chunk by chunk.
ghost use Rattle.std.specs.Prelude.{◌≡◌, ◌≤◌, true, if◌then◌else◌, length};
ghost use Rattle.std.specs.FinMap.{contains_key, insert, remove};
ghost use Rattle.dym_base.specs.Heaps.{held};
ghost use Rattle.dym_base.specs.HeapStep.{key};
ghost use Rattle.dym_base.specs.declared.limits.TheConstants.{LEAST_EXPONENT, GREATEST_EXPONENT};
ghost use Rattle.dym_heap.specs.Meaning.{IsSizeOf};
ghost use Rattle.dym_undo.specs.HeapUndo.{KeepsRest};
ghost use Rattle.dym_undo_files.specs.BroughtHeaps.{IsKeptHeap, IsAmong};
ghost use Rattle.dym_undo_files.specs.TakenChains.{IsHeapOf};

use crate::chunk_bytes::has_bytes;
use dym_base::Handle;
use dym_heap::Heap;
use dym_quota::{OwnSupply, Supply};
use dym_undo::UndoLog;

/// The heap becomes as another one is, with nothing touched. What each chunk was that changes is kept.
pub(crate) fn bring_to<S: Supply>(
    way: &S::Way,
    heap: &mut Heap<S>,
    undo: &mut UndoLog,
    other: &Heap<OwnSupply>,
)
    requires kept { IsKeptHeap heap.old undo.old }
    requires other { IsHeapOf heap.old.version heap.old.quota other.now }
    ensures live { heap.new.state.live ≡ other.now.state.live }
    ensures kept { IsKeptHeap heap.new undo.new }
    ensures logs { undo.new.logs ≡ undo.old.logs }
    ensures rest { KeepsRest heap.old heap.new }
{
    take_dead(way, heap, undo, other);
    put_live(way, heap, undo, other);
}

/// Takes away the chunks that aren't live in another heap.
fn take_dead<S: Supply>(
    way: &S::Way,
    heap: &mut Heap<S>,
    undo: &mut UndoLog,
    other: &Heap<OwnSupply>,
)
    requires kept { IsKeptHeap heap.old undo.old }
    ensures among { IsAmong heap.new.state.live other.now.state.live }
    ensures kept { IsKeptHeap heap.new undo.new }
    ensures logs { undo.new.logs ≡ undo.old.logs }
    ensures rest { KeepsRest heap.old heap.new }
{
    let mut last = None;
    while let Some(h) = heap.next_live(last) {
        take_if_dead(way, heap, undo, other, h);
        last = Some(h);
    }
}

/// Takes a live chunk away that isn't live in another heap. What it was is kept.
fn take_if_dead<S: Supply>(
    way: &S::Way,
    heap: &mut Heap<S>,
    undo: &mut UndoLog,
    other: &Heap<OwnSupply>,
    h: Handle,
)
    requires kept { IsKeptHeap heap.old undo.old }
    requires live { contains_key heap.old.state.live (key h) ≡ true }
    ensures live { heap.new.state.live ≡ (if contains_key other.now.state.live (key h)
        then heap.old.state.live else remove heap.old.state.live (key h)) }
    ensures kept { IsKeptHeap heap.new undo.new }
    ensures logs { undo.new.logs ≡ undo.old.logs }
    ensures rest { KeepsRest heap.old heap.new }
{
    if other.is_live(h) {
        return;
    }
    undo.keep(heap, h);
    heap.take_away(way, h);
}

/// Puts each chunk of another heap, in which all chunks of the heap are live.
fn put_live<S: Supply>(
    way: &S::Way,
    heap: &mut Heap<S>,
    undo: &mut UndoLog,
    other: &Heap<OwnSupply>,
)
    requires kept { IsKeptHeap heap.old undo.old }
    requires among { IsAmong heap.old.state.live other.now.state.live }
    requires other { IsHeapOf heap.old.version heap.old.quota other.now }
    ensures live { heap.new.state.live ≡ other.now.state.live }
    ensures kept { IsKeptHeap heap.new undo.new }
    ensures logs { undo.new.logs ≡ undo.old.logs }
    ensures rest { KeepsRest heap.old heap.new }
{
    let mut last = None;
    while let Some(h) = other.next_live(last) {
        let Some(bytes) = other.bytes(h) else {
            unreachable!()
        };
        put_chunk(way, heap, undo, h, bytes);
        last = Some(h);
    }
}

/// A chunk is live with these bytes. What it was is kept, where it was anything else.
fn put_chunk<S: Supply>(
    way: &S::Way,
    heap: &mut Heap<S>,
    undo: &mut UndoLog,
    h: Handle,
    bytes: &[u8],
)
    requires kept { IsKeptHeap heap.old undo.old }
    requires least { LEAST_EXPONENT ≤ h.exp }
    requires most { h.exp ≤ GREATEST_EXPONENT }
    requires sized { IsSizeOf heap.old.version h.exp (length bytes.now) }
    requires within { held (insert heap.old.state.live (key h) bytes.now) ≤ heap.old.quota }
    ensures live { heap.new.state.live ≡ insert heap.old.state.live (key h) bytes.now }
    ensures kept { IsKeptHeap heap.new undo.new }
    ensures logs { undo.new.logs ≡ undo.old.logs }
    ensures rest { KeepsRest heap.old heap.new }
{
    if has_bytes(heap, h, bytes) {
        return;
    }
    if heap.is_live(h) {
        undo.keep(heap, h);
        heap.put_back(way, h, bytes);
    } else {
        heap.put_back(way, h, bytes);
        undo.keep_fresh(heap, h);
    }
}
