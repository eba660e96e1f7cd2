//! Chunks that are touched, and so kept, before bytes are changed at their addresses.
ghost use Rattle.std.specs.Prelude.{◌≡◌, ℕ, ◌-◌, ◌^◌, ◌<◌, ◌≤◌, ◌==◌, true, IfSome};
ghost use Rattle.std.specs.FinMap.{contains_key};
ghost use Rattle.dym_base.specs.declared.limits.TheConstants.{LEAST_EXPONENT, GREATEST_EXPONENT, MOST_QUOTA};
ghost use Rattle.dym_base.specs.HeapStep.{handle_of, key};
ghost use Rattle.dym_heap.specs.Addresses.{HasByte, HasByteAt};
ghost use Rattle.dym_heap.specs.Meaning.{IsSound};
ghost use Rattle.dym_heap.specs.Touches.{all_touched, has_byte_in};
ghost use Rattle.dym_undo.specs.UndoLogs.{Belongs, IsKept};
ghost use Rattle.dym_undo_object.specs.Meaning.{IsWhole};
ghost use Rattle.dym_undo_object.specs.Places.{IsPlace, place_start};

use crate::undo_object::UndoObject;
use dym_base::limits::{LEAST_EXPONENT, SEGMENT_BYTES};
use dym_base::{Class, Handle};
use dym_heap::Heap;
use dym_quota::{FixedSupply, Supply};
use dym_undo::UndoLog;

/// Classes of chunks.
const CLASSES: u64 = 12;

impl<S: Supply> UndoObject<S> {
    /// Each live chunk is kept, and counts as touched: before bytes are changed at their addresses. It is no command, and takes no
    /// memory.
    pub fn touch_all(&mut self)
        ensures touched { self.new ≡ record self.old {
          heap = record self.old.heap {
            state = all_touched self.old.heap.state;
          };
        } }
        ensures whole { IsWhole self.new }
    {
        keep_live(&mut self.undo, &self.heap);
        self.heap.touch_all();
    }
}

/// Keeps each live chunk.
fn keep_live<S: Supply>(undo: &mut UndoLog, heap: &Heap<S>)
    requires sound { IsSound heap.now }
    requires belongs { Belongs heap.now.version heap.now.quota heap.now.state undo.old }
    ensures logs { undo.new.logs ≡ undo.old.logs }
    ensures belongs { Belongs heap.now.version heap.now.quota heap.now.state undo.new }
    ensures kept { (k : ℕ) → contains_key heap.now.state.live k ≡ true → IsKept undo.new k }
{
    let mut last = None;
    while let Some(h) = heap.next_live(last) {
        undo.keep(heap, h);
        last = Some(h);
    }
}

/// Keeps each live chunk with a byte in the region from `from` up to `end`, chunk by chunk.
pub(crate) fn keep_in(undo: &mut UndoLog, heap: &Heap<FixedSupply>, from: u64, end: u64)
    requires ordered { from ≤ end }
    requires sound { IsSound heap.now }
    requires belongs { Belongs heap.now.version heap.now.quota heap.now.state undo.old }
    ensures logs { undo.new.logs ≡ undo.old.logs }
    ensures belongs { Belongs heap.now.version heap.now.quota heap.now.state undo.new }
    ensures kept { (k : ℕ) → has_byte_in heap.now.quota heap.now.state.live from end k ≡ true
        → IsKept undo.new k }
{
    let quota = heap.quota();
    let mut at = from;
    while at < end {
        keep_at(undo, heap, at);
        at = end.min(chunk_end(quota, at));
    }
}

/// The live chunk that alone has bytes in the region from `from` up to `end`, where the range is within the place of one chunk.
pub(crate) fn only_chunk(heap: &Heap<FixedSupply>, from: u64, end: u64) -> Option<Handle>
    requires { IsSound heap.now }
    ensures class { IfSome result
        (λ h. (LEAST_EXPONENT ≤ h.exp) × (h.exp ≤ GREATEST_EXPONENT)) }
    ensures some { IfSome result (λ h. HasByte heap.now h) }
    ensures only { IfSome result (λ h. (k : ℕ)
        → has_byte_in heap.now.quota heap.now.state.live from end k ≡ (k == key h)) }
{
    if end <= from {
        return None;
    }
    let Some(h) = heap.handle_at(from) else {
        return None;
    };
    if chunk_end(heap.quota(), from) < end {
        return None;
    }
    Some(h)
}

/// Keeps the live chunk that has the byte at an offset, if there is one.
fn keep_at(undo: &mut UndoLog, heap: &Heap<FixedSupply>, offset: u64)
    requires sound { IsSound heap.now }
    requires belongs { Belongs heap.now.version heap.now.quota heap.now.state undo.old }
    ensures logs { undo.new.logs ≡ undo.old.logs }
    ensures belongs { Belongs heap.now.version heap.now.quota heap.now.state undo.new }
    ensures before { (k : ℕ) → IsKept undo.old k → IsKept undo.new k }
    ensures kept { (k : ℕ) → HasByteAt heap.now (handle_of k) offset → IsKept undo.new k }
{
    if let Some(h) = heap.handle_at(offset) {
        undo.keep(heap, h);
    }
}

/// Where the chunk ends, live or not, in which the byte at `offset` of the region lies: no chunk begins between. Past the segments
/// of all classes there is none.
fn chunk_end(quota: u32, offset: u64) -> u64
    requires least { 1 ≤ quota }
    requires most { quota ≤ MOST_QUOTA }
    ensures further { offset < 2 ^ 64 - 1 → offset < result }
    ensures none { (e i : ℕ) → IsPlace quota e i → offset < place_start quota e i
        → result ≤ place_start quota e i }
{
    let class = offset / u64::from(SEGMENT_BYTES) / u64::from(quota);
    if class >= CLASSES {
        return u64::MAX;
    }
    let exp = LEAST_EXPONENT + class as u8;
    let size = u64::from(Class { exp }.size());
    offset - offset % size + size
}
