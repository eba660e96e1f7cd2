//! Chunks of two heaps beside each other.
ghost use Rattle.std.specs.Prelude.{◌≡◌, true, if◌then◌else◌};
ghost use Rattle.std.specs.FinMap.{get, contains_key};
ghost use Rattle.dym_base.specs.HeapStep.{key};
ghost use Rattle.dym_heap.specs.Meaning.{IsSound};
ghost use Rattle.dym_heap.specs.Undo.{without_touch};
ghost use Rattle.dym_undo_files.specs.TakenAgain.{has_bytes, is_same, differing};

use dym_base::Handle;
use dym_heap::Heap;
use dym_quota::{OwnSupply, Supply};

/// Whether a chunk is live with these bytes.
pub(crate) fn has_bytes<S: Supply>(heap: &Heap<S>, h: Handle, bytes: &[u8]) -> bool
    ensures { result ≡ has_bytes (get heap.now.state.live (key h)) bytes.now }
{
    match heap.bytes(h) {
        Some(old) => old == bytes,
        None => false,
    }
}

/// Touched are then the chunks that have other bytes in the heap before, or aren't live there, and no others.
pub(crate) fn touch_differing(heap: &mut Heap<OwnSupply>, before: &Heap<OwnSupply>)
    requires { IsSound heap.old }
    ensures touched { heap.new ≡ record heap.old {
      state = record {
        live = heap.old.state.live;
        touched = differing before.now.state.live heap.old.state.live;
      };
    } }
    ensures sound { IsSound heap.new }
{
    heap.touch_all();
    let mut last = None;
    while let Some(h) = heap.next_live(last) {
        forget_same(heap, before, h);
        last = Some(h);
    }
}

/// A live chunk that has the same bytes in the heap before isn't touched any more.
fn forget_same(heap: &mut Heap<OwnSupply>, before: &Heap<OwnSupply>, h: Handle)
    requires { contains_key heap.old.state.live (key h) ≡ true }
    ensures after { heap.new ≡ record heap.old {
      state = if is_same before.now.state.live heap.old.state.live (key h)
          then without_touch heap.old.state (key h) else heap.old.state;
    } }
    ensures sound { IsSound heap.old → IsSound heap.new }
{
    let Some(bytes) = heap.bytes(h) else {
        unreachable!()
    };
    if has_bytes(before, h, bytes) {
        heap.forget(h);
    }
}
