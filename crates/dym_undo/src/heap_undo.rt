//! The calls of an undo log, by those of the heap.
ghost use Rattle.dym_heap.specs.Meaning.{IsSound};
ghost use Rattle.dym_undo.specs.HeapUndo.{KeepsRest, is_within, itself, along, version_same, quota_same};

use crate::undo_heap::UndoHeap;
use dym_base::Handle;
use dym_heap::Heap;
use dym_quota::Supply;

impl<S: Supply> UndoHeap for Heap<S> {
    type Way = S::Way;

    ghost version_of = { λ h. h.version };

    ghost quota_of = { λ h. h.quota };

    ghost state = { λ h. h.state };

    ghost is_sound = { IsSound };

    ghost keeps_rest = { KeepsRest };

    fn chunk(&self, handle: Handle) -> Option<&[u8]> {
        self.bytes(handle)
    }

    fn held(&self) -> u32 {
        Heap::held(self)
    }

    fn take_away(&mut self, way: &S::Way, handle: Handle) {
        Heap::take_away(self, way, handle);
    }

    fn put_back(&mut self, way: &S::Way, handle: Handle, bytes: &[u8]) {
        Heap::put_back(self, way, handle, bytes);
    }

    fn forget(&mut self, handle: Handle) {
        Heap::forget(self, handle);
    }

    fn forget_all(&mut self) {
        self.clear_dirty();
    }

    ghost sound_is_within = { is_within };

    ghost rest_itself = { itself };

    ghost rest_along = { along };

    ghost rest_version = { version_same };

    ghost rest_quota = { quota_same };
}
