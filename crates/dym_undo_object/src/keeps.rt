//! What is kept of the chunk that a call names, or makes.
ghost use Rattle.std.specs.Prelude.{◌≡◌, ℕ, true};
ghost use Rattle.std.specs.FinMap.{contains_key};
ghost use Rattle.dym_base.specs.Heaps.{HeapState};
ghost use Rattle.dym_base.specs.declared.command.Version.{Version};
ghost use Rattle.dym_heap.specs.Meaning.{IsSound};
ghost use Rattle.dym_undo.specs.UndoLogs.{Belongs};
ghost use Rattle.dym_undo_object.specs.Keeps.{Differs, IsLiveIn, IsDeadIn};

use dym_base::Handle;
use dym_heap::Heap;
use dym_quota::Supply;
use dym_undo::UndoLog;

/// Keeps what the chunk is that a call names, before it is changed. Nil names none.
#[inline(always)]
pub(crate) fn keep_named<S: Supply>(undo: &mut UndoLog, heap: &Heap<S>, named: Option<Handle>)
    requires sound { IsSound heap.now }
    requires belongs { Belongs heap.now.version heap.now.quota heap.now.state undo.old }
    ensures logs { undo.new.logs ≡ undo.old.logs }
    ensures belongs { Belongs heap.now.version heap.now.quota heap.now.state undo.new }
    ensures kept { IsLiveIn heap.now.state named → (t : HeapState)
        → Differs named heap.now.state t
        → Belongs heap.now.version heap.now.quota t undo.new }
{
    if let Some(handle) = named {
        undo.keep(heap, handle);
    }
}

/// Keeps that the chunk was dead that a call made, if it made one.
#[inline(always)]
pub(crate) fn keep_made<S: Supply>(undo: &mut UndoLog, heap: &Heap<S>, made: Option<Handle>)
    requires sound { IsSound heap.now }
    requires quota { undo.old.quota ≡ heap.now.quota }
    requires live { IsLiveIn heap.now.state made }
    ensures logs { undo.new.logs ≡ undo.old.logs }
    ensures kept { (v : Version) (quota : ℕ) (s t : HeapState) → Belongs v quota s undo.old
        → IsDeadIn s made → Differs made s t → Belongs v quota t undo.new }
{
    if let Some(handle) = made {
        undo.keep_fresh(heap, handle);
    }
}
