//! What an undo log asks of a heap.
ghost use Rattle.std.specs.Prelude.{◌≡◌, ℕ, ◌<◌, ◌≤◌, true, length};
ghost use Rattle.std.specs.Option.{option_copied};
ghost use Rattle.std.specs.FinMap as map;
ghost use Rattle.dym_base.specs.HeapStep.{key, without_chunk};
ghost use Rattle.dym_base.specs.Heaps.{HeapState, held};
ghost use Rattle.dym_base.specs.Laws.{FitsClass};
ghost use Rattle.dym_base.specs.declared.command.Version.{Version};
ghost use Rattle.dym_undo.specs.Heaps.{IsWithin, put_back, forgotten, all_forgotten};

use dym_base::Handle;

/// A heap whose chunks an undo log takes away and puts back. None of its calls takes memory.
pub trait UndoHeap {
    /// What a call hands a segment back to, and takes one from.
    type Way;

    ghost version_of: { Self → Version };

    ghost quota_of: { Self → ℕ };

    ghost state: { Self → HeapState };

    ghost is_sound: { Self → Type 0 };

    /// The second heap is the first but for its chunks and the segments that they need.
    ghost keeps_rest: { Self → Self → Type 0 };

    /// The bytes of a chunk, if it is live.
    fn chunk(&self, handle: Handle) -> Option<&[u8]>
        ensures { option_copied result ≡ map.get (state self.now).live (key handle) };

    /// How many segments the heap needs.
    fn held(&self) -> u32
        requires { is_sound self.now }
        ensures { result ≡ held (state self.now).live };

    /// Takes a live chunk away.
    fn take_away(&mut self, way: &Self::Way, handle: Handle)
        requires sound { is_sound self.old }
        requires live { map.contains_key (state self.old).live (key handle) ≡ true }
        ensures state { state self.new ≡ without_chunk (state self.old) (key handle) }
        ensures rest { keeps_rest self.old self.new }
        ensures sound { is_sound self.new };

    /// Makes a chunk live with these bytes, and not touched, whether it is live or not.
    fn put_back(&mut self, way: &Self::Way, handle: Handle, bytes: &[u8])
        requires sound { is_sound self.old }
        requires fits { FitsClass (version_of self.old) (key handle) bytes.now }
        requires within { held (map.insert (state self.old).live (key handle) bytes.now)
            ≤ quota_of self.old }
        ensures state { state self.new ≡ put_back (state self.old) (key handle) bytes.now }
        ensures rest { keeps_rest self.old self.new }
        ensures sound { is_sound self.new };

    /// A chunk counts as touched no more.
    fn forget(&mut self, handle: Handle)
        requires sound { is_sound self.old }
        ensures state { state self.new ≡ forgotten (state self.old) (key handle) }
        ensures rest { keeps_rest self.old self.new }
        ensures sound { is_sound self.new };

    /// No chunk counts as touched any more.
    fn forget_all(&mut self)
        requires sound { is_sound self.old }
        ensures state { state self.new ≡ all_forgotten (state self.old) }
        ensures rest { keeps_rest self.old self.new }
        ensures sound { is_sound self.new };

    ghost sound_is_within: { (h : Self) → is_sound h
        → IsWithin (version_of h) (quota_of h) (state h) };

    ghost rest_itself: { (h : Self) → keeps_rest h h };

    ghost rest_along: { (a b c : Self) → keeps_rest a b → keeps_rest b c → keeps_rest a c };

    ghost rest_version: { (a b : Self) → keeps_rest a b → version_of b ≡ version_of a };

    ghost rest_quota: { (a b : Self) → keeps_rest a b → quota_of b ≡ quota_of a };
}
