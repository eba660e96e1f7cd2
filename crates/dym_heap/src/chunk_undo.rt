//! Chunks of a shelf as they were before a change.
ghost use Rattle.std.specs.Prelude.{◌≡◌, ◌≤◌, length};
ghost use Rattle.std.specs.FinMap.{insert};
ghost use Rattle.dym_base.specs.Heaps.{held};
ghost use Rattle.dym_base.specs.HeapStep.{key, without_chunk};
ghost use Rattle.dym_base.specs.declared.limits.TheConstants.{LEAST_EXPONENT, GREATEST_EXPONENT};
ghost use Rattle.dym_heap.specs.Meaning.{IsSizeOf};
ghost use Rattle.dym_heap.specs.Undo.{with_chunk_back, without_touch};
ghost use Rattle.dym_heap.specs.Shelves.{IsTidy, IsValidShelf, Keeps};
ghost use Rattle.dym_heap.specs.ShapeSteps.{HasRoomFor, ReachesArea};

use crate::chunk::free_handle;
use crate::shelf::Shelf;
use dym_base::limits::{GREATEST_EXPONENT, LEAST_EXPONENT};
use dym_base::{Class, Handle};
use dym_quota::Supply;

/// A chunk is dead, whether it was live or not. Its class gives back the areas that it needs no
/// more.
pub(crate) fn take_chunk_away<S: Supply>(shelf: &mut Shelf<S>, way: &S::Way, h: Handle)
    requires tidy { IsTidy shelf.old }
    ensures after { shelf.new.state ≡ without_chunk shelf.old.state (key h) }
    ensures keeps { Keeps shelf.old shelf.new }
    ensures tidy { IsTidy shelf.new }
{
    let _was_live = free_handle(shelf, way, h);
}

/// A chunk is live with these bytes, and not touched, whether it was live or not. Its class takes
/// areas until it has that of the chunk.
pub(crate) fn put_chunk_back<S: Supply>(shelf: &mut Shelf<S>, way: &S::Way, h: Handle, bytes: &[u8])
    requires least { LEAST_EXPONENT ≤ h.exp }
    requires most { h.exp ≤ GREATEST_EXPONENT }
    requires tidy { IsTidy shelf.old }
    requires sized { IsSizeOf shelf.old.version h.exp (length bytes.now) }
    requires within { held (insert shelf.old.state.live (key h) bytes.now)
        ≤ shelf.old.quota }
    ensures after { shelf.new.state
        ≡ with_chunk_back shelf.old.state (key h) bytes.now }
    ensures keeps { Keeps shelf.old shelf.new }
    ensures tidy { IsTidy shelf.new }
{
    let class = Class { exp: h.exp };
    reach_area(shelf, way, class, h.index / class.per_area());
    shelf.put_back(class, h.index, bytes);
}

/// Takes areas for a class until it has that of an ordinal.
fn reach_area<S: Supply>(shelf: &mut Shelf<S>, way: &S::Way, class: Class, ordinal: u32)
    requires valid_shelf { IsValidShelf shelf.old }
    requires within { HasRoomFor shelf.old class.exp ordinal }
    ensures reached { ReachesArea shelf.old shelf.new class.exp ordinal }
    ensures keeps { Keeps shelf.old shelf.new }
    ensures valid_shelf { IsValidShelf shelf.new }
{
    while shelf.areas(class) <= ordinal {
        shelf.add_area(way, class);
    }
}

/// A chunk isn't touched any more.
pub(crate) fn forget_chunk<S: Supply>(shelf: &mut Shelf<S>, h: Handle)
    requires tidy { IsTidy shelf.old }
    ensures after { shelf.new.state ≡ without_touch shelf.old.state (key h) }
    ensures keeps { Keeps shelf.old shelf.new }
    ensures held { shelf.new.held_ids ≡ shelf.old.held_ids }
    ensures tidy { IsTidy shelf.new }
{
    if !h.has_class() {
        return;
    }
    shelf.forget(Class { exp: h.exp }, h.index);
}
