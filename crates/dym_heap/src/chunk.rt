//! Chunks of a shelf by their handles.
ghost use Rattle.std.specs.Prelude.{◌≡◌, ◌+◌, ◌≤◌, ◌<◌, true, None, Some, length, take, replicate, Ok, MatchOption, IsSome, is_some, MatchBool, option_map};
ghost use Rattle.std.specs.FinMap.{get};
ghost use Rattle.std.specs.FinSet.{contains};
ghost use Rattle.dym_base.specs.Numbers.{number, IsClass};
ghost use Rattle.dym_base.specs.HeapStep.{key, splice, with_chunk, without_chunk, found_at, resize, fitted, held_with_fresh};
ghost use Rattle.dym_base.specs.Heaps.{fresh};
ghost use Rattle.dym_base.specs.declared.command.Version.TheVariants.{Two};
ghost use Rattle.dym_base.specs.declared.limits.TheConstants.{LEAST_EXPONENT, GREATEST_EXPONENT};
ghost use Rattle.dym_heap.specs.Meaning.{IsSizeOf};
ghost use Rattle.dym_heap.specs.Replies.{found_reply};
ghost use Rattle.dym_heap.specs.Shelves.{IsTidy, Keeps, with_put, FitsIn};

use crate::found::Found;
use crate::fresh_chunk::take_fresh;
use crate::shelf::Shelf;
use dym_base::{Class, Handle, Version};
use dym_quota::Supply;

/// A chunk's length in bytes, and None where it isn't live.
pub(crate) fn len_of_handle<S: Supply>(shelf: &Shelf<S>, h: Handle) -> Option<u32>
    requires { IsTidy shelf.now }
    ensures len { result ≡ option_map length (get shelf.now.state.live (key h)) }
    ensures class { IsSome result → IsClass h.exp }
{
    if !h.has_class() {
        return None;
    }
    shelf.chunk_len(Class { exp: h.exp }, h.index)
}

/// A chunk's bytes, and None where it isn't live.
pub(crate) fn bytes_of_handle<S: Supply>(shelf: &Shelf<S>, h: Handle) -> Option<&[u8]>
    requires { IsTidy shelf.now }
    ensures { MatchOption result (get shelf.now.state.live (key h) ≡ None)
        (λ bytes. get shelf.now.state.live (key h) ≡ Some bytes.now) }
{
    if !h.has_class() {
        return None;
    }
    shelf.bytes(Class { exp: h.exp }, h.index)
}

/// Frees a chunk that is live, and gives back the areas that its class needs no more.
pub(crate) fn free_chunk<S: Supply>(shelf: &mut Shelf<S>, way: &S::Way, class: Class, index: u32)
    requires tidy { IsTidy shelf.old }
    requires live { IsSome (get shelf.old.state.live (number class.exp index)) }
    ensures after { shelf.new.state
        ≡ without_chunk shelf.old.state (number class.exp index) }
    ensures keeps { Keeps shelf.old shelf.new }
    ensures tidy { IsTidy shelf.new }
{
    let _used = shelf.release(class, index);
    shelf.trim(way, class);
}

/// Frees a chunk, and gives back the areas that its class needs no more. False where it isn't live, and nothing changes then.
pub(crate) fn free_handle<S: Supply>(shelf: &mut Shelf<S>, way: &S::Way, h: Handle) -> bool
    requires tidy { IsTidy shelf.old }
    ensures live { result ≡ is_some (get shelf.old.state.live (key h)) }
    ensures after { MatchBool result (shelf.new.state
        ≡ without_chunk shelf.old.state (key h)) (shelf.new ≡ shelf.old) }
    ensures keeps { Keeps shelf.old shelf.new }
    ensures tidy { IsTidy shelf.new }
{
    if !h.has_class() {
        return false;
    }
    if !shelf.release(Class { exp: h.exp }, h.index) {
        return false;
    }
    shelf.trim(way, Class { exp: h.exp });
    true
}

/// Writes at least one byte into a chunk that is live.
pub(crate) fn write_chunk<S: Supply>(
    shelf: &mut Shelf<S>,
    class: Class,
    index: u32,
    at: u32,
    bytes: &[u8],
)
    requires tidy { IsTidy shelf.old }
    requires some { 0 < length bytes.now }
    requires within { FitsIn (get shelf.old.state.live (number class.exp index))
        (at + length bytes.now) }
    ensures after { MatchOption (get shelf.old.state.live (number class.exp index)) ⊥
        (λ old. shelf.new.state
        ≡ with_chunk shelf.old.state (number class.exp index) (splice at bytes.now old)) }
    ensures keeps { Keeps shelf.old shelf.new }
    ensures held { shelf.new.held_ids ≡ shelf.old.held_ids }
    ensures tidy { IsTidy shelf.new }
{
    shelf.write(class, index, at, bytes);
}

/// Makes at least one byte of a chunk that is live `byte`.
pub(crate) fn fill_chunk<S: Supply>(
    shelf: &mut Shelf<S>,
    class: Class,
    index: u32,
    at: u32,
    len: u32,
    byte: u8,
)
    requires tidy { IsTidy shelf.old }
    requires some { 0 < len }
    requires within { FitsIn (get shelf.old.state.live (number class.exp index)) (at + len) }
    ensures after { MatchOption (get shelf.old.state.live (number class.exp index)) ⊥
        (λ old. shelf.new.state
        ≡ with_chunk shelf.old.state (number class.exp index)
        (splice at (replicate len byte) old)) }
    ensures keeps { Keeps shelf.old shelf.new }
    ensures held { shelf.new.held_ids ≡ shelf.old.held_ids }
    ensures tidy { IsTidy shelf.new }
{
    shelf.fill(class, index, at, len, byte);
}

/// What a number in a chunk's bytes names.
pub(crate) fn find_number<S: Supply>(shelf: &Shelf<S>, n: u64) -> Found
    requires { IsTidy shelf.now }
    ensures { found_reply (Ok result) ≡ found_at shelf.now.state n }
{
    if n == 0 {
        return Found::Nil;
    }
    let Some(h) = Handle::of_number(n) else {
        return Found::Loose(n);
    };
    if len_of_handle(shelf, h).is_none() {
        return Found::Loose(n);
    }
    Found::Live(h)
}

/// Another length for a chunk that is live, of its own class. In version 1 nothing changes.
pub(crate) fn resize_chunk<S: Supply>(shelf: &mut Shelf<S>, h: Handle, old: u32, len: u32)
    requires least { LEAST_EXPONENT ≤ h.exp }
    requires most { h.exp ≤ GREATEST_EXPONENT }
    requires tidy { IsTidy shelf.old }
    requires sized { IsSizeOf Two h.exp len }
    requires live { MatchOption (get shelf.old.state.live (key h)) ⊥
        (λ bytes. length bytes ≡ old) }
    ensures after { MatchOption (get shelf.old.state.live (key h)) ⊥
        (λ bytes. shelf.new.state
        ≡ resize shelf.old.version shelf.old.state h len bytes) }
    ensures keeps { Keeps shelf.old shelf.new }
    ensures held { shelf.new.held_ids ≡ shelf.old.held_ids }
    ensures tidy { IsTidy shelf.new }
{
    if shelf.version() == Version::One {
        return;
    }
    if len == old {
        return;
    }
    shelf.resize(Class { exp: h.exp }, h.index, len);
}

/// Copies the first `len` bytes of a chunk over those of a chunk of another class.
fn copy_chunk<S: Supply>(shelf: &mut Shelf<S>, from: Handle, to: Handle, len: u32)
    requires from_class { IsClass from.exp }
    requires to_class { IsClass to.exp }
    requires apart { from.exp ≡ to.exp → ⊥ }
    requires tidy { IsTidy shelf.old }
    requires source { FitsIn (get shelf.old.state.live (key from)) len }
    requires target { FitsIn (get shelf.old.state.live (key to)) len }
    requires touched { contains shelf.old.state.touched (key to) ≡ true }
    ensures copied { MatchOption (get shelf.old.state.live (key from)) ⊥
        (λ source. MatchOption (get shelf.old.state.live (key to)) ⊥ (λ target. shelf.new
        ≡ with_put shelf.old (key to) (Some (splice 0 (take len source) target)) true)) }
    ensures tidy { IsTidy shelf.new }
{
    if len == 0 {
        return;
    }
    shelf.copy(from, to, len);
}

/// Moves a chunk that is live to a fresh chunk of another class, where the quota allows it: its first bytes, and zeros after
/// them up to `len`.
pub(crate) fn move_chunk<S: Supply>(
    shelf: &mut Shelf<S>,
    way: &S::Way,
    from: Handle,
    old: u32,
    class: Class,
    len: u32,
) -> Option<u32>
    requires from_class { IsClass from.exp }
    requires apart { from.exp ≡ class.exp → ⊥ }
    requires tidy { IsTidy shelf.old }
    requires sized { IsSizeOf shelf.old.version class.exp len }
    requires live { MatchOption (get shelf.old.state.live (key from)) ⊥
        (λ bytes. length bytes ≡ old) }
    ensures answer { MatchOption result
        (shelf.old.quota < held_with_fresh shelf.old.state.live class.exp)
        (λ i. (held_with_fresh shelf.old.state.live class.exp ≤ shelf.old.quota)
        × (i ≡ fresh shelf.old.state.live class.exp)) }
    ensures after { MatchOption result (shelf.new ≡ shelf.old)
        (λ i. MatchOption (get shelf.old.state.live (key from)) ⊥
        (λ bytes. shelf.new.state
        ≡ without_chunk (with_chunk shelf.old.state (number class.exp i) (fitted len bytes))
        (key from))) }
    ensures keeps { Keeps shelf.old shelf.new }
    ensures tidy { IsTidy shelf.new }
{
    let Some(index) = take_fresh(shelf, way, class, len) else {
        return None;
    };
    let to = Handle {
        exp: class.exp,
        index,
    };
    copy_chunk(shelf, from, to, old.min(len));
    free_chunk(shelf, way, Class { exp: from.exp }, from.index);
    Some(index)
}
