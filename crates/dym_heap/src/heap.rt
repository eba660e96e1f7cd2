//! The heap.
ghost use Rattle.std.specs.Prelude.{◌≡◌, ℕ, ◌+◌, ◌-◌, ◌^◌, false, ◌≤◌, ◌<◌, false, None, Some, [], length, IsTrue, MatchOption, OnErr, IfOk, IfErr, is_some, option_map};
ghost use Rattle.std.specs.FinMap.{get, contains_key, insert};
ghost use Rattle.std.specs.FinSet as FinSet;
ghost use Rattle.dym_base.specs.HeapStep.{key, without_chunk};
ghost use Rattle.dym_base.specs.Objects.{empty_heap};
ghost use Rattle.dym_base.specs.declared.command.Version.TheVariants.{One};
ghost use Rattle.dym_base.specs.declared.command.Command.TheVariants.{Malloc, Calloc, Realloc, Free, Write, Fill, Read, Link, Follow, Sum};
ghost use Rattle.dym_base.specs.declared.limits.TheConstants.{MOST_QUOTA, LEAST_EXPONENT, GREATEST_EXPONENT};
ghost use Rattle.dym_base.specs.Heaps.{held};
ghost use Rattle.dym_base.specs.StandsFor.{packed_by};
ghost use Rattle.dym_pack.specs.ParsedAreas.{OfLog};
ghost use Rattle.dym_heap.specs.RecordLoads.{HaveOneSetOfHandles, IsLoaded};
ghost use Rattle.dym_heap.specs.Meaning.{HeapMeaning, IsSizeOf, IsSound};
ghost use Rattle.dym_heap.specs.Fetches.{heap_chunk, marked, fetched, IsReshaped};
ghost use Rattle.dym_heap.specs.Touches.{all_touched};
ghost use Rattle.dym_heap.specs.Undo.{with_chunk_back, without_touch};
ghost use Rattle.dym_heap.specs.Replies.{step_of, stepped, done_reply, chunk_reply, moved_reply, bytes_reply, found_reply, total_reply, after_key, IsNextLive};

use crate::byte_sum::sum_bytes;
use crate::chunk::{
    bytes_of_handle, fill_chunk, find_number, free_handle, len_of_handle, move_chunk, resize_chunk,
    write_chunk,
};
use crate::chunk_undo::{forget_chunk, put_chunk_back, take_chunk_away};
use crate::found::Found;
use crate::fresh_chunk::take_fresh;
use crate::live_walk::next_from;
use crate::record_fetch::{fetch_record, mark_record};
use crate::record_load::load_record;
use crate::record_shape::shape_shelf;
use crate::shelf::Shelf;
use dym_base::limits::MOST_QUOTA;
use dym_base::{Class, Handle, Refusal, Version};
use dym_pack::Record;
use dym_quota::Supply;
use std::alloc::{AllocError, Global};
use std::marker::Model;

/// The heap of one simulation object.
///
/// Contracts see its version, its quota, its live and touched chunks, the identities of the segments that it holds, where
/// these come from, and how many commands were applied to it. Only `open` and `open_as` take memory. A refusal changes
/// nothing.
pub struct Heap<S: Supply> {
    pub(crate) shelf: Shelf<S>,
    pub(crate) applied: u64,
}

impl<S: Supply> Model for Heap<S> {
    ghost use Rattle.std.specs.Prelude.{ℕ, List};
    ghost use Rattle.std.specs.Coded.{codes};
    ghost use Rattle.dym_heap.specs.Meaning.{HeapMeaning, live_code, touched_code};

    ghost Value = { HeapMeaning };

    ghost coded = { Prim.hlevel (codes, live_code, touched_code) };

    ghost use Rattle.dym_heap.specs.Shelves.{IsTidy};

    ghost view = { λ h. record {
      version = h.shelf.version;
      quota = h.shelf.quota;
      state = h.shelf.state;
      held_ids = h.shelf.held_ids;
      origin = h.shelf.origin;
      applied = h.applied;
    } };

    ghost invariant = { λ h. IsTidy h.shelf };
}

impl<S: Supply> Heap<S> {
    /// An empty heap of version 1. Room for all areas of the quota is taken here.
    pub fn open(alloc: Global, supply: S) -> Result<Heap<S>, (AllocError, S)>
        requires nothing_held { S.held_ids supply ≡ [] }
        requires least { 1 ≤ S.quota_of supply }
        requires most { S.quota_of supply ≤ MOST_QUOTA }
        ensures opened { IfOk result (λ h. h ≡ record {
          version = One;
          quota = S.quota_of supply;
          state = empty_heap;
          held_ids = [];
          origin = S.origin supply;
          applied = 0;
        }) }
        ensures sound { IfOk result IsSound }
        ensures back { IfErr result (λ e. e.1 ≡ supply) }
    {
        Heap::open_as(alloc, supply, Version::One)
    }

    /// An empty heap of a version. In version 2 room for all lengths is taken too.
    pub fn open_as(alloc: Global, supply: S, version: Version) -> Result<Heap<S>, (AllocError, S)>
        requires nothing_held { S.held_ids supply ≡ [] }
        requires least { 1 ≤ S.quota_of supply }
        requires most { S.quota_of supply ≤ MOST_QUOTA }
        ensures opened { IfOk result (λ h. h ≡ record {
          version = version;
          quota = S.quota_of supply;
          state = empty_heap;
          held_ids = [];
          origin = S.origin supply;
          applied = 0;
        }) }
        ensures sound { IfOk result IsSound }
        ensures back { IfErr result (λ e. e.1 ≡ supply) }
    {
        match Shelf::open(alloc, supply, version) {
            Ok(shelf) => Ok(Heap { shelf, applied: 0 }),
            Err(refused) => Err(refused),
        }
    }

    /// The version, which no call changes.
    pub fn version(&self) -> Version
        ensures { result ≡ self.now.version }
    {
        self.shelf.version()
    }

    /// How many segments the heap holds.
    pub fn held(&self) -> u32
        ensures { result ≡ length self.now.held_ids }
    {
        self.shelf.held()
    }

    /// The most segments that the heap may hold.
    pub fn quota(&self) -> u32
        ensures { result ≡ self.now.quota }
    {
        self.shelf.quota()
    }

    /// How many commands were applied.
    pub fn applied(&self) -> u64
        ensures { result ≡ self.now.applied }
    {
        self.applied
    }

    /// A fresh chunk of `len` zero bytes. In version 1 it has all bytes of its class.
    pub fn malloc(&mut self, way: &S::Way, len: u64) -> Result<Handle, Refusal>
        ensures reply { chunk_reply result ≡ (step_of self.old (Malloc len)).reply }
        ensures after { self.new
            ≡ record (stepped self.old (Malloc len)) { held_ids = self.new.held_ids } }
        ensures refused { OnErr result (self.new ≡ self.old) }
        ensures sound { IsSound self.new }
    {
        let version = self.shelf.version();
        let Some(class) = Class::of_len(len) else {
            return Err(Refusal::TooLarge);
        };
        let bytes = new_len(version, class, len);
        match take_fresh(&mut self.shelf, way, class, bytes) {
            Some(index) => Ok(Handle {
                exp: class.exp,
                index,
            }),
            None => Err(Refusal::Quota),
        }
    }

    /// A fresh chunk of `n * len` zero bytes.
    pub fn calloc(&mut self, way: &S::Way, n: u64, len: u64) -> Result<Handle, Refusal>
        ensures reply { chunk_reply result ≡ (step_of self.old (Calloc n len)).reply }
        ensures after { self.new
            ≡ record (stepped self.old (Calloc n len)) { held_ids = self.new.held_ids } }
        ensures refused { OnErr result (self.new ≡ self.old) }
        ensures sound { IsSound self.new }
    {
        self.malloc(way, n.saturating_mul(len))
    }

    /// A chunk of `len` bytes with the old bytes up to the smaller length, then zeros. A chunk of its own class keeps its
    /// handle; nil is as `malloc`, and a `len` of 0 frees the chunk.
    pub fn realloc(
        &mut self,
        way: &S::Way,
        h: Option<Handle>,
        len: u64,
    ) -> Result<Option<Handle>, Refusal>
        ensures reply { moved_reply result ≡ (step_of self.old (Realloc h len)).reply }
        ensures after { self.new ≡ record (stepped self.old
            (Realloc h len)) { held_ids = self.new.held_ids } }
        ensures refused { OnErr result (self.new ≡ self.old) }
        ensures sound { IsSound self.new }
    {
        let Some(h) = h else {
            return match self.malloc(way, len) {
                Ok(fresh) => Ok(Some(fresh)),
                Err(refusal) => Err(refusal),
            };
        };
        if len == 0 {
            return match self.free(way, Some(h)) {
                Ok(()) => Ok(None),
                Err(refusal) => Err(refusal),
            };
        }
        self.realloc_live(way, h, len)
    }

    /// As `realloc` of a handle and at least one byte.
    fn realloc_live(&mut self, way: &S::Way, h: Handle, len: u64) -> Result<Option<Handle>, Refusal>
        requires { 0 < len }
        ensures reply { moved_reply result ≡ (step_of self.old (Realloc (Some h) len)).reply }
        ensures after { self.new ≡ record (stepped self.old
            (Realloc (Some h) len)) { held_ids = self.new.held_ids } }
        ensures refused { OnErr result (self.new ≡ self.old) }
        ensures sound { IsSound self.new }
    {
        let Some(old) = len_of_handle(&self.shelf, h) else {
            return Err(Refusal::Dead);
        };
        let Some(class) = Class::of_len(len) else {
            return Err(Refusal::TooLarge);
        };
        if class.exp == h.exp {
            resize_chunk(&mut self.shelf, h, old, len as u32);
            return Ok(Some(h));
        }
        let bytes = new_len(self.shelf.version(), class, len);
        match move_chunk(&mut self.shelf, way, h, old, class, bytes) {
            Some(index) => Ok(Some(Handle {
                exp: class.exp,
                index,
            })),
            None => Err(Refusal::Quota),
        }
    }

    /// Frees a chunk. Nil does nothing.
    pub fn free(&mut self, way: &S::Way, h: Option<Handle>) -> Result<(), Refusal>
        ensures reply { done_reply result ≡ (step_of self.old (Free h)).reply }
        ensures after { self.new
            ≡ record (stepped self.old (Free h)) { held_ids = self.new.held_ids } }
        ensures refused { OnErr result (self.new ≡ self.old) }
        ensures sound { IsSound self.new }
    {
        let shelf = &mut self.shelf;
        let Some(h) = h else {
            return Ok(());
        };
        if !free_handle(shelf, way, h) {
            return Err(Refusal::Dead);
        }
        Ok(())
    }

    /// Writes the bytes into a chunk, from its place `at` on. An empty write changes nothing.
    pub fn write(&mut self, h: Handle, at: u32, bytes: &[u8]) -> Result<(), Refusal>
        ensures reply { done_reply result ≡ (step_of self.old (Write h at bytes.now)).reply }
        ensures after { self.new ≡ stepped self.old (Write h at bytes.now) }
        ensures refused { OnErr result (self.new ≡ self.old) }
        ensures sound { IsSound self.new }
    {
        let Some(len) = len_of_handle(&self.shelf, h) else {
            return Err(Refusal::Dead);
        };
        if at as usize + bytes.len() > len as usize {
            return Err(Refusal::Range);
        }
        if bytes.is_empty() {
            return Ok(());
        }
        write_chunk(&mut self.shelf, Class { exp: h.exp }, h.index, at, bytes);
        Ok(())
    }

    /// Makes `len` bytes of a chunk from its place `at` on `byte`. Where `len` is 0 nothing changes.
    pub fn fill(&mut self, h: Handle, at: u32, len: u32, byte: u8) -> Result<(), Refusal>
        ensures reply { done_reply result ≡ (step_of self.old (Fill h at len byte)).reply }
        ensures after { self.new ≡ stepped self.old (Fill h at len byte) }
        ensures refused { OnErr result (self.new ≡ self.old) }
        ensures sound { IsSound self.new }
    {
        let Some(size) = len_of_handle(&self.shelf, h) else {
            return Err(Refusal::Dead);
        };
        if u64::from(at) + u64::from(len) > u64::from(size) {
            return Err(Refusal::Range);
        }
        if len == 0 {
            return Ok(());
        }
        fill_chunk(
            &mut self.shelf,
            Class { exp: h.exp },
            h.index,
            at,
            len,
            byte,
        );
        Ok(())
    }

    /// Writes the number of a handle into a chunk, from its place `at` on, in eight bytes, little end first, or 0 for nil. The
    /// handle needn't be live.
    pub fn link(&mut self, h: Handle, at: u32, to: Option<Handle>) -> Result<(), Refusal>
        ensures reply { done_reply result ≡ (step_of self.old (Link h at to)).reply }
        ensures after { self.new ≡ stepped self.old (Link h at to) }
        ensures refused { OnErr result (self.new ≡ self.old) }
        ensures sound { IsSound self.new }
    {
        self.write(h, at, &link_number(to).to_le_bytes())
    }

    /// What the eight bytes of a chunk from its place `at` on name.
    pub fn follow(&self, h: Handle, at: u32) -> Result<Found, Refusal>
        ensures { found_reply result ≡ (step_of self.now (Follow h at)).reply }
    {
        let Some(size) = len_of_handle(&self.shelf, h) else {
            return Err(Refusal::Dead);
        };
        if u64::from(at) + 8 > u64::from(size) {
            return Err(Refusal::Range);
        }
        let mut bytes = [0; 8];
        self.shelf
            .read(Class { exp: h.exp }, h.index, at, &mut bytes);
        Ok(find_number(&self.shelf, u64::from_le_bytes(bytes)))
    }

    /// The sum of a chunk's bytes as numbers.
    pub fn sum(&self, h: Handle) -> Result<u64, Refusal>
        ensures { total_reply result ≡ (step_of self.now (Sum h)).reply }
    {
        let Some(bytes) = bytes_of_handle(&self.shelf, h) else {
            return Err(Refusal::Dead);
        };
        Ok(u64::from(sum_bytes(bytes)))
    }

    /// Copies the bytes of a chunk from its place `at` on into `out`.
    pub fn read(&self, h: Handle, at: u32, out: &mut [u8]) -> Result<(), Refusal>
        ensures reply { bytes_reply result out.new
            ≡ (step_of self.now (Read h at (length out.old))).reply }
        ensures refused { OnErr result (out.new ≡ out.old) }
    {
        let Some(bytes) = bytes_of_handle(&self.shelf, h) else {
            return Err(Refusal::Dead);
        };
        let from = at as usize;
        let end = from + out.len();
        if end > bytes.len() {
            return Err(Refusal::Range);
        }
        out.copy_from_slice(&bytes[from..end]);
        Ok(())
    }

    /// All bytes of a chunk, and None where it isn't live.
    pub fn bytes(&self, h: Handle) -> Option<&[u8]>
        ensures { MatchOption result (get self.now.state.live (key h) ≡ None)
            (λ bytes. get self.now.state.live (key h) ≡ Some bytes.now) }
    {
        bytes_of_handle(&self.shelf, h)
    }

    /// A chunk's length in bytes, and None where it isn't live.
    pub fn size_of(&self, h: Handle) -> Option<u32>
        ensures { result ≡ option_map length (get self.now.state.live (key h)) }
    {
        len_of_handle(&self.shelf, h)
    }

    /// Whether a chunk is live.
    pub fn is_live(&self, h: Handle) -> bool
        ensures { result ≡ contains_key self.now.state.live (key h) }
    {
        len_of_handle(&self.shelf, h).is_some()
    }

    /// The least live chunk above a handle, or the least of all.
    pub fn next_live(&self, after: Option<Handle>) -> Option<Handle>
        ensures { MatchOption result ((k : ℕ) → after_key after ≤ k
            → contains_key self.now.state.live k ≡ false) (λ h.
            IsNextLive self.now.state.live (after_key after) (key h)) }
    {
        next_from(&self.shelf, after)
    }

    /// No chunk is touched.
    pub fn clear_dirty(&mut self)
        ensures cleared { self.new ≡ record self.old {
          state = record {
            live = self.old.state.live;
            touched = FinSet.empty;
          };
        } }
        ensures sound { IsSound self.new }
    {
        self.shelf.clear_touched();
    }

    /// Each live chunk is touched, as after a write of every one. No memory is taken.
    pub fn touch_all(&mut self)
        ensures touched { self.new ≡ record self.old { state = all_touched self.old.state } }
        ensures sound { IsSound self.new }
    {
        self.shelf.touch_all();
    }

    /// Shapes the heap to a record's areas and use bits: areas that the record lacks are given back, then those that are
    /// missing are taken. Live are then the handles that the record has in use, with bytes that no clause tells; nothing is
    /// touched.
    pub fn shape_to(&mut self, way: &S::Way, rec: &Record)
        requires version { OfLog rec.now (λ log. log.version ≡ self.old.version) }
        requires within { OfLog rec.now (λ log. held log.copy ≤ self.old.quota) }
        ensures handles { OfLog rec.now (λ log. HaveOneSetOfHandles self.new.state.live log.copy) }
        ensures touched { self.new.state.touched ≡ FinSet.empty }
        ensures same { self.new
            ≡ record self.old { state = self.new.state; held_ids = self.new.held_ids } }
        ensures sound { IsSound self.new }
    {
        shape_shelf(&mut self.shelf, way, rec);
        self.shelf.clear_touched();
    }

    /// Writes the bytes, and in version 2 the length, of each chunk that the record packs and that is live now. What is
    /// touched stays as it is.
    pub fn load(&mut self, rec: &Record)
        requires version { OfLog rec.now (λ log. log.version ≡ self.old.version) }
        ensures loaded { OfLog rec.now (λ log.
            IsLoaded log self.old.state.live self.new.state.live) }
        ensures same { self.new ≡ record self.old {
          state = record {
            live = self.new.state.live;
            touched = self.old.state.touched;
          };
        } }
        ensures sound { IsSound self.new }
    {
        load_record(&mut self.shelf, rec);
    }

    /// Each chunk that is live and that the record packs is touched, besides those that are.
    pub fn mark(&mut self, rec: &Record)
        ensures marked { OfLog rec.now (λ log.
            (k : ℕ) → heap_chunk self.new.state k
            ≡ marked (is_some (packed_by log k)) (heap_chunk self.old.state k)) }
        ensures same { self.new ≡ record self.old { state = self.new.state } }
        ensures sound { IsSound self.new }
    {
        mark_record(&mut self.shelf, rec);
    }

    /// Shapes the heap to a record's areas and use bits, as `shape_to`. A chunk that was live and not touched keeps its bytes;
    /// each other one that is live then is touched, and no clause tells its bytes.
    pub fn reshape(&mut self, way: &S::Way, rec: &Record)
        requires within { OfLog rec.now (λ log. held log.copy ≤ self.old.quota) }
        ensures shaped { OfLog rec.now (λ log.
            (k : ℕ) → IsReshaped (contains_key log.copy k)
            (heap_chunk self.old.state k) (heap_chunk self.new.state k)) }
        ensures same { self.new
            ≡ record self.old { state = self.new.state; held_ids = self.new.held_ids } }
        ensures sound { IsSound self.new }
    {
        shape_shelf(&mut self.shelf, way, rec);
    }

    /// Writes the bytes, and in version 2 the length, of each touched chunk that the record packs. It is touched no more.
    pub fn fetch(&mut self, rec: &Record)
        requires version { OfLog rec.now (λ log. log.version ≡ self.old.version) }
        ensures fetched { OfLog rec.now (λ log.
            (k : ℕ) → heap_chunk self.new.state k
            ≡ fetched (packed_by log k) (heap_chunk self.old.state k)) }
        ensures same { self.new ≡ record self.old { state = self.new.state } }
        ensures sound { IsSound self.new }
    {
        fetch_record(&mut self.shelf, rec);
    }

    /// The chunk is dead, whether it was live or not. Areas that are then empty at the end of its
    /// class are given back.
    pub fn take_away(&mut self, way: &S::Way, h: Handle)
        ensures after { self.new ≡ record self.old {
          state = without_chunk self.old.state (key h);
          held_ids = self.new.held_ids;
        } }
        ensures sound { IsSound self.new }
    {
        take_chunk_away(&mut self.shelf, way, h);
    }

    /// The chunk is live with these bytes, and not touched, whether it was live or not.
    pub fn put_back(&mut self, way: &S::Way, h: Handle, bytes: &[u8])
        requires least { LEAST_EXPONENT ≤ h.exp }
        requires most { h.exp ≤ GREATEST_EXPONENT }
        requires sized { IsSizeOf self.old.version h.exp (length bytes.now) }
        requires within { held (insert self.old.state.live (key h) bytes.now) ≤ self.old.quota }
        ensures after { self.new ≡ record self.old {
          state = with_chunk_back self.old.state (key h) bytes.now;
          held_ids = self.new.held_ids;
        } }
        ensures sound { IsSound self.new }
    {
        put_chunk_back(&mut self.shelf, way, h, bytes);
    }

    /// The chunk isn't touched any more.
    pub fn forget(&mut self, h: Handle)
        ensures after { self.new
            ≡ record self.old { state = without_touch self.old.state (key h) } }
        ensures sound { IsSound self.new }
    {
        forget_chunk(&mut self.shelf, h);
    }

    /// Whether nothing is touched. Where the answer is no, no clause tells that something is.
    pub fn is_unmodified(&self) -> bool
        ensures { IsTrue result → self.now.state.touched ≡ FinSet.empty }
    {
        self.shelf.is_unmodified()
    }

    /// Gives all segments back, and answers the supply.
    pub fn end(self, way: &S::Way) -> S
        ensures nothing_held { S.held_ids result ≡ [] }
        ensures quota { S.quota_of result ≡ self.quota }
        ensures origin { S.origin result ≡ self.origin }
    {
        let Heap { shelf, applied: _ } = self;
        shelf.close(way)
    }
}

/// The bytes of a new chunk of a class for which `len` were asked.
fn new_len(version: Version, class: Class, len: u64) -> u32
    requires small { len < 2 ^ 32 }
    ensures { result ≡ Rattle.dym_base.specs.HeapStep.new_len version class.exp len }
{
    match version {
        Version::One => class.size(),
        Version::Two => len as u32,
    }
}

/// The number that stands for a handle or nil in a chunk's bytes.
fn link_number(to: Option<Handle>) -> u64
    ensures { result ≡ Rattle.dym_base.specs.HeapStep.link_number to }
{
    match to {
        Some(h) => h.number(),
        None => 0,
    }
}
