//! The areas of a heap, class by class.
ghost use Rattle.std.specs.Prelude.{◌≡◌, ℕ, ◌+◌, ◌-◌, ◌*◌, ◌/◌, ◌^◌, max, ◌≤◌, ◌<◌, true, false, None, Some, [], List, map, length, take, drop, replicate, IsSome, IsTrue, MatchBool, MatchOption, IfOk, IfErr, is_some, option_map, vec_len, vec_capacity};
ghost use Rattle.std.specs.FinMap.{get};
ghost use Rattle.std.specs.FinSet as FinSet;
ghost use Rattle.dym_base.specs.Numbers.{per, rank, number, exponent_of, index_of, IsClass};
ghost use Rattle.dym_base.specs.Objects.{empty_heap};
ghost use Rattle.dym_base.specs.HeapStep.{splice, fitted};
ghost use Rattle.dym_base.specs.declared.command.Version.TheVariants.{Two};
ghost use Rattle.dym_base.specs.declared.limits.TheConstants.{MOST_QUOTA};
ghost use Rattle.dym_bits.specs.Bits.{bit_in, bits_of_bytes, IsSet};
ghost use Rattle.dym_heap.specs.Meaning.{IsSizeOf};
ghost use Rattle.dym_heap.specs.Undo.{without_touch};
ghost use Rattle.dym_heap.specs.Touches.{all_touched};
ghost use Rattle.dym_heap.specs.SizedAreas.{clean, used_touched};
ghost use Rattle.dym_heap.specs.Bodies.{IsBodyOf, IsBody, loaded_chunk};
ghost use Rattle.dym_heap.specs.Fetches.{heap_chunk, marked, fetched, packed_at, IsReshaped, IsChangedArea};
ghost use Rattle.std.specs.Option.{ForSome};
ghost use Rattle.dym_heap.specs.AreaViews.{IsAreaOf};
ghost use Rattle.dym_heap.specs.Arrangement.{AreClear, HasTables, Owns};
ghost use Rattle.dym_heap.specs.Shelves.{ShelfMeaning, IsValidShelf, IsTidy, IsFirstFree, IsNextUsed, IsTrimmed, with_put, with_count, count_of, Trims, EndsFree, FitsIn};

use crate::area_order::{copy_between, put_in, take_out};
use crate::chunk_location::{
    STARTS, find, keep_table, mark_full, set_mark, shift_down, shift_up, take_table,
};
use crate::lengths::SpareLengths;
use crate::sized_area::SizedArea;
use dym_base::limits::{CLASSES, MOST_QUOTA};
use dym_base::{Class, Handle, Version};
use dym_bits::Bits;
use dym_quota::Supply;
use dym_region::Segment;
use std::alloc::{AllocError, Global};
use std::marker::Model;

/// The bitmap of an area with no chunk in use.
const NO_CHUNK: [u8; 256] = [0; 256];

/// The areas of a heap, and the supply that their segments come from.
pub(crate) struct Shelf<S: Supply> {
    version: Version,
    supply: S,
    /// The areas of all classes, class after class, ordinals rising.
    sized_areas: Vec<SizedArea<S::Seg>>,
    /// Where the areas of each class begin, and at the end where those of the last class end.
    starts: [u32; STARTS],
    /// For each class which of its areas are full.
    full: Vec<Bits>,
    /// Memory for the tables of lengths of areas to come.
    spare: Vec<SpareLengths>,
}

impl<S: Supply> Model for Shelf<S> {
    ghost use Rattle.dym_heap.specs.Shelves.{ShelfMeaning};

    ghost Value = { ShelfMeaning };

    ghost use Rattle.std.specs.Coded.{codes};
    ghost use Rattle.dym_heap.specs.Meaning.{live_code, touched_code};

    ghost coded = { Prim.hlevel (codes, live_code, touched_code) };

    ghost use Rattle.std.specs.Prelude.{vec_len, vec_capacity};
    ghost use Rattle.dym_heap.specs.Arrangement.{shelf_of, IsShelf, AreBound};

    ghost view = { λ s. shelf_of s.version (S.quota_of s.supply) (S.held_ids s.supply)
        (S.origin s.supply) s.starts s.sized_areas.items };

    ghost invariant = { λ s. IsShelf (record {
      version = s.version;
      quota = S.quota_of s.supply;
      ids = S.held_ids s.supply;
      starts = s.starts;
      sized_areas = s.sized_areas.items;
      full = s.full.items;
      room = vec_capacity s.sized_areas;
      spare = vec_len s.spare;
      spare_room = vec_capacity s.spare;
    }) × AreBound (S.binding (S.origin s.supply) (S.quota_of s.supply)) s.sized_areas.items };
}

impl<S: Supply> Shelf<S> {
    /// A shelf with no area. Room for all areas of the quota is taken here.
    pub(crate) fn open(
        alloc: Global,
        supply: S,
        version: Version,
    ) -> Result<Shelf<S>, (AllocError, S)>
        requires nothing_held { S.held_ids supply ≡ [] }
        requires least { 1 ≤ S.quota_of supply }
        requires most { S.quota_of supply ≤ MOST_QUOTA }
        ensures opened { IfOk result (λ s. s ≡ record {
          version = version;
          quota = S.quota_of supply;
          held_ids = [];
          origin = S.origin supply;
          counts = replicate CLASSES 0;
          state = empty_heap;
        }) }
        ensures valid_shelf { IfOk result IsValidShelf }
        ensures back { IfErr result (λ e. e.1 ≡ supply) }
    {
        let full = match clear_marks(alloc) {
            Ok(full) => full,
            Err(refused) => return Err((refused, supply)),
        };
        let quota = supply.quota();
        let spare = match tables(alloc, version, quota) {
            Ok(spare) => spare,
            Err(refused) => return Err((refused, supply)),
        };
        let sized_areas = match Vec::with_capacity(alloc, quota as usize) {
            Ok(sized_areas) => sized_areas,
            Err(refused) => return Err((refused, supply)),
        };
        Ok(Shelf {
            version,
            supply,
            sized_areas,
            starts: [0; STARTS],
            full,
            spare,
        })
    }

    pub(crate) fn version(&self) -> Version
        ensures { result ≡ self.now.version }
    {
        self.version
    }

    /// How many segments are held.
    pub(crate) fn held(&self) -> u32
        ensures { result ≡ length self.now.held_ids }
    {
        self.supply.held()
    }

    pub(crate) fn quota(&self) -> u32
        ensures { result ≡ self.now.quota }
    {
        self.supply.quota()
    }

    /// The supply that the segments come from.
    pub(crate) fn supply(&self) -> &S
        ensures { S.origin result.now ≡ self.now.origin }
    {
        &self.supply
    }

    /// The least free chunk of a class, which is now in use, touched, and of `len` zero bytes. None where no area of the
    /// class has a free chunk.
    pub(crate) fn take_chunk(&mut self, class: Class, len: u32) -> Option<u32>
        requires { IsSizeOf self.old.version class.exp len }
        ensures taken { MatchOption result (self.new ≡ self.old)
            (λ i. self.new ≡ with_put self.old (number class.exp i) (Some (replicate len 0)) true) }
        ensures first { MatchOption result
            ((i : ℕ) → i < count_of self.old class.exp * per class.exp
            → IsSome (get self.old.state.live (number class.exp i)))
            (λ i. IsFirstFree self.old.state class.exp i) }
        ensures valid_shelf { IsValidShelf self.new }
    {
        let rank = class.rank();
        let first = self.starts[rank];
        let count = self.starts[rank + 1] - first;
        let Some(ordinal) = self.full[rank].first_clear(count) else {
            return None;
        };
        let sized_area = &mut self.sized_areas[(first + ordinal) as usize];
        let Some(chunk) = sized_area.take_chunk(len) else {
            unreachable!();
        };
        let is_full = sized_area.is_full();
        mark_full(&mut self.full, rank, ordinal, is_full);
        Some(ordinal * class.per_area() + chunk)
    }

    /// A new area at the end of a class.
    #[inline(never)]
    pub(crate) fn add_area(&mut self, way: &S::Way, class: Class)
        requires { length self.old.held_ids < self.old.quota }
        ensures added { self.new
            ≡ with_count self.old class.exp (count_of self.old class.exp + 1) self.new.held_ids }
        ensures valid_shelf { IsValidShelf self.new }
    {
        let rank = class.rank();
        let at = self.starts[rank + 1];
        let ordinal = at - self.starts[rank];
        let lengths = take_table(&mut self.spare);
        let segment = self.supply.take(way, rank as u32, ordinal);
        let sized_area = SizedArea::new(class, ordinal, segment, lengths);
        put_in(&mut self.sized_areas, at as usize, sized_area);
        shift_up(&mut self.starts, rank);
    }

    /// Gives back the empty areas at the end of a class.
    pub(crate) fn trim(&mut self, way: &S::Way, class: Class)
        requires { IsValidShelf self.old }
        ensures trims { Trims self.old self.new class.exp }
        ensures valid_shelf { IsValidShelf self.new }
    {
        while self.ends_free(class) {
            self.drop_area(way, class);
        }
    }

    /// Whether a class ends with an empty area.
    fn ends_free(&self, class: Class) -> bool
        ensures { MatchBool result (EndsFree self.now class.exp) (IsTrimmed self.now class.exp) }
    {
        let rank = class.rank();
        let end = self.starts[rank + 1];
        if end == self.starts[rank] {
            return false;
        }
        self.sized_areas[end as usize - 1].is_empty()
    }

    /// Gives back the last area of a class, which is empty.
    fn drop_area(&mut self, way: &S::Way, class: Class)
        requires { EndsFree self.old class.exp }
        ensures dropped { self.new
            ≡ with_count self.old class.exp (count_of self.old class.exp - 1) self.new.held_ids }
        ensures fewer { length self.new.held_ids + 1 ≡ length self.old.held_ids }
        ensures valid_shelf { IsValidShelf self.new }
    {
        let rank = class.rank();
        let last = self.starts[rank + 1] as usize - 1;
        let sized_area = take_out(&mut self.sized_areas, last);
        let (segment, lengths) = sized_area.into_parts();
        self.supply.give(way, segment);
        keep_table(&mut self.spare, lengths);
        shift_down(&mut self.starts, rank);
    }

    /// Area `k` of all areas.
    pub(crate) fn sized_area(&self, k: u32) -> &SizedArea<S::Seg>
        requires tidy { IsTidy self.now }
        requires within { k < length self.now.held_ids }
        ensures area { IsAreaOf self.now.state.live self.now.state.touched k result.now }
        ensures version { result.now.version ≡ self.now.version }
    {
        &self.sized_areas[k as usize]
    }

    /// The bytes of a chunk, and None where it isn't in use.
    pub(crate) fn bytes(&self, class: Class, index: u32) -> Option<&[u8]>
        ensures { MatchOption result (get self.now.state.live (number class.exp index) ≡ None)
            (λ bytes. get self.now.state.live (number class.exp index) ≡ Some bytes.now) }
    {
        let Some(location) = find(&self.starts, class, index) else {
            return None;
        };
        self.sized_areas[location.sized_area].chunk_bytes(location.chunk)
    }

    /// A chunk in use with at least one byte is touched. The answer is where the segment lies that its area is over: that of its
    /// class and ordinal, where areas are bound.
    pub(crate) fn touch(&mut self, class: Class, index: u32) -> *const u8
        requires { FitsIn (get self.old.state.live (number class.exp index)) 1 }
        ensures touched { MatchOption (get self.old.state.live (number class.exp index)) ⊥
            (λ bytes. self.new ≡ with_put self.old (number class.exp index) (Some bytes) true) }
        ensures start { ForSome (S.binding self.old.origin self.old.quota) (λ f.
            ForSome (S.Seg.place_of (f (rank class.exp) (index / per class.exp)))
            (λ place. result ≡ place)) }
        ensures valid_shelf { IsValidShelf self.new }
    {
        let Some(location) = find(&self.starts, class, index) else {
            unreachable!();
        };
        let sized_area = &mut self.sized_areas[location.sized_area];
        let start = sized_area.start();
        sized_area.touch(location.chunk);
        start
    }

    /// Where the segment lies that a chunk's area is over: that of its class and ordinal, where areas are bound. None where
    /// the chunk isn't in use.
    pub(crate) fn start_of_used(&self, class: Class, index: u32) -> Option<*const u8>
        ensures { MatchOption result (get self.now.state.live (number class.exp index) ≡ None)
            (λ at. IsSome (get self.now.state.live (number class.exp index))
            × ForSome (S.binding self.now.origin self.now.quota) (λ f.
            ForSome (S.Seg.place_of (f (rank class.exp) (index / per class.exp)))
            (λ place. at ≡ place))) }
    {
        let Some(location) = find(&self.starts, class, index) else {
            return None;
        };
        let sized_area = &self.sized_areas[location.sized_area];
        if !sized_area.is_used(location.chunk) {
            return None;
        }
        Some(sized_area.start())
    }

    /// Where the segment lies that a touched chunk's area is over, likewise. None where the chunk isn't touched.
    #[inline(always)]
    pub(crate) fn start_of_touched(&self, class: Class, index: u32) -> Option<*const u8>
        ensures { MatchOption result
            (FinSet.contains self.now.state.touched (number class.exp index) ≡ false)
            (λ at. (FinSet.contains self.now.state.touched (number class.exp index) ≡ true)
            × ForSome (S.binding self.now.origin self.now.quota) (λ f.
            ForSome (S.Seg.place_of (f (rank class.exp) (index / per class.exp)))
            (λ place. at ≡ place))) }
    {
        let Some(location) = find(&self.starts, class, index) else {
            return None;
        };
        let sized_area = &self.sized_areas[location.sized_area];
        if !sized_area.is_dirty(location.chunk) {
            return None;
        }
        Some(sized_area.start())
    }

    /// How many bytes a chunk has that is in use.
    pub(crate) fn chunk_len(&self, class: Class, index: u32) -> Option<u32>
        ensures { result ≡ option_map length (get self.now.state.live (number class.exp index)) }
    {
        let Some(location) = find(&self.starts, class, index) else {
            return None;
        };
        self.sized_areas[location.sized_area].chunk_len(location.chunk)
    }

    /// The least index from `from` on of a chunk that is in use.
    pub(crate) fn next_used(&self, class: Class, from: u64) -> Option<u32>
        ensures { MatchOption result ((i : ℕ) → from ≤ i → i < 2 ^ 32
            → get self.now.state.live (number class.exp i) ≡ None)
            (λ i. IsNextUsed self.now.state class.exp from i) }
    {
        let rank = class.rank();
        let per = class.per_area();
        let first = self.starts[rank];
        let count = self.starts[rank + 1] - first;
        let end = count * per;
        if from >= u64::from(end) {
            return None;
        }
        let mut ordinal = from as u32 / per;
        let mut chunk = from as u32 % per;
        while ordinal < count {
            let sized_area = &self.sized_areas[(first + ordinal) as usize];
            if let Some(found) = sized_area.next_used(chunk) {
                return Some(ordinal * per + found);
            }
            ordinal += 1;
            chunk = 0;
        }
        None
    }

    /// The chunk is free from now on. False where it was so already.
    pub(crate) fn release(&mut self, class: Class, index: u32) -> bool
        ensures used { result ≡ is_some (get self.old.state.live (number class.exp index)) }
        ensures freed { MatchBool result
            (self.new ≡ with_put self.old (number class.exp index) None false)
            (self.new ≡ self.old) }
        ensures valid_shelf { IsValidShelf self.new }
    {
        let Some(location) = find(&self.starts, class, index) else {
            return false;
        };
        if !self.sized_areas[location.sized_area].is_used(location.chunk) {
            return false;
        }
        let sized_area = &mut self.sized_areas[location.sized_area];
        sized_area.release(location.chunk);
        let marks = &mut self.full[class.rank()];
        marks.clear(location.ordinal);
        true
    }

    /// A chunk of an area that is there, in use or free, is in use with these bytes, and isn't
    /// touched.
    pub(crate) fn put_back(&mut self, class: Class, index: u32, bytes: &[u8])
        requires there { index / per class.exp < count_of self.old class.exp }
        requires sized { IsSizeOf self.old.version class.exp (length bytes.now) }
        ensures back { self.new
            ≡ with_put self.old (number class.exp index) (Some bytes.now) false }
        ensures valid_shelf { IsValidShelf self.new }
    {
        let Some(location) = find(&self.starts, class, index) else {
            unreachable!();
        };
        let sized_area = &mut self.sized_areas[location.sized_area];
        sized_area.put_back(location.chunk, bytes);
        let is_full = sized_area.is_full();
        set_mark(&mut self.full, class.rank(), location.ordinal, is_full);
    }

    /// The chunk isn't touched any more.
    pub(crate) fn forget(&mut self, class: Class, index: u32)
        ensures forgotten { self.new
            ≡ record self.old { state = without_touch self.old.state (number class.exp index) } }
        ensures valid_shelf { IsValidShelf self.new }
    {
        let Some(location) = find(&self.starts, class, index) else {
            return;
        };
        let sized_area = &mut self.sized_areas[location.sized_area];
        sized_area.forget(location.chunk);
    }

    /// Copies the chunk's bytes from place `at` on into `out`.
    pub(crate) fn read(&self, class: Class, index: u32, at: u32, out: &mut [u8])
        requires { FitsIn (get self.now.state.live (number class.exp index))
            (at + length out.old) }
        ensures { MatchOption (get self.now.state.live (number class.exp index)) ⊥
            (λ bytes. out.new ≡ take (length out.old) (drop at bytes)) }
    {
        let Some(location) = find(&self.starts, class, index) else {
            unreachable!();
        };
        self.sized_areas[location.sized_area].read(location.chunk, at, out);
    }

    /// Copies the first `len` bytes, of which there is at least one, of a chunk over those of a chunk of another class.
    pub(crate) fn copy(&mut self, from: Handle, to: Handle, len: u32)
        requires from_class { IsClass from.exp }
        requires to_class { IsClass to.exp }
        requires apart { from.exp ≡ to.exp → ⊥ }
        requires some { 0 < len }
        requires source { FitsIn (get self.old.state.live (number from.exp from.index)) len }
        requires target { FitsIn (get self.old.state.live (number to.exp to.index)) len }
        ensures copied { MatchOption (get self.old.state.live (number from.exp from.index)) ⊥
            (λ source. MatchOption (get self.old.state.live (number to.exp to.index)) ⊥
            (λ old. self.new ≡ with_put self.old (number to.exp to.index)
            (Some (splice 0 (take len source) old)) true)) }
        ensures valid_shelf { IsValidShelf self.new }
    {
        let Some(source) = find(&self.starts, Class { exp: from.exp }, from.index) else {
            unreachable!();
        };
        let Some(target) = find(&self.starts, Class { exp: to.exp }, to.index) else {
            unreachable!();
        };
        copy_between(&mut self.sized_areas, source, target, len);
    }

    /// Writes at least one byte.
    pub(crate) fn write(&mut self, class: Class, index: u32, at: u32, bytes: &[u8])
        requires some { 0 < length bytes.now }
        requires within { FitsIn (get self.old.state.live (number class.exp index))
            (at + length bytes.now) }
        ensures written { MatchOption (get self.old.state.live (number class.exp index)) ⊥
            (λ old. self.new ≡ with_put self.old (number class.exp index)
            (Some (splice at bytes.now old)) true) }
        ensures valid_shelf { IsValidShelf self.new }
    {
        let Some(location) = find(&self.starts, class, index) else {
            unreachable!();
        };
        let sized_area = &mut self.sized_areas[location.sized_area];
        sized_area.write(location.chunk, at, bytes);
    }

    /// Makes at least one byte `byte`.
    pub(crate) fn fill(&mut self, class: Class, index: u32, at: u32, len: u32, byte: u8)
        requires some { 0 < len }
        requires within { FitsIn (get self.old.state.live (number class.exp index)) (at + len) }
        ensures filled { MatchOption (get self.old.state.live (number class.exp index)) ⊥
            (λ old. self.new ≡ with_put self.old (number class.exp index)
            (Some (splice at (replicate len byte) old)) true) }
        ensures valid_shelf { IsValidShelf self.new }
    {
        let Some(location) = find(&self.starts, class, index) else {
            unreachable!();
        };
        let sized_area = &mut self.sized_areas[location.sized_area];
        sized_area.fill(location.chunk, at, len, byte);
    }

    /// Another length for a chunk, of version 2: its first bytes stay, and zeros follow.
    pub(crate) fn resize(&mut self, class: Class, index: u32, len: u32)
        requires version { self.old.version ≡ Two }
        requires sized { IsSizeOf Two class.exp len }
        requires another { MatchOption (get self.old.state.live (number class.exp index)) ⊥
            (λ old. length old ≡ len → ⊥) }
        ensures resized { MatchOption (get self.old.state.live (number class.exp index)) ⊥
            (λ old. self.new ≡ with_put self.old (number class.exp index)
            (Some (fitted len old)) true) }
        ensures valid_shelf { IsValidShelf self.new }
    {
        let Some(location) = find(&self.starts, class, index) else {
            unreachable!();
        };
        let sized_area = &mut self.sized_areas[location.sized_area];
        sized_area.resize(location.chunk, len);
    }

    /// Puts the chunks that a body packs over those in use of an area of a class, where the class has that area.
    pub(crate) fn load_area(&mut self, class: Class, ordinal: u32, packed: &Bits, body: &[u8])
        requires { IsBody self.old.version class.exp packed.now body.now }
        ensures loaded { (f : ℕ → List ℕ) → IsBodyOf self.old.version class.exp packed.now body.now f
            → IsChangedArea self.old.state self.new.state class.exp ordinal
            (λ i old new. new ≡ loaded_chunk packed.now f i old) }
        ensures same { self.new ≡ record self.old { state = self.new.state } }
        ensures valid_shelf { IsValidShelf self.new }
    {
        let rank = class.rank();
        let first = self.starts[rank];
        if ordinal >= self.starts[rank + 1] - first {
            return;
        }
        let sized_area = &mut self.sized_areas[(first + ordinal) as usize];
        sized_area.load(packed, packed, body);
    }

    /// How many areas a class has.
    pub(crate) fn areas(&self, class: Class) -> u32
        ensures { result ≡ count_of self.now class.exp }
    {
        let rank = class.rank();
        self.starts[rank + 1] - self.starts[rank]
    }

    /// Takes the use bits of an area from a bitmap. A chunk that was in use and not touched keeps its bytes, and each other one in
    /// use is touched.
    pub(crate) fn shape_area(&mut self, class: Class, ordinal: u32, use_bytes: &[u8])
        requires area { ordinal < count_of self.old class.exp }
        requires len { length use_bytes.now ≡ max 1 (per class.exp / 8) }
        requires below { (i : ℕ) → IsSet (bits_of_bytes use_bytes.now) i → i < per class.exp }
        ensures shaped { IsChangedArea self.old.state self.new.state class.exp ordinal
            (λ i old new. IsReshaped (bit_in (bits_of_bytes use_bytes.now) i) old new) }
        ensures same { self.new ≡ record self.old { state = self.new.state } }
        ensures valid_shelf { IsValidShelf self.new }
    {
        let rank = class.rank();
        let sized_area = &mut self.sized_areas[(self.starts[rank] + ordinal) as usize];
        sized_area.shape(use_bytes);
        let is_full = sized_area.is_full();
        set_mark(&mut self.full, rank, ordinal, is_full);
    }

    /// The chunks in use among these of an area of a class are touched besides, where the class has that area.
    pub(crate) fn mark_area(&mut self, class: Class, ordinal: u32, packed: &Bits)
        ensures marked { IsChangedArea self.old.state self.new.state class.exp ordinal
            (λ i old new. new ≡ marked (bit_in packed.now i) old) }
        ensures same { self.new ≡ record self.old { state = self.new.state } }
        ensures valid_shelf { IsValidShelf self.new }
    {
        let rank = class.rank();
        let first = self.starts[rank];
        if ordinal >= self.starts[rank + 1] - first {
            return;
        }
        let sized_area = &mut self.sized_areas[(first + ordinal) as usize];
        sized_area.mark(packed);
    }

    /// Puts the touched ones of the chunks that a body packs over those in use of an area of a class, where the class has that
    /// area. They are touched no more.
    pub(crate) fn fetch_area(&mut self, class: Class, ordinal: u32, packed: &Bits, body: &[u8])
        requires { IsBody self.old.version class.exp packed.now body.now }
        ensures fetched { (f : ℕ → List ℕ) → IsBodyOf self.old.version class.exp packed.now body.now f
            → IsChangedArea self.old.state self.new.state class.exp ordinal (λ i old new.
            new ≡ fetched (packed_at packed.now f i) old) }
        ensures same { self.new ≡ record self.old { state = self.new.state } }
        ensures valid_shelf { IsValidShelf self.new }
    {
        let rank = class.rank();
        let first = self.starts[rank];
        if ordinal >= self.starts[rank + 1] - first {
            return;
        }
        let sized_area = &mut self.sized_areas[(first + ordinal) as usize];
        sized_area.fetch(packed, body);
    }

    /// Gives back the last area of a class, whatever its chunks are.
    pub(crate) fn give_last(&mut self, way: &S::Way, class: Class)
        requires { 0 < count_of self.old class.exp }
        ensures dropped { self.new ≡ record (with_count self.old class.exp
            (count_of self.old class.exp - 1) self.new.held_ids) { state = self.new.state } }
        ensures chunks { (k : ℕ)
            → (exponent_of k ≡ class.exp → index_of k / per class.exp < count_of self.new class.exp)
            → heap_chunk self.new.state k ≡ heap_chunk self.old.state k }
        ensures valid_shelf { IsValidShelf self.new }
    {
        let last = self.areas(class) - 1;
        self.shape_area(
            class,
            last,
            &NO_CHUNK[..(class.per_area() as usize / 8).max(1)],
        );
        self.drop_area(way, class);
    }

    /// No chunk is touched.
    pub(crate) fn clear_touched(&mut self)
        ensures cleared { self.new ≡ record self.old {
          state =
              record { live = self.old.state.live; touched = FinSet.empty };
        } }
        ensures valid_shelf { IsValidShelf self.new }
    {
        clear_sized_areas(&mut self.sized_areas);
    }

    /// Each chunk in use is touched.
    pub(crate) fn touch_all(&mut self)
        ensures touched { self.new
            ≡ record self.old { state = all_touched self.old.state } }
        ensures valid_shelf { IsValidShelf self.new }
    {
        touch_sized_areas(&mut self.sized_areas);
    }

    /// Whether no chunk is touched. Where the answer is no, no clause tells that one is.
    pub(crate) fn is_unmodified(&self) -> bool
        ensures { IsTrue result → self.now.state.touched ≡ FinSet.empty }
    {
        are_unmodified(&self.sized_areas)
    }

    /// Gives all segments back.
    pub(crate) fn close(self, way: &S::Way) -> S
        requires { IsValidShelf self }
        ensures nothing_held { S.held_ids result ≡ [] }
        ensures quota { S.quota_of result ≡ self.quota }
        ensures origin { S.origin result ≡ self.origin }
    {
        let Shelf {
            version: _,
            supply,
            sized_areas,
            starts: _,
            full: _,
            spare: _,
        } = self;
        give_all(supply, way, sized_areas)
    }
}

/// No area is full.
fn clear_marks(alloc: Global) -> Result<Vec<Bits>, AllocError>
    ensures { IfOk result (λ full. AreClear full.items) }
{
    let mut full = Vec::with_capacity(alloc, CLASSES)?;
    for _ in 0..CLASSES {
        full.push(Bits::new())?;
    }
    Ok(full)
}

/// Memory for the tables of lengths of as many areas as the quota allows, in version 2 alone.
fn tables(alloc: Global, version: Version, quota: u32) -> Result<Vec<SpareLengths>, AllocError>
    ensures { IfOk result (λ spare.
        HasTables version quota 0 (vec_len spare) (vec_capacity spare)) }
{
    match version {
        Version::One => Ok(Vec::new(alloc)),
        Version::Two => all_tables(alloc, quota),
    }
}

/// Memory for as many tables of lengths as the quota allows.
fn all_tables(alloc: Global, quota: u32) -> Result<Vec<SpareLengths>, AllocError>
    ensures { IfOk result (λ spare. (vec_len spare ≡ quota) × (quota ≤ vec_capacity spare)) }
{
    let mut spare = Vec::with_capacity(alloc, quota as usize)?;
    for _ in 0..quota {
        spare.push(SpareLengths::new(alloc)?)?;
    }
    Ok(spare)
}

/// Gives back the segments of all areas.
fn give_all<S: Supply>(mut supply: S, way: &S::Way, mut sized_areas: Vec<SizedArea<S::Seg>>) -> S
    requires { Owns (S.held_ids supply) sized_areas.items }
    ensures nothing_held { S.held_ids result ≡ [] }
    ensures quota { S.quota_of result ≡ S.quota_of supply }
    ensures origin { S.origin result ≡ S.origin supply }
{
    while let Some(sized_area) = sized_areas.pop() {
        let (segment, _lengths) = sized_area.into_parts();
        supply.give(way, segment);
    }
    sized_areas.destroy_empty();
    supply
}

/// Whether no chunk of these areas is touched.
fn are_unmodified<G: Segment>(sized_areas: &Vec<SizedArea<G>>) -> bool
    ensures { IsTrue result → map clean sized_areas.now.items ≡ sized_areas.now.items }
{
    for i in 0..sized_areas.len() {
        if !sized_areas[i].is_unmodified() {
            return false;
        }
    }
    true
}

/// No chunk of these areas is touched.
fn clear_sized_areas<G: Segment>(sized_areas: &mut Vec<SizedArea<G>>)
    ensures cleaned { sized_areas.new.items ≡ map clean sized_areas.old.items }
    ensures room { vec_capacity sized_areas.new ≡ vec_capacity sized_areas.old }
{
    for i in 0..sized_areas.len() {
        let sized_area = &mut sized_areas[i];
        sized_area.clear_touched();
    }
}

/// Each chunk in use of these areas is touched.
fn touch_sized_areas<G: Segment>(sized_areas: &mut Vec<SizedArea<G>>)
    ensures touched { sized_areas.new.items ≡ map used_touched sized_areas.old.items }
    ensures room { vec_capacity sized_areas.new ≡ vec_capacity sized_areas.old }
{
    for i in 0..sized_areas.len() {
        let sized_area = &mut sized_areas[i];
        sized_area.touch_all();
    }
}
