//! An area with the lengths of its chunks.
ghost use Rattle.std.specs.Prelude.{◌≡◌, ℕ, ◌+◌, ◌-◌, ◌≤◌, ◌<◌, ◌*◌, ◌/◌, max, ◌↔◌, true, false, None, Some, [], List, length, take, drop, replicate, slice_index, slice_index_or, IsSome, is_some, IsTrue, MatchBool, MatchOption, option_map, unwrap_or, ◌&&◌};
ghost use Rattle.std.specs.List.{flat_map, range_with_len};
ghost use Rattle.dym_base.specs.Numbers.{size, per};
ghost use Rattle.dym_base.specs.HeapStep.{splice, fitted};
ghost use Rattle.dym_base.specs.declared.limits.TheConstants.{MOST_CHUNKS, SEGMENT_BYTES};
ghost use Rattle.dym_base.specs.declared.command.Version.TheVariants.{One, Two};
ghost use Rattle.dym_bits.specs.Bits.{bit_in, bits_of_bytes, IsSet, IsClear};
ghost use Rattle.dym_heap.specs.Meaning.{IsSizeOf};
ghost use Rattle.dym_heap.specs.Lengths.{version_of, numbers_of};
ghost use Rattle.dym_heap.specs.Shelves.{FitsIn};
ghost use Rattle.dym_heap.specs.Bodies.{IsBodyOf, IsBody, IsLoadedSizedArea};
ghost use Rattle.dym_heap.specs.Fetches.{area_chunk, marked, fetched, packed_at, IsReshaped};
ghost use Rattle.std.specs.Option.{ForSome};
ghost use Rattle.dym_heap.specs.AreaViews.{IsUsedRun};
ghost use Rattle.dym_heap.specs.SizedAreas.{SizedAreaMeaning, IsSizedArea, clean, used_touched, IsFreeIn, IsUsedFrom, IsRepeated, area_with_chunk, with_length, len_of};

use crate::chunk_load::{load_runs, load_sized};
use crate::lengths::Lengths;
use dym_area::Area;
use dym_base::Class;
use dym_bits::Bits;
use dym_region::Segment;
use std::marker::Model;

/// The bytes that `fill` writes at a time.
const BLOCK: usize = 1_024;

/// The bytes of a block for fills that are short.
const SMALL_BLOCK: usize = 64;

/// An area, and in version 2 the lengths of its chunks.
pub(crate) struct SizedArea<G: Segment> {
    area: Area<G>,
    lengths: Option<Lengths>,
}

impl<G: Segment> Model for SizedArea<G> {
    ghost use Rattle.dym_heap.specs.SizedAreas.{SizedAreaMeaning};

    ghost Value = { SizedAreaMeaning };

    ghost use Rattle.dym_heap.specs.SizedAreas.{place_of, IsMeasured};
    ghost use Rattle.dym_heap.specs.Lengths.{numbers_of};

    ghost view = { λ p. place_of p.area (numbers_of p.lengths) };

    ghost invariant = { λ p. IsMeasured p.area (numbers_of p.lengths) };
}

impl<G: Segment> SizedArea<G> {
    /// A place with no chunk in use.
    pub(crate) fn new(
        class: Class,
        ordinal: u32,
        segment: G,
        lengths: Option<Lengths>,
    ) -> SizedArea<G>
        ensures made { result ≡ record {
          version = version_of lengths;
          exponent = class.exp;
          ordinal = ordinal;
          identity = G.id segment;
          chunks = replicate (per class.exp) None;
          touched = replicate (per class.exp) false;
        } }
        ensures valid { IsSizedArea result }
    {
        SizedArea {
            area: Area::new(class, ordinal, segment),
            lengths,
        }
    }

    /// Takes the least free chunk, with `len` zero bytes, and answers its index.
    pub(crate) fn take_chunk(&mut self, len: u32) -> Option<u32>
        requires { IsSizeOf self.old.version self.old.exponent len }
        ensures taken { MatchOption result (self.new ≡ self.old)
            (λ i. self.new ≡ area_with_chunk self.old i (Some (replicate len 0)) true) }
        ensures free { MatchOption result ((i : ℕ) → i < length self.old.chunks
            → IsSome (slice_index_or self.old.chunks i None)) (λ i. IsFreeIn self.old.chunks i) }
        ensures valid { IsSizedArea self.new }
    {
        let Some(i) = self.area.take_first() else {
            return None;
        };
        note(&mut self.lengths, i, len);
        Some(i)
    }

    /// Whether every chunk is in use.
    pub(crate) fn is_full(&self) -> bool
        ensures { IsTrue result ↔ ((i : ℕ) → i < length self.now.chunks
            → IsSome (slice_index_or self.now.chunks i None)) }
    {
        self.area.is_full()
    }

    /// Whether no chunk is in use. The search begins at the front, where chunks are taken first.
    pub(crate) fn is_empty(&self) -> bool
        ensures { MatchBool result ((i : ℕ) → slice_index_or self.now.chunks i None ≡ None)
            ((i : ℕ) × IsSome (slice_index_or self.now.chunks i None)) }
    {
        self.area.first_used().is_none()
    }

    /// The least index from `from` on of a chunk in use.
    pub(crate) fn next_used(&self, from: u32) -> Option<u32>
        requires { from ≤ MOST_CHUNKS }
        ensures { MatchOption result ((i : ℕ) → from ≤ i
            → slice_index_or self.now.chunks i None ≡ None)
            (λ i. IsUsedFrom self.now.chunks from i) }
    {
        self.area.next_used(from)
    }

    /// How many bytes chunk `i` has, and None where it is free.
    pub(crate) fn chunk_len(&self, i: u32) -> Option<u32>
        requires { i < length self.now.chunks }
        ensures { result ≡ option_map length (slice_index_or self.now.chunks i None) }
    {
        if !self.area.is_used(i) {
            return None;
        }
        Some(noted_len(&self.lengths, self.area.class(), i))
    }

    /// The class.
    pub(crate) fn class(&self) -> Class
        ensures { result.exp ≡ self.now.exponent }
    {
        self.area.class()
    }

    /// The place among the areas of the class.
    pub(crate) fn ordinal(&self) -> u32
        ensures { result ≡ self.now.ordinal }
    {
        self.area.ordinal()
    }

    /// Where the bytes of the area's segment lie.
    pub(crate) fn start(&self) -> *const u8
        ensures { ForSome (G.place_of self.now.identity) (λ place. result ≡ place) }
    {
        self.area.start()
    }

    /// Which chunks are in use.
    pub(crate) fn used_bits(&self) -> &Bits
        ensures { (i : ℕ) → bit_in result.now i ≡ is_some (slice_index_or self.now.chunks i None) }
    {
        self.area.used()
    }

    /// Which chunks are touched.
    pub(crate) fn dirty_bits(&self) -> &Bits
        ensures { (i : ℕ) → bit_in result.now i ≡ slice_index_or self.now.touched i false }
    {
        self.area.dirty()
    }

    /// Whether chunk `i` is in use.
    pub(crate) fn is_used(&self, i: u32) -> bool
        requires { i < length self.now.chunks }
        ensures { result ≡ is_some (slice_index_or self.now.chunks i None) }
    {
        self.area.is_used(i)
    }

    /// Whether chunk `i` is touched.
    pub(crate) fn is_dirty(&self, i: u32) -> bool
        requires { i < length self.now.chunks }
        ensures { result ≡ slice_index_or self.now.touched i false }
    {
        self.area.is_dirty(i)
    }

    /// How many bytes chunk `i`, which is in use, has.
    pub(crate) fn used_len(&self, i: u32) -> u32
        requires { IsSome (slice_index_or self.now.chunks i None) }
        ensures { Some result ≡ option_map length (slice_index_or self.now.chunks i None) }
    {
        noted_len(&self.lengths, self.area.class(), i)
    }

    /// The bytes of chunk `i`, which is in use.
    pub(crate) fn used_bytes(&self, i: u32) -> &[u8]
        requires { IsSome (slice_index_or self.now.chunks i None) }
        ensures { Some result.now ≡ slice_index_or self.now.chunks i None }
    {
        self.area
            .bytes(i, 0, noted_len(&self.lengths, self.area.class(), i))
    }

    /// Chunk `i`, which is in use and has at least one byte, is touched.
    pub(crate) fn touch(&mut self, i: u32)
        requires { FitsIn (slice_index_or self.old.chunks i None) 1 }
        ensures touched { MatchOption (slice_index_or self.old.chunks i None) ⊥
            (λ old. self.new ≡ area_with_chunk self.old i (Some old) true) }
        ensures valid { IsSizedArea self.new }
    {
        self.area.set_dirty_at(i);
    }

    /// The bytes of chunk `i`, and None where it is free.
    pub(crate) fn chunk_bytes(&self, i: u32) -> Option<&[u8]>
        requires { i < length self.now.chunks }
        ensures { MatchOption result (slice_index_or self.now.chunks i None ≡ None)
            (λ bytes. slice_index_or self.now.chunks i None ≡ Some bytes.now) }
    {
        if !self.area.is_used(i) {
            return None;
        }
        Some(self.used_bytes(i))
    }

    /// The bytes of `count` chunks in use from chunk `from` on, each as long as its class allows: in version 1 those of the chunks.
    pub(crate) fn run_bytes(&self, from: u32, count: u32) -> &[u8]
        requires within { from * size self.now.exponent + count * size self.now.exponent
            ≤ SEGMENT_BYTES }
        requires used { IsUsedRun self.now.chunks from count }
        ensures { self.now.version ≡ One
            → result.now ≡ flat_map (λ i.
            unwrap_or (slice_index_or self.now.chunks i None) []) (range_with_len from count) }
    {
        self.area.run_bytes(from, count)
    }

    /// Chunk `i` is free from now on.
    pub(crate) fn release(&mut self, i: u32)
        requires { IsSome (slice_index_or self.old.chunks i None) }
        ensures freed { self.new ≡ area_with_chunk self.old i None false }
        ensures valid { IsSizedArea self.new }
    {
        self.area.release(i);
    }

    /// Chunk `i`, which was in use or free, is in use with these bytes, and isn't touched.
    pub(crate) fn put_back(&mut self, i: u32, bytes: &[u8])
        requires within { i < length self.old.chunks }
        requires sized { IsSizeOf self.old.version self.old.exponent (length bytes.now) }
        ensures back { self.new ≡ area_with_chunk self.old i (Some bytes.now) false }
        ensures valid { IsSizedArea self.new }
    {
        self.area.put_back(i, bytes);
        note(&mut self.lengths, i, bytes.len() as u32);
    }

    /// Copies the bytes of chunk `i` from its place `at` on into `out`.
    pub(crate) fn read(&self, i: u32, at: u32, out: &mut [u8])
        requires { FitsIn (slice_index_or self.now.chunks i None) (at + length out.old) }
        ensures { MatchOption (slice_index_or self.now.chunks i None) ⊥
            (λ bytes. out.new ≡ take (length out.old) (drop at bytes)) }
    {
        self.area.read(i, at, out);
    }

    /// Writes at least one byte.
    pub(crate) fn write(&mut self, i: u32, at: u32, bytes: &[u8])
        requires some { 0 < length bytes.now }
        requires within { FitsIn (slice_index_or self.old.chunks i None) (at + length bytes.now) }
        ensures written { MatchOption (slice_index_or self.old.chunks i None) ⊥
            (λ old. self.new ≡ area_with_chunk self.old i (Some (splice at bytes.now old)) true) }
        ensures valid { IsSizedArea self.new }
    {
        self.area.write(i, at, bytes);
    }

    /// The first `len` bytes of chunk `i`.
    pub(crate) fn front(&self, i: u32, len: u32) -> &[u8]
        requires { FitsIn (slice_index_or self.now.chunks i None) len }
        ensures { MatchOption (slice_index_or self.now.chunks i None) ⊥
            (λ bytes. result.now ≡ take len bytes) }
    {
        self.area.bytes(i, 0, len)
    }

    /// Copies the first `len` bytes, of which there is at least one, of chunk `j` of another area over those of chunk `i`.
    pub(crate) fn copy_from(&mut self, i: u32, source: &SizedArea<G>, j: u32, len: u32)
        requires some { 0 < len }
        requires source { FitsIn (slice_index_or source.now.chunks j None) len }
        requires target { FitsIn (slice_index_or self.old.chunks i None) len }
        ensures copied { MatchOption (slice_index_or source.now.chunks j None) ⊥
            (λ bytes. MatchOption (slice_index_or self.old.chunks i None) ⊥
            (λ old. self.new ≡ area_with_chunk self.old i
            (Some (splice 0 (take len bytes) old)) true)) }
        ensures valid { IsSizedArea self.new }
    {
        self.write(i, 0, source.front(j, len));
    }

    /// Makes at least one byte `byte`.
    pub(crate) fn fill(&mut self, i: u32, at: u32, len: u32, byte: u8)
        requires some { 0 < len }
        requires within { FitsIn (slice_index_or self.old.chunks i None) (at + len) }
        ensures filled { MatchOption (slice_index_or self.old.chunks i None) ⊥
            (λ old. self.new ≡ area_with_chunk self.old i
            (Some (splice at (replicate len byte) old)) true) }
        ensures valid { IsSizedArea self.new }
    {
        if len as usize <= SMALL_BLOCK {
            self.repeat(i, at, len, &[byte; SMALL_BLOCK]);
        } else {
            self.repeat(i, at, len, &[byte; BLOCK]);
        }
    }

    /// Writes at least one byte, which are those of a block of equal bytes, again and again.
    fn repeat(&mut self, i: u32, at: u32, len: u32, block: &[u8])
        requires some { 0 < len }
        requires block { IsRepeated block.now }
        requires within { FitsIn (slice_index_or self.old.chunks i None) (at + len) }
        ensures filled { MatchOption (slice_index_or self.old.chunks i None) ⊥
            (λ old. self.new ≡ area_with_chunk self.old i
            (Some (splice at (replicate len (slice_index block.now 0)) old)) true) }
        ensures valid { IsSizedArea self.new }
    {
        let size = block.len() as u32;
        let mut done = len.min(size);
        self.write(i, at, &block[..done as usize]);
        while done < len {
            let more = (len - done).min(size);
            self.write(i, at + done, &block[..more as usize]);
            done += more;
        }
    }

    /// Another length for a chunk, in version 2: its first bytes stay, and zeros follow. Where it shrinks, a zero behind its
    /// new end marks it as touched.
    pub(crate) fn resize(&mut self, i: u32, len: u32)
        requires version { self.old.version ≡ Two }
        requires sized { IsSizeOf Two self.old.exponent len }
        requires another { MatchOption (slice_index_or self.old.chunks i None) ⊥
            (λ old. length old ≡ len → ⊥) }
        ensures resized { MatchOption (slice_index_or self.old.chunks i None) ⊥
            (λ old. self.new ≡ area_with_chunk self.old i (Some (fitted len old)) true) }
        ensures valid { IsSizedArea self.new }
    {
        let old = noted_len(&self.lengths, self.area.class(), i);
        note(&mut self.lengths, i, len);
        if old < len {
            self.area.zero(i, old, len - old);
        } else {
            self.area.zero(i, len, 1);
        }
    }

    /// No chunk is touched.
    pub(crate) fn clear_touched(&mut self)
        ensures cleared { self.new
            ≡ record self.old { touched = replicate (length self.old.touched) false } }
        ensures valid { IsSizedArea self.new }
    {
        self.area.clear_dirty();
    }

    /// Chunk `i` isn't touched any more.
    pub(crate) fn forget(&mut self, i: u32)
        requires { i < length self.old.chunks }
        ensures forgotten { self.new
            ≡ area_with_chunk self.old i (slice_index_or self.old.chunks i None) false }
        ensures valid { IsSizedArea self.new }
    {
        self.area.clear_dirty_at(i);
    }

    /// Each chunk in use is touched.
    pub(crate) fn touch_all(&mut self)
        ensures touched { self.new ≡ used_touched self.old }
        ensures valid { IsSizedArea self.new }
    {
        let touched = self.area.dirty().union(self.area.used());
        self.area.set_dirty(touched);
    }

    /// Makes these chunks, which are in use, the touched ones.
    pub(crate) fn set_touched(&mut self, touched: Bits)
        requires len { length touched ≡ MOST_CHUNKS }
        requires used { (i : ℕ) → IsSet touched i → IsSome (slice_index_or self.old.chunks i None) }
        ensures same { self.new ≡ record self.old { touched = self.new.touched } }
        ensures touched { (i : ℕ) → slice_index_or self.new.touched i false ≡ bit_in touched i }
        ensures valid { IsSizedArea self.new }
    {
        self.area.set_dirty(touched);
    }

    /// The chunks in use among these are touched besides.
    pub(crate) fn mark(&mut self, packed: &Bits)
        ensures same { self.new ≡ record self.old { touched = self.new.touched } }
        ensures marked { (i : ℕ) → area_chunk self.new i
            ≡ marked (bit_in packed.now i) (area_chunk self.old i) }
        ensures valid { IsSizedArea self.new }
    {
        let packed = self.area.used().intersection(packed);
        let touched = self.area.dirty().union(&packed);
        self.area.set_dirty(touched);
    }

    /// Puts the wanted ones of the chunks that a body packs over those in use, in version 2 with their lengths. What is touched
    /// stays.
    pub(crate) fn load(&mut self, packed: &Bits, wanted: &Bits, body: &[u8])
        requires body { IsBody self.old.version self.old.exponent packed.now body.now }
        requires wanted { (i : ℕ) → IsSet wanted.now i → IsSet packed.now i }
        ensures loaded { (f : ℕ → List ℕ)
            → IsBodyOf self.old.version self.old.exponent packed.now body.now f
            → IsLoadedSizedArea self.old self.new wanted.now f }
        ensures valid { IsSizedArea self.new }
    {
        match &mut self.lengths {
            None => load_runs(&mut self.area, packed, wanted, body),
            Some(lengths) => load_sized(&mut self.area, lengths, packed, wanted, body),
        }
    }

    /// Puts the touched ones of the chunks that a body packs over those in use, in version 2 with their lengths. They are touched
    /// no more.
    pub(crate) fn fetch(&mut self, packed: &Bits, body: &[u8])
        requires body { IsBody self.old.version self.old.exponent packed.now body.now }
        ensures same { self.new
            ≡ record self.old { chunks = self.new.chunks; touched = self.new.touched } }
        ensures fetched { (f : ℕ → List ℕ)
            → IsBodyOf self.old.version self.old.exponent packed.now body.now f
            → (i : ℕ) → area_chunk self.new i
            ≡ fetched (packed_at packed.now f i) (area_chunk self.old i) }
        ensures valid { IsSizedArea self.new }
    {
        let wanted = self.wanted_of(packed);
        if wanted.next_set(0).is_none() {
            return;
        }
        self.load(packed, &wanted, body);
        let left = self.dirty_bits().difference(packed);
        self.set_touched(left);
    }

    /// Whether no chunk is touched. Where the answer is no, no clause tells that one is.
    pub(crate) fn is_unmodified(&self) -> bool
        ensures { IsTrue result → clean self.now ≡ self.now }
    {
        match self.area.dirty().next_set(0) {
            None => true,
            Some(_) => false,
        }
    }

    /// The touched ones among these chunks.
    fn wanted_of(&self, packed: &Bits) -> Bits
        ensures bits { (i : ℕ) → bit_in result i
            ≡ (slice_index_or self.now.touched i false && bit_in packed.now i) }
        ensures valid { IsSizedArea self.now }
    {
        self.area.dirty().intersection(packed)
    }

    /// Takes the use bits from a bitmap. A chunk that was in use and not touched keeps its bytes; each other one in use is touched,
    /// and has in version 2 all bytes of its class.
    pub(crate) fn shape(&mut self, use_bytes: &[u8])
        requires len { length use_bytes.now ≡ max 1 (per self.old.exponent / 8) }
        requires below { (i : ℕ) → IsSet (bits_of_bytes use_bytes.now) i
            → i < per self.old.exponent }
        ensures same { self.new
            ≡ record self.old { chunks = self.new.chunks; touched = self.new.touched } }
        ensures shaped { (i : ℕ) → IsReshaped (bit_in (bits_of_bytes use_bytes.now) i)
            (area_chunk self.old i) (area_chunk self.new i) }
        ensures valid { IsSizedArea self.new }
    {
        let unmodified = self.area.used().difference(self.area.dirty());
        self.area.set_from(use_bytes);
        let wanted = self.area.used().difference(&unmodified);
        self.area.set_dirty(wanted);
        let size = self.area.class().size();
        match &mut self.lengths {
            None => {}
            Some(lengths) => note_all(lengths, self.area.dirty(), size),
        }
    }

    /// The segment and the lengths.
    pub(crate) fn into_parts(self) -> (G, Option<Lengths>)
        ensures same { G.id result.0 ≡ self.identity }
        ensures version { version_of result.1 ≡ self.version }
    {
        let SizedArea { area, lengths } = self;
        (area.into_segment(), lengths)
    }
}

/// Notes `len` as the length of each of these chunks.
fn note_all(lengths: &mut Lengths, chunks: &Bits, len: u32)
    requires { length chunks.now ≡ MOST_CHUNKS }
    ensures noted { (i : ℕ) → IsSet chunks.now i
        → slice_index lengths.new.table.items i ≡ len }
    ensures others { (i : ℕ) → IsClear chunks.now i
        → slice_index lengths.new.table.items i ≡ slice_index lengths.old.table.items i }
{
    let mut from = 0;
    while let Some(i) = chunks.next_set(from) {
        lengths.set(i, len);
        from = i + 1;
    }
}

/// Notes the length of chunk `i` where lengths are kept.
fn note(lengths: &mut Option<Lengths>, i: u32, len: u32)
    requires { i < MOST_CHUNKS }
    ensures { numbers_of lengths.new ≡ with_length (numbers_of lengths.old) i len }
{
    if let Some(lengths) = lengths {
        lengths.set(i, len);
    }
}

/// The bytes of chunk `i` of a class: those of the class, or as many as were noted.
fn noted_len(lengths: &Option<Lengths>, class: Class, i: u32) -> u32
    requires { i < MOST_CHUNKS }
    ensures { result ≡ len_of class.exp (numbers_of lengths.now) i }
{
    match lengths {
        None => class.size(),
        Some(lengths) => lengths.get(i),
    }
}
