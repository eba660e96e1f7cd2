//! One segment cut into chunks.
ghost use Rattle.std.specs.Prelude.{◌≡◌, ℕ, ◌+◌, ◌*◌, ◌/◌, ◌<◌, ◌≤◌, ◌↔◌, max, length, replicate, true, false, IsTrue, MatchOption};
ghost use Rattle.dym_base.specs.Numbers.{size, per};
ghost use Rattle.std.specs.Option.{ForSome};
ghost use Rattle.dym_bits.specs.Bits.{bit_in, bits_of_bytes, clear_bits, IsSet, IsClear, IsFirstClear, IsNextSet, IsTopSet};
ghost use Rattle.dym_region.specs.Content.{part_of};
ghost use Rattle.dym_area.specs.Area.{IsValidArea, chunk_start, with_taken, with_released, with_put_back, with_written, with_loaded, with_clean, with_dirty_at, with_used_bytes};

use crate::ends::end_of;
use crate::summary::{WORD_CHUNKS, after_take, all_words, summary_of, with_room};
use dym_base::Class;
use dym_base::limits::{MOST_CHUNKS, SEGMENT_BYTES};
use dym_bits::Bits;
use dym_region::Segment;
use std::marker::Model;

/// A segment cut into chunks of one class, with a use bit and a dirty bit for each chunk. No call takes memory.
pub struct Area<G: Segment> {
    class: Class,
    ordinal: u32,
    used: Bits,
    dirty: Bits,
    /// Bit `q` is set where one of the chunks from `64 * q` to `64 * q + 63` is unused.
    room: u32,
    segment: G,
}

impl<G: Segment> Model for Area<G> {
    ghost use Rattle.dym_area.specs.Area.{AreaMeaning, IsSummedArea};

    ghost Value = { AreaMeaning };

    ghost view = { λ a. record {
      exponent = a.class.exp;
      ordinal = a.ordinal;
      used = a.used;
      dirty = a.dirty;
      content = G.content a.segment;
      identity = G.id a.segment;
    } };

    ghost invariant = { λ a. IsSummedArea (record {
      exponent = a.class.exp;
      ordinal = a.ordinal;
      used = a.used;
      dirty = a.dirty;
      content = G.content a.segment;
      identity = G.id a.segment;
    }) a.room (G.filled a.segment) };
}

impl<G: Segment> Area<G> {
    /// An area of a class over a segment, with no chunk used. `ordinal` is its place among the areas of its class.
    pub fn new(class: Class, ordinal: u32, seg: G) -> Area<G>
        ensures made { result ≡ record {
          exponent = class.exp;
          ordinal = ordinal;
          used = clear_bits MOST_CHUNKS;
          dirty = clear_bits MOST_CHUNKS;
          content = G.content seg;
          identity = G.id seg;
        } }
        ensures valid { IsValidArea result }
        ensures none { (i : ℕ) → IsClear result.used i }
    {
        Area {
            class,
            ordinal,
            used: Bits::new(),
            dirty: Bits::new(),
            room: all_words(class),
            segment: seg,
        }
    }

    /// The class.
    pub fn class(&self) -> Class
        ensures { result.exp ≡ self.now.exponent }
    {
        self.class
    }

    /// The place among the areas of the class.
    pub fn ordinal(&self) -> u32
        ensures { result ≡ self.now.ordinal }
    {
        self.ordinal
    }

    /// Where the bytes of the area's segment lie.
    pub fn start(&self) -> *const u8
        ensures { ForSome (G.place_of self.now.identity) (λ place. result ≡ place) }
    {
        self.segment.start()
    }

    /// Takes the least unused chunk, which becomes used, dirty and zero, and answers its index. None where all are used.
    pub fn take_first(&mut self) -> Option<u32>
        ensures first { MatchOption result
            ((k : ℕ) → k < per self.old.exponent → IsSet self.old.used k)
            (IsFirstClear self.old.used (per self.old.exponent)) }
        ensures after { MatchOption result (self.new ≡ self.old)
            (λ i. self.new ≡ with_taken self.old i) }
        ensures valid { IsValidArea self.new }
    {
        let i = self.first_free()?;
        let size = self.class.size();
        self.used.set(i);
        self.dirty.set(i);
        self.room = after_take(self.room, &self.used, self.class, i);
        self.segment.zero(i * size, size);
        Some(i)
    }

    /// The least unused chunk, and None where all are used. The summary names the word where it is found.
    fn first_free(&self) -> Option<u32>
        ensures { MatchOption result ((k : ℕ) → k < per self.now.exponent → IsSet self.now.used k)
            (IsFirstClear self.now.used (per self.now.exponent)) }
    {
        if self.room == 0 {
            return None;
        }
        let first = self.room.trailing_zeros() * WORD_CHUNKS;
        self.used.next_clear_in_word(first)
    }

    /// Gives up a used chunk: it is neither used nor dirty. Its bytes stay.
    pub fn release(&mut self, i: u32)
        requires { IsSet self.old.used i }
        ensures after { self.new ≡ with_released self.old i }
        ensures valid { IsValidArea self.new }
    {
        self.used.clear(i);
        self.dirty.clear(i);
        self.room = with_room(self.room, i);
    }

    /// Makes chunk `i`, used or not, a used one that isn't dirty, with these bytes at its front.
    pub fn put_back(&mut self, i: u32, bytes: &[u8])
        requires within { i < per self.old.exponent }
        requires fits { length bytes.now ≤ size self.old.exponent }
        ensures after { self.new ≡ with_put_back self.old i bytes.now }
        ensures valid { IsValidArea self.new }
    {
        let size = self.class.size();
        let front = i * size;
        self.used.set(i);
        self.dirty.clear(i);
        self.room = after_take(self.room, &self.used, self.class, i);
        self.segment.write(front, bytes);
        self.segment.fill(front + size);
    }

    /// Writes the bytes into a used chunk, from its place `at` on, and marks it dirty. An empty write changes nothing.
    pub fn write(&mut self, i: u32, at: u32, bytes: &[u8])
        requires used { IsSet self.old.used i }
        requires within { at + length bytes.now ≤ size self.old.exponent }
        ensures after { self.new ≡ with_written self.old i at bytes.now }
        ensures empty { length bytes.now ≡ 0 → self.new ≡ self.old }
        ensures valid { IsValidArea self.new }
    {
        let start = i * self.class.size() + at;
        if bytes.is_empty() {
            return;
        }
        self.dirty.set(i);
        self.segment.write(start, bytes);
    }

    /// Writes `len` zero bytes into a used chunk, from its place `at` on, as `write` does.
    pub fn zero(&mut self, i: u32, at: u32, len: u32)
        requires used { IsSet self.old.used i }
        requires within { at + len ≤ size self.old.exponent }
        ensures after { self.new ≡ with_written self.old i at (replicate len 0) }
        ensures empty { len ≡ 0 → self.new ≡ self.old }
        ensures valid { IsValidArea self.new }
    {
        let start = i * self.class.size() + at;
        if len == 0 {
            return;
        }
        self.dirty.set(i);
        self.segment.zero(start, len);
    }

    /// The `len` bytes of a used chunk from its place `at` on.
    pub fn bytes(&self, i: u32, at: u32, len: u32) -> &[u8]
        requires used { IsSet self.now.used i }
        requires within { at + len ≤ size self.now.exponent }
        ensures { result.now ≡ part_of self.now.content (chunk_start self.now i + at) len }
    {
        let start = i * self.class.size() + at;
        self.segment.bytes(start, len)
    }

    /// Fills `out` with the bytes of a used chunk, from its place `at` on.
    pub fn read(&self, i: u32, at: u32, out: &mut [u8])
        requires used { IsSet self.now.used i }
        requires within { at + length out.old ≤ size self.now.exponent }
        ensures { out.new
            ≡ part_of self.now.content (chunk_start self.now i + at) (length out.old) }
    {
        let start = i * self.class.size() + at;
        self.segment.read(start, out);
    }

    /// The bytes of the `count` chunks from chunk `from` on, which are used, one chunk after the other.
    pub fn run_bytes(&self, from: u32, count: u32) -> &[u8]
        requires { (i : ℕ) → from ≤ i → i < from + count → IsSet self.now.used i }
        ensures { result.now ≡ part_of self.now.content (chunk_start self.now from)
            (count * size self.now.exponent) }
    {
        if count == 0 {
            return self.segment.bytes(0, 0);
        }
        let size = self.class.size();
        self.segment.bytes(from * size, count * size)
    }

    /// Puts the bytes over those of the chunks from chunk `from` on. All bits stay as they are.
    pub fn load_run(&mut self, from: u32, bytes: &[u8])
        requires { chunk_start self.old from + length bytes.now ≤ SEGMENT_BYTES }
        ensures after { self.new ≡ with_loaded self.old from bytes.now }
        ensures valid { IsValidArea self.new }
    {
        self.segment.write(from * self.class.size(), bytes);
    }

    /// Whether chunk `i` is used.
    pub fn is_used(&self, i: u32) -> bool
        requires { i < per self.now.exponent }
        ensures { result ≡ bit_in self.now.used i }
    {
        self.used.get(i)
    }

    /// Whether chunk `i` is dirty.
    pub fn is_dirty(&self, i: u32) -> bool
        requires { i < per self.now.exponent }
        ensures { result ≡ bit_in self.now.dirty i }
    {
        self.dirty.get(i)
    }

    /// Whether all chunks are used, so that `take_first` answers None.
    pub fn is_full(&self) -> bool
        ensures { IsTrue result ↔ ((i : ℕ) → i < per self.now.exponent → IsSet self.now.used i) }
    {
        self.room == 0
    }

    /// The greatest used index, and None where no chunk is used.
    pub fn top(&self) -> Option<u32>
        ensures { MatchOption result ((i : ℕ) → IsClear self.now.used i) (IsTopSet self.now.used) }
    {
        self.used.top_set()
    }

    /// The least used index that is at least `from`, and None where there is none.
    pub fn next_used(&self, from: u32) -> Option<u32>
        requires { from ≤ MOST_CHUNKS }
        ensures { MatchOption result ((i : ℕ) → from ≤ i → IsClear self.now.used i)
            (IsNextSet self.now.used from) }
    {
        self.used.next_set(from)
    }

    /// The least used index, and None where no chunk is used. Only the bits of the class's chunks are read.
    pub fn first_used(&self) -> Option<u32>
        ensures { MatchOption result ((i : ℕ) → 0 ≤ i → IsClear self.now.used i)
            (IsNextSet self.now.used 0) }
    {
        self.used.next_set_within(0, self.class.per_area())
    }

    /// The use bits.
    pub fn used(&self) -> &Bits
        ensures { result.now ≡ self.now.used }
    {
        &self.used
    }

    /// The dirty bits.
    pub fn dirty(&self) -> &Bits
        ensures { result.now ≡ self.now.dirty }
    {
        &self.dirty
    }

    /// Marks no chunk dirty.
    pub fn clear_dirty(&mut self)
        ensures after { self.new ≡ with_clean self.old }
        ensures valid { IsValidArea self.new }
    {
        self.dirty.clear_all();
    }

    /// Marks chunk `i` as one that isn't dirty.
    pub fn clear_dirty_at(&mut self, i: u32)
        requires { i < per self.old.exponent }
        ensures after { self.new ≡ with_dirty_at self.old i false }
        ensures valid { IsValidArea self.new }
    {
        self.dirty.clear(i);
    }

    /// Marks chunk `i`, which is used, as dirty.
    pub fn set_dirty_at(&mut self, i: u32)
        requires { IsSet self.old.used i }
        ensures after { self.new ≡ with_dirty_at self.old i true }
        ensures valid { IsValidArea self.new }
    {
        self.dirty.set(i);
    }

    /// Makes these used chunks the dirty ones.
    pub fn set_dirty(&mut self, dirty: Bits)
        requires len { length dirty ≡ MOST_CHUNKS }
        requires used { (i : ℕ) → IsSet dirty i → IsSet self.old.used i }
        ensures after { self.new ≡ record self.old { dirty = dirty } }
        ensures valid { IsValidArea self.new }
    {
        self.dirty = dirty;
    }

    /// Takes the use bits from a bitmap of `max(1, per_area / 8)` bytes and marks no chunk dirty. The bytes stay.
    pub fn set_from(&mut self, use_bytes: &[u8])
        requires len { length use_bytes.now ≡ max 1 (per self.old.exponent / 8) }
        requires below { (i : ℕ) → IsSet (bits_of_bytes use_bytes.now) i
            → i < per self.old.exponent }
        ensures after { self.new ≡ with_used_bytes self.old use_bytes.now }
        ensures bits { (i : ℕ) → bit_in self.new.used i ≡ bit_in (bits_of_bytes use_bytes.now) i }
        ensures valid { IsValidArea self.new }
    {
        self.used.set_bytes(use_bytes);
        self.dirty = Bits::new();
        self.room = summary_of(&self.used, self.class);
        self.segment.fill(end_of(&self.used, self.class));
    }

    /// The segment, with the bytes as they stand.
    pub fn into_segment(self) -> G
        ensures content { G.content result ≡ self.content }
        ensures same { G.id result ≡ self.identity }
    {
        let Area {
            class: _,
            ordinal: _,
            used: _,
            dirty: _,
            room: _,
            segment,
        } = self;
        segment
    }
}
