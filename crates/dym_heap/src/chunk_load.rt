//! Packed chunks are put over those of an area.
ghost use Rattle.std.specs.Prelude.{◌≡◌, ℕ, ◌+◌, ◌-◌, ◌*◌, ◌<◌, ◌≤◌, List, length, drop, slice_set};
ghost use Rattle.std.specs.List.{filter, range_with_len};
ghost use Rattle.std.specs.Int.{from_le_bytes, w32};
ghost use Rattle.dym_base.specs.Numbers.{size, per};
ghost use Rattle.dym_base.specs.declared.command.Version.TheVariants.{One, Two};
ghost use Rattle.dym_bits.specs.Bits.{bit_in, IsSet};
ghost use Rattle.dym_region.specs.Content.{part_of};
ghost use Rattle.dym_area.specs.Area.{IsValidArea, with_loaded};
ghost use Rattle.dym_heap.specs.Bodies.{IsBodyOf, IsBody, HoldsLoaded, IsLoadedRange, NotesLoaded, BeginsWithChunks};

use crate::lengths::Lengths;
use dym_area::Area;
use dym_base::limits::MOST_CHUNKS;
use dym_bits::Bits;
use dym_region::Segment;

/// So few chunks are counted sooner by their bits than by whole words.
const FEW_CHUNKS: u32 = 32;

/// Puts the wanted ones of the chunks that a body of version 1 packs over those of an area. A chunk that isn't in use has no
/// bytes that anybody sees.
pub(crate) fn load_runs<G: Segment>(area: &mut Area<G>, packed: &Bits, wanted: &Bits, body: &[u8])
    requires body { IsBody One area.old.exponent packed.now body.now }
    requires wanted { (i : ℕ) → IsSet wanted.now i → IsSet packed.now i }
    requires valid { IsValidArea area.old }
    ensures loaded { (f : ℕ → List ℕ) → IsBodyOf One area.old.exponent packed.now body.now f
        → HoldsLoaded area.old area.new wanted.now f }
    ensures valid { IsValidArea area.new }
{
    let size = area.class().size();
    let mut from = 0;
    let mut at = 0;
    while let Some(start) = packed.next_set(from) {
        let end = packed.run_end(start);
        let len = ((end - start) * size) as usize;
        load_range(area, wanted, start, end, &body[at..at + len]);
        at += len;
        from = end;
    }
}

/// Puts the wanted ones of these chunks from `first` up to `end` over those of an area, each run of them by one copy.
fn load_range<G: Segment>(area: &mut Area<G>, wanted: &Bits, first: u32, end: u32, bytes: &[u8])
    requires some { first < end }
    requires within { end ≤ per area.old.exponent }
    requires len { length bytes.now ≡ (end - first) * size area.old.exponent }
    requires valid { IsValidArea area.old }
    ensures loaded { IsLoadedRange area.old area.new wanted.now first end
        (λ i. part_of bytes.now ((i - first) * size area.old.exponent) (size area.old.exponent)) }
    ensures valid { IsValidArea area.new }
{
    let size = area.class().size();
    let mut from = first;
    while let Some(start) = wanted.next_set(from) {
        if start >= end {
            return;
        }
        let stop = wanted.run_end(start).min(end);
        let at = ((start - first) * size) as usize;
        let len = ((stop - start) * size) as usize;
        area.load_run(start, &bytes[at..at + len]);
        from = stop;
    }
}

/// Puts the wanted ones of the chunks that a body of version 2 packs over those of an area, and notes their lengths. Of the chunks
/// that aren't wanted the lengths alone are read, and behind the last wanted one nothing is.
pub(crate) fn load_sized<G: Segment>(
    area: &mut Area<G>,
    lengths: &mut Lengths,
    packed: &Bits,
    wanted: &Bits,
    body: &[u8],
)
    requires body { IsBody Two area.old.exponent packed.now body.now }
    requires wanted { (i : ℕ) → IsSet wanted.now i → IsSet packed.now i }
    requires valid { IsValidArea area.old }
    ensures loaded { (f : ℕ → List ℕ) → IsBodyOf Two area.old.exponent packed.now body.now f
        → HoldsLoaded area.old area.new wanted.now f }
    ensures noted { (f : ℕ → List ℕ) → IsBodyOf Two area.old.exponent packed.now body.now f
        → NotesLoaded lengths.old.table.items lengths.new.table.items wanted.now f }
    ensures valid { IsValidArea area.new }
{
    let mut from = 0;
    let mut at = 0;
    while let Some(i) = wanted.next_set(from) {
        let before = packed_between(packed, from, i);
        let place = after_chunks(body, at, before);
        let start = place + 4;
        let len = number_in(&body[place..start]);
        let end = start + len as usize;
        load_chunk(area, lengths, i, &body[start..end]);
        at = end;
        from = i + 1;
    }
}

/// How many chunks from `from` up to `end` are packed: a few are looked at one by one, more of them by words.
fn packed_between(packed: &Bits, from: u32, end: u32) -> u32
    requires order { from ≤ end }
    requires within { end ≤ MOST_CHUNKS }
    ensures { result ≡ length (filter (bit_in packed.now) (range_with_len from (end - from))) }
{
    if end - from > FEW_CHUNKS {
        return packed.count_below(end) - packed.count_below(from);
    }
    let mut count = 0;
    for i in from..end {
        if packed.get(i) {
            count += 1;
        }
    }
    count
}

/// The place behind `count` chunks of a body of version 2, the first of which begins at place `at`: by their lengths alone.
fn after_chunks(body: &[u8], at: usize, count: u32) -> usize
    requires within { at ≤ length body.now }
    requires chunks { (chunks : List (List ℕ)) × (rest : List ℕ) × (length chunks ≡ count)
        × BeginsWithChunks (drop at body.now) chunks rest }
    ensures within { result ≤ length body.now }
    ensures after { (chunks : List (List ℕ)) (rest : List ℕ) → length chunks ≡ count
        → BeginsWithChunks (drop at body.now) chunks rest → drop result body.now ≡ rest }
{
    let mut place = at;
    for _ in 0..count {
        let start = place + 4;
        let len = number_in(&body[place..start]);
        place = start + len as usize;
    }
    place
}

/// Puts the bytes over those of chunk `i` and notes how many they are.
fn load_chunk<G: Segment>(area: &mut Area<G>, lengths: &mut Lengths, i: u32, bytes: &[u8])
    requires chunk { i < per area.old.exponent }
    requires fits { length bytes.now ≤ size area.old.exponent }
    requires valid { IsValidArea area.old }
    ensures loaded { area.new ≡ with_loaded area.old i bytes.now }
    ensures noted { lengths.new.table.items
        ≡ slice_set lengths.old.table.items i (length bytes.now) }
    ensures valid { IsValidArea area.new }
{
    lengths.set(i, bytes.len() as u32);
    area.load_run(i, bytes);
}

/// The number in four bytes, little end first.
fn number_in(four: &[u8]) -> u32
    requires { length four.now ≡ 4 }
    ensures { result ≡ from_le_bytes w32 four.now }
{
    u32::from_le_bytes([four[0], four[1], four[2], four[3]])
}
