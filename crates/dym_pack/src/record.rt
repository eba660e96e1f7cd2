//! A record and its readers.
ghost use Rattle.std.specs.Prelude.{◌≡◌, ℕ, ◌+◌, ◌<◌, ◌≤◌, ◌&&◌, nat_lt, true, length, take, drop, option_map};
ghost use Rattle.std.specs.List.{filter, range_with_len};
ghost use Rattle.std.specs.Int.{w32, from_le_bytes};
ghost use Rattle.dym_base.specs.Heaps.{held};
ghost use Rattle.dym_base.specs.Packed.{bitmap};
ghost use Rattle.dym_base.specs.StandsFor.{packed_by};
ghost use Rattle.dym_base.specs.declared.command.Kind.TheVariants.{Full, Inc};
ghost use Rattle.dym_bits.specs.Bits.{bit_in, bits_of_bytes};
ghost use Rattle.dym_pack.specs.Areas.{area_at, bytes_at, chunks_of, chunk_number, is_used_at};
ghost use Rattle.dym_pack.specs.ParsedAreas.{IsRecord, OfLog, packs_at, packed_from, body_from};
ghost use Rattle.dym_pack.specs.Offsets.{area_head, start_of};

use crate::indexed_bytes::{IndexedBytes, word_at};
use crate::layout::{NAME_BYTES, is_bit, kind_of, map_bytes, version_of};
use crate::walk::chunk_after;
use dym_base::{Class, Kind, Version};
use dym_bits::Bits;
use std::marker::Model;

/// An area of a record: its class exponent, its ordinal, and how many chunks the record packs for it.
pub struct AreaHead {
    pub exp: u8,
    pub ordinal: u32,
    pub packed: u32,
}

/// A heap at a time, as packed bytes. It shares nothing with the heap that it was packed from. No reader takes memory.
///
/// The bytes lie in one allocation, and behind them where each area begins and where the last one ends.
#[derive(Drop)]
pub struct Record {
    pub(crate) placed: IndexedBytes,
}

impl Model for Record {
    ghost use Rattle.std.specs.Prelude.{ℕ, List};
    ghost use Rattle.dym_pack.specs.Offsets.{IsRecordAt};

    ghost Value = { List ℕ };

    ghost view = { λ r. r.placed.bytes };

    ghost invariant = { λ r. IsRecordAt r.placed.bytes r.placed.offsets };
}

impl Record {
    /// The bytes.
    pub fn bytes(&self) -> &[u8]
        ensures { result.now ≡ self.now }
    {
        self.placed.bytes()
    }

    /// The version of the heap.
    pub fn version(&self) -> Version
        ensures { OfLog self.now (λ log. result ≡ log.version) }
    {
        version_of(self.whole()[0])
    }

    /// Whether the record is full or incremental.
    pub fn kind(&self) -> Kind
        ensures { OfLog self.now (λ log. result ≡ log.kind) }
    {
        kind_of(self.whole()[0])
    }

    /// The time of the log.
    pub fn time(&self) -> u64
        ensures { OfLog self.now (λ log. result ≡ log.time) }
    {
        word_at(self.whole(), 1)
    }

    /// How many bytes the record has.
    pub fn len(&self) -> u64
        ensures { result ≡ length self.now }
    {
        self.bytes().len() as u64
    }

    /// How many areas the record has.
    pub fn area_count(&self) -> u32
        ensures count { OfLog self.now (λ log. result ≡ held log.copy) }
        ensures recorded { IsRecord self.now }
    {
        (self.placed.offset_count() - 1) as u32
    }

    /// Area `k`.
    pub fn area(&self, k: u32) -> AreaHead
        requires { OfLog self.now (λ log. k < held log.copy) }
        ensures exp { OfLog self.now (λ log. result.exp ≡ (area_at log.copy k).exponent) }
        ensures ordinal { OfLog self.now (λ log. result.ordinal ≡ (area_at log.copy k).ordinal) }
        ensures packed { OfLog self.now (λ log. result.packed ≡ length (packed_from log k 0)) }
    {
        AreaHead {
            exp: self.area_class(k).exp,
            ordinal: self.area_ordinal(k),
            packed: self.packed_bits(k).count(),
        }
    }

    /// Whether chunk `i` of area `k` was in use.
    pub fn is_used(&self, k: u32, i: u32) -> bool
        requires area { OfLog self.now (λ log. k < held log.copy) }
        requires chunk { OfLog self.now (λ log. i < chunks_of log.copy k) }
        ensures { OfLog self.now (λ log. result ≡ is_used_at log.copy k i) }
    {
        let bytes = self.whole();
        is_bit(&bytes[self.start(k) + NAME_BYTES..], i)
    }

    /// The use bits of area `k` as they stand in the record.
    pub fn use_bytes(&self, k: u32) -> &[u8]
        requires { OfLog self.now (λ log. k < held log.copy) }
        ensures is { OfLog self.now (λ log.
            result.now ≡ bitmap (chunks_of log.copy k) (is_used_at log.copy k)) }
        ensures bits { OfLog self.now (λ log.
            (i : ℕ) → bit_in (bits_of_bytes result.now) i
            ≡ (nat_lt i (chunks_of log.copy k) && is_used_at log.copy k i)) }
    {
        self.use_map(k)
    }

    /// Which chunks of area `k` the record packs.
    pub fn packed_bits(&self, k: u32) -> Bits
        requires { OfLog self.now (λ log. k < held log.copy) }
        ensures { OfLog self.now (λ log.
            (i : ℕ) → bit_in result i ≡ (nat_lt i (chunks_of log.copy k) && packs_at log k i)) }
    {
        self.choice(k)
    }

    /// The packed chunks of area `k`, by rising index: the bytes of each, in version 2 after its length in four bytes.
    pub fn body(&self, k: u32) -> &[u8]
        requires { OfLog self.now (λ log. k < held log.copy) }
        ensures { OfLog self.now (λ log. result.now ≡ body_from log k 0) }
    {
        let bytes = self.whole();
        &bytes[self.start(k) + self.head_len(k)..self.start(k + 1)]
    }

    /// The bytes of chunk `i` of area `k`, and None where the record doesn't pack that chunk.
    pub fn chunk(&self, k: u32, i: u32) -> Option<&[u8]>
        requires area { OfLog self.now (λ log. k < held log.copy) }
        requires chunk { OfLog self.now (λ log. i < chunks_of log.copy k) }
        ensures { OfLog self.now (λ log.
            option_map (λ bytes. bytes.now) result ≡ packed_by log (chunk_number log.copy k i)) }
    {
        let bits = self.choice(k);
        if bits.get(i) {
            Some(self.nth_packed(k, i, bits.count_below(i)))
        } else {
            None
        }
    }

    /// Which chunks of area `k` the record packs.
    fn choice(&self, k: u32) -> Bits
        requires { OfLog self.now (λ log. k < held log.copy) }
        ensures bits { OfLog self.now (λ log.
            (i : ℕ) → bit_in result i ≡ (nat_lt i (chunks_of log.copy k) && packs_at log k i)) }
        ensures is { IsRecord self.now }
    {
        let _whole = self.whole();
        let mut bits = Bits::new();
        bits.set_bytes(self.packed_bytes(k));
        bits
    }

    /// The bytes of chunk `i` of area `k`, which stands after `n` other packed chunks of the area.
    fn nth_packed(&self, k: u32, i: u32, n: u32) -> &[u8]
        requires is { IsRecord self.now }
        requires area { OfLog self.now (λ log. k < held log.copy) }
        requires chunk { OfLog self.now (λ log. i < chunks_of log.copy k) }
        requires packs { OfLog self.now (λ log. packs_at log k i ≡ true) }
        requires count { OfLog self.now (λ log.
            n ≡ length (filter (packs_at log k) (range_with_len 0 i))) }
        ensures { OfLog self.now (λ log. result.now ≡ bytes_at log.copy k i) }
    {
        let body = self.body(k);
        match self.version() {
            Version::One => {
                let size = self.area_class(k).size() as usize;
                let at = n as usize * size;
                &body[at..at + size]
            }
            Version::Two => chunk_after(body, n),
        }
    }

    /// The bytes, which are those of a log.
    fn whole(&self) -> &[u8]
        ensures same { result.now ≡ self.now }
        ensures is { IsRecord result.now }
    {
        self.placed.bytes()
    }

    /// How many bytes stand before the packed chunks of area `k`.
    fn head_len(&self, k: u32) -> usize
        requires { OfLog self.now (λ log. k < held log.copy) }
        ensures is { OfLog self.now (λ log. result ≡ length (area_head log k)) }
        ensures few { result ≤ 517 }
    {
        let map = map_bytes(self.area_class(k)) as usize;
        match self.kind() {
            Kind::Full => NAME_BYTES + map,
            Kind::Inc => NAME_BYTES + 2 * map,
        }
    }

    /// The place of area `k` among those of its class.
    pub fn area_ordinal(&self, k: u32) -> u32
        requires { OfLog self.now (λ log. k < held log.copy) }
        ensures { OfLog self.now (λ log. result ≡ (area_at log.copy k).ordinal) }
    {
        ordinal_in(self.whole(), self.start(k))
    }

    /// Where area `k` begins, and for the number of areas where the last one ends.
    fn start(&self, k: u32) -> usize
        requires { OfLog self.now (λ log. k ≤ held log.copy) }
        ensures at { OfLog self.now (λ log. result ≡ start_of log k) }
        ensures within { result ≤ length self.now }
    {
        self.placed.offset(k as usize)
    }

    /// The class of area `k`.
    pub fn area_class(&self, k: u32) -> Class
        requires { OfLog self.now (λ log. k < held log.copy) }
        ensures { OfLog self.now (λ log. result.exp ≡ (area_at log.copy k).exponent) }
    {
        let bytes = self.whole();
        let exp = bytes[self.start(k)];
        Class { exp }
    }

    /// The use bits of area `k`.
    fn use_map(&self, k: u32) -> &[u8]
        requires { OfLog self.now (λ log. k < held log.copy) }
        ensures is { OfLog self.now (λ log.
            result.now ≡ bitmap (chunks_of log.copy k) (is_used_at log.copy k)) }
        ensures few { length result.now ≤ 256 }
    {
        let bytes = self.whole();
        let map = map_bytes(self.area_class(k)) as usize;
        let at = self.start(k) + NAME_BYTES;
        &bytes[at..at + map]
    }

    /// The bits of the chunks of area `k` that the record packs: in a full record the use bits, in another the touched bits.
    fn packed_bytes(&self, k: u32) -> &[u8]
        requires { OfLog self.now (λ log. k < held log.copy) }
        ensures is { OfLog self.now (λ log.
            result.now ≡ bitmap (chunks_of log.copy k) (packs_at log k)) }
        ensures few { length result.now ≤ 256 }
    {
        match self.kind() {
            Kind::Full => self.use_map(k),
            Kind::Inc => self.touched_bytes(k),
        }
    }

    /// The touched bits of area `k` of an incremental record.
    fn touched_bytes(&self, k: u32) -> &[u8]
        requires area { OfLog self.now (λ log. k < held log.copy) }
        requires kind { OfLog self.now (λ log. log.kind ≡ Inc) }
        ensures is { OfLog self.now (λ log.
            result.now ≡ bitmap (chunks_of log.copy k) (packs_at log k)) }
        ensures few { length result.now ≤ 256 }
    {
        let bytes = self.whole();
        let map = map_bytes(self.area_class(k)) as usize;
        let at = self.start(k) + NAME_BYTES + map;
        &bytes[at..at + map]
    }
}

/// The ordinal of the area that begins at `start`.
fn ordinal_in(bytes: &[u8], start: usize) -> u32
    requires { start + 5 ≤ length bytes.now }
    ensures { result ≡ from_le_bytes w32 (take 4 (drop (start + 1) bytes.now)) }
{
    let four = &bytes[start + 1..start + NAME_BYTES];
    u32::from_le_bytes([four[0], four[1], four[2], four[3]])
}
