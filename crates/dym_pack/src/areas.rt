//! What can be packed.
ghost use Rattle.std.specs.Prelude.{◌≡◌, ℕ, ◌+◌, ◌<◌, ◌≤◌, ◌&&◌, nat_lt, true, length};
ghost use Rattle.std.specs.List.{flat_map, range_with_len};
ghost use Rattle.std.specs.FinSet.{contains};
ghost use Rattle.dym_base.specs.Heaps.{held};
ghost use Rattle.dym_base.specs.declared.command.Version.TheVariants.{One};
ghost use Rattle.dym_bits.specs.Bits.{bit_in};
ghost use Rattle.dym_pack.specs.Areas.{AreasMeaning, area_at, chunks_of, chunk_number, is_used_at, bytes_at};

use dym_base::{Class, Version};
use dym_bits::Bits;

/// The areas of a heap, exponents rising and, within one exponent, ordinals 0, 1, 2 and so on.
///
/// A dirty chunk is in use. `k` names an area and `i` a chunk of it.
pub trait Areas {
    ghost meaning: { Self → AreasMeaning };

    /// The version of the heap.
    fn version(&self) -> Version
        ensures { result ≡ (meaning self.now).version };

    /// How many areas there are.
    fn area_count(&self) -> u32
        ensures { result ≡ held (meaning self.now).live };

    /// The class of an area.
    fn area_class(&self, k: u32) -> Class
        requires { k < held (meaning self.now).live }
        ensures { result.exp ≡ (area_at (meaning self.now).live k).exponent };

    /// The place of an area among those of its class.
    fn area_ordinal(&self, k: u32) -> u32
        requires { k < held (meaning self.now).live }
        ensures { result ≡ (area_at (meaning self.now).live k).ordinal };

    /// The use bits of an area. Those past its last chunk are clear.
    fn used_bits(&self, k: u32) -> &Bits
        requires { k < held (meaning self.now).live }
        ensures { (i : ℕ) → bit_in result.now i ≡ (nat_lt i (chunks_of (meaning self.now).live k)
            && is_used_at (meaning self.now).live k i) };

    /// The dirty bits of an area.
    fn dirty_bits(&self, k: u32) -> &Bits
        requires { k < held (meaning self.now).live }
        ensures { (i : ℕ) → bit_in result.now i ≡ (nat_lt i (chunks_of (meaning self.now).live k)
            && contains (meaning self.now).touched (chunk_number (meaning self.now).live k i)) };

    /// Whether a chunk is in use.
    fn chunk_used(&self, k: u32, i: u32) -> bool
        requires area { k < held (meaning self.now).live }
        requires chunk { i < chunks_of (meaning self.now).live k }
        ensures { result ≡ is_used_at (meaning self.now).live k i };

    /// Whether a chunk is dirty.
    fn chunk_dirty(&self, k: u32, i: u32) -> bool
        requires area { k < held (meaning self.now).live }
        requires chunk { i < chunks_of (meaning self.now).live k }
        ensures { result
            ≡ contains (meaning self.now).touched (chunk_number (meaning self.now).live k i) };

    /// The length of a chunk in use.
    fn chunk_len(&self, k: u32, i: u32) -> u32
        requires area { k < held (meaning self.now).live }
        requires chunk { i < chunks_of (meaning self.now).live k }
        requires used { is_used_at (meaning self.now).live k i ≡ true }
        ensures { result ≡ length (bytes_at (meaning self.now).live k i) };

    /// The bytes of a chunk in use.
    fn chunk_bytes(&self, k: u32, i: u32) -> &[u8]
        requires area { k < held (meaning self.now).live }
        requires chunk { i < chunks_of (meaning self.now).live k }
        requires used { is_used_at (meaning self.now).live k i ≡ true }
        ensures { result.now ≡ bytes_at (meaning self.now).live k i };

    /// The bytes of `count` chunks in use that stand side by side, in version 1, where each has all bytes of its class.
    fn run_bytes(&self, k: u32, from: u32, count: u32) -> &[u8]
        requires version { (meaning self.now).version ≡ One }
        requires area { k < held (meaning self.now).live }
        requires chunks { from + count ≤ chunks_of (meaning self.now).live k }
        requires used { (i : ℕ) → from ≤ i → i < from + count
            → is_used_at (meaning self.now).live k i ≡ true }
        ensures { result.now
            ≡ flat_map (bytes_at (meaning self.now).live k) (range_with_len from count) };
}
