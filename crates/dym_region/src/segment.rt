//! What every segment can do.
ghost use Rattle.std.specs.Prelude.{◌≡◌, ℕ, ◌+◌, ◌≤◌, List, length, replicate, Option};
ghost use Rattle.std.specs.Option.{ForSome};
ghost use denote.RawPtr.{Ptr};
ghost use Rattle.dym_base.specs.declared.limits.TheConstants.{SEGMENT_BYTES};
ghost use Rattle.dym_region.specs.Content.{part_of, with_part};
ghost use Rattle.dym_region.specs.declared.segment.SegmentId.{SegmentId};

use dym_base::limits::SEGMENT_BYTES;

/// The identity of a segment, which contracts alone see: no value of it is made.
pub struct SegmentId {
    /// The region that the segment was cut from.
    pub region: u64,
    /// The segment's number in its region.
    pub number: u32,
}

/// 65,536 bytes with one owner. Memory is touched only as far as bytes were used: those behind are zero, and are made real
/// when they are first written, or by `fill`.
pub trait Segment {
    ghost content: { Self → List ℕ };

    ghost id: { Self → SegmentId };

    // Where the bytes of the segment of an identity lie, where the identity tells it.
    ghost place_of: { SegmentId → Option Ptr };

    // How many bytes are real, from the first on.
    ghost filled: { Self → ℕ };

    /// Where the bytes lie. No call moves them.
    fn start(&self) -> *const u8
        ensures { ForSome (place_of (id self.now)) (λ place. result ≡ place) };

    /// The `len` bytes from place `at` on, which are real.
    fn bytes(&self, at: u32, len: u32) -> &[u8]
        requires { at + len ≤ filled self.now }
        ensures { result.now ≡ part_of (content self.now) at len };

    /// Makes at least the first `to` bytes real.
    fn fill(&mut self, to: u32)
        requires { to ≤ SEGMENT_BYTES }
        ensures reached { to ≤ filled self.new }
        ensures more { filled self.old ≤ filled self.new }
        ensures content { content self.new ≡ content self.old }
        ensures same { id self.new ≡ id self.old };

    /// Copies the bytes from place `at` on into `out`.
    fn read(&self, at: u32, out: &mut [u8])
        requires { at + length out.old ≤ SEGMENT_BYTES }
        ensures { out.new ≡ part_of (content self.now) at (length out.old) };

    /// Copies `bytes` to place `at`.
    fn write(&mut self, at: u32, bytes: &[u8])
        requires { at + length bytes.now ≤ SEGMENT_BYTES }
        ensures written { content self.new ≡ with_part (content self.old) at bytes.now }
        ensures reached { at + length bytes.now ≤ filled self.new }
        ensures more { filled self.old ≤ filled self.new }
        ensures same { id self.new ≡ id self.old };

    /// Makes the `len` bytes from place `at` on zero.
    fn zero(&mut self, at: u32, len: u32)
        requires { at + len ≤ SEGMENT_BYTES }
        ensures zeroed { content self.new ≡ with_part (content self.old) at (replicate len 0) }
        ensures reached { at + len ≤ filled self.new }
        ensures more { filled self.old ≤ filled self.new }
        ensures same { id self.new ≡ id self.old };

    ghost content_is_whole: { (s : Self) → length (content s) ≡ SEGMENT_BYTES };
}
