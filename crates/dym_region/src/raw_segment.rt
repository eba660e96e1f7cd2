//! A segment that was cut from a region.
ghost use Rattle.std.specs.Prelude.{◌≡◌, ◌*◌, Some, vec_len, vec_capacity};
ghost use denote.RawPtr.{block_of, block_ptr};
ghost use Rattle.dym_base.specs.declared.limits.TheConstants.{SEGMENT_BYTES};
ghost use Rattle.dym_region.specs.Content.{zeros_behind, length-zeros_behind};
ghost use Rattle.dym_region.specs.Identity.{start_of};

use crate::segment::Segment;
use crate::used_bytes::{bytes_at, fill_to, read_at, write_at, zero_at};
use dym_base::limits::SEGMENT_BYTES;
use std_alloc::vec::Lodged;

/// A segment of a region, and the only right to its bytes. Where it is dropped, its region is never freed.
#[derive(Drop)]
pub struct RawSegment {
    pub(crate) bytes: Vec<u8, Lodged>,
    pub(crate) number: u32,
    ghost room: { vec_capacity bytes ≡ SEGMENT_BYTES },
    ghost placed: { bytes.ptr ≡ block_ptr (block_of bytes.ptr) (number * SEGMENT_BYTES) },
}

impl RawSegment {
    /// The segment's number in its region.
    pub fn number(&self) -> u32
        ensures { result ≡ (⟦<RawSegment as Segment>⟧.id self.now).number }
    {
        self.number
    }

    /// The segment's bytes, whose room is to be joined with that of its neighbours.
    pub(crate) fn into_bytes(self) -> Vec<u8, Lodged>
        ensures { result ≡ self.bytes }
    {
        let RawSegment { bytes, number: _ } = self;
        bytes
    }
}

impl Segment for RawSegment {
    ghost content = { λ s. zeros_behind (vec_capacity s.bytes) s.bytes.items };

    ghost id = { λ s. record { region = block_of s.bytes.ptr; number = s.number } };

    ghost place_of = { λ id. Some (start_of id) };

    ghost filled = { λ s. vec_len s.bytes };

    ghost content_is_whole = { λ s. length-zeros_behind (vec_capacity s.bytes) SEGMENT_BYTES
        (vec_len s.bytes) s.bytes.items s.bytes.ok s.room };

    fn start(&self) -> *const u8 {
        self.bytes.as_ptr()
    }

    fn bytes(&self, at: u32, len: u32) -> &[u8] {
        bytes_at(&self.bytes, at as usize, len as usize)
    }

    fn fill(&mut self, to: u32) {
        fill_to(&mut self.bytes, to as usize);
    }

    fn read(&self, at: u32, out: &mut [u8]) {
        read_at(&self.bytes, at as usize, out);
    }

    fn write(&mut self, at: u32, bytes: &[u8]) {
        write_at(&mut self.bytes, at as usize, bytes);
    }

    fn zero(&mut self, at: u32, len: u32) {
        zero_at(&mut self.bytes, at as usize, len as usize);
    }
}
