//! A segment in a vector of its own.
ghost use Rattle.std.specs.Prelude.{◌≡◌, None, IfOk, replicate, vec_len, vec_capacity};
ghost use Rattle.dym_base.specs.declared.limits.TheConstants.{SEGMENT_BYTES};
ghost use Rattle.dym_region.specs.Content.{zeros_behind, length-zeros_behind};
ghost use Rattle.dym_region.specs.Identity.{lone_id};

use crate::segment::Segment;
use crate::used_bytes::{bytes_at, fill_to, read_at, write_at, zero_at};
use dym_base::limits::SEGMENT_BYTES;
use std::alloc::{AllocError, Global};

/// A segment that stands alone. All segments of this kind have one identity.
#[derive(Drop)]
pub struct VecSegment {
    bytes: Vec<u8>,
    ghost room: { vec_capacity bytes ≡ SEGMENT_BYTES },
}

impl VecSegment {
    /// A segment of zero bytes.
    pub fn new(alloc: Global) -> Result<VecSegment, AllocError>
        ensures { IfOk result (λ s. ⟦<VecSegment as Segment>⟧.content s
            ≡ replicate SEGMENT_BYTES 0) }
    {
        let bytes = Vec::with_capacity(alloc, SEGMENT_BYTES as usize)?;
        Ok(VecSegment { bytes })
    }
}

impl Segment for VecSegment {
    ghost content = { λ s. zeros_behind (vec_capacity s.bytes) s.bytes.items };

    ghost id = { λ _. lone_id };

    ghost place_of = { λ _. None };

    ghost filled = { λ s. vec_len s.bytes };

    ghost content_is_whole = { λ s. length-zeros_behind (vec_capacity s.bytes) SEGMENT_BYTES
        (vec_len s.bytes) s.bytes.items s.bytes.ok s.room };

    fn start(&self) -> *const u8 {
        self.bytes.as_ptr()
    }

    fn bytes(&self, at: u32, len: u32) -> &[u8] {
        bytes_at(&self.bytes, at as usize, len as usize)
    }

    fn fill(&mut self, to: u32) {
        fill_to(&mut self.bytes, to as usize);
    }

    fn read(&self, at: u32, out: &mut [u8]) {
        read_at(&self.bytes, at as usize, out);
    }

    fn write(&mut self, at: u32, bytes: &[u8]) {
        write_at(&mut self.bytes, at as usize, bytes);
    }

    fn zero(&mut self, at: u32, len: u32) {
        zero_at(&mut self.bytes, at as usize, len as usize);
    }
}
