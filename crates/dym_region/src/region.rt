//! One raw allocation that is cut into segments, and freed when all of them are back.
ghost use Rattle.std.specs.Prelude.{◌≡◌, ◌*◌, ◌≤◌, IfOk, map, replicate, vec_len, vec_capacity};
ghost use Rattle.std.specs.List.{All};
ghost use Rattle.std.specs.List.Sorted.{IsPermutation};
ghost use Rattle.dym_base.specs.declared.limits.TheConstants.{MOST_SEGMENTS, SEGMENT_BYTES};
ghost use Rattle.dym_region.specs.Identity.{ids_of, AreDistinct};

use crate::block::{Claim, join, put_back, split, take_out};
use crate::raw_segment::RawSegment;
use crate::segment::Segment;
use dym_base::limits::{MOST_SEGMENTS, SEGMENT_BYTES};
use std::alloc::{AllocError, Global};
use std::marker::Model;
use std_alloc::vec::Lodged;

/// The right to free one allocation, once all segments that it was cut into are back.
pub struct Region {
    claim: Claim,
    end: Vec<u8, Lodged>,
    count: u32,
}

impl Model for Region {
    ghost use Rattle.std.specs.Prelude.{◌≡◌, ◌*◌, ◌≤◌};
    ghost use denote.RawPtr.{block_ptr};
    ghost use Rattle.dym_base.specs.declared.limits.TheConstants.{MOST_SEGMENTS, SEGMENT_BYTES};
    ghost use Rattle.dym_region.specs.Identity.{RegionShape};

    ghost Value = { RegionShape };

    ghost view = { λ r. record { id = r.claim.block; count = r.count } };

    // The claim waits for the room of all segments, and the end lies behind the last of them.
    ghost invariant = { λ r. (r.claim.size ≡ r.count * SEGMENT_BYTES)
        × (r.count ≤ MOST_SEGMENTS) × (r.end.cap ≡ 0)
        × (r.end.ptr ≡ block_ptr r.claim.block (r.count * SEGMENT_BYTES)) };
}

impl Region {
    /// A region of `count` segments of zero bytes, in the order of their numbers.
    pub fn new(alloc: Global, count: u32) -> Result<(Region, Vec<RawSegment>), AllocError>
        requires some { 1 ≤ count }
        requires most { count ≤ MOST_SEGMENTS }
        ensures count { IfOk result (λ r. r.0.count ≡ count) }
        ensures length { IfOk result (λ r. vec_len r.1 ≡ count) }
        ensures numbered { IfOk result (λ r. map ⟦<RawSegment as Segment>⟧.id r.1.items
            ≡ ids_of r.0.id count) }
        ensures distinct { IfOk result (λ r.
            AreDistinct (map ⟦<RawSegment as Segment>⟧.id r.1.items)) }
        ensures zero { IfOk result (λ r.
            All (λ s. ⟦<RawSegment as Segment>⟧.content s ≡ replicate SEGMENT_BYTES 0) r.1.items) }
    {
        let whole = Vec::with_capacity(alloc, count as usize * SEGMENT_BYTES as usize)?;
        let mut segments = Vec::with_capacity(alloc, count as usize)?;
        let (mut rest, claim) = take_out(whole);
        for number in 0..count {
            let (bytes, behind) = split(rest, SEGMENT_BYTES as usize);
            segments.push_reserved(RawSegment { bytes, number });
            rest = behind;
        }
        let region = Region {
            claim,
            end: rest,
            count,
        };
        Ok((region, segments))
    }

    /// Frees the region. The list holds all its segments, in any order. No memory is taken.
    pub fn close(self, segments: Vec<RawSegment>)
        requires { IsPermutation (ids_of self.id self.count)
            (map ⟦<RawSegment as Segment>⟧.id segments.items) }
    {
        drop(self.reunited(segments));
    }

    // The whole allocation, from the region's segments in any order.
    fn reunited(self, mut segments: Vec<RawSegment>) -> Vec<u8>
        requires { IsPermutation (ids_of self.id self.count)
            (map ⟦<RawSegment as Segment>⟧.id segments.items) }
        ensures { vec_capacity result ≡ self.count * SEGMENT_BYTES }
    {
        segments.sort_unstable_by_key(|segment| segment.number);
        let Region {
            claim,
            end,
            count: _,
        } = self;
        let mut rest = end;
        while let Some(segment) = segments.pop() {
            rest = join(segment.into_bytes(), rest);
        }
        put_back(rest, claim)
    }
}
