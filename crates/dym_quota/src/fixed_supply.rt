//! A supply in which each area has one segment of a region, and no other.
ghost use Rattle.std.specs.Prelude.{◌≡◌, ◌*◌, ◌≤◌, [], map, Some, IfOk, length, vec_len, vec_capacity};
ghost use denote.RawPtr.{block_ptr};
ghost use Rattle.dym_base.specs.declared.limits.TheConstants.{CLASSES, MOST_QUOTA};
ghost use Rattle.dym_quota.specs.Bound.{missing, present, region_origin, bound_by, bound_by_apart};
ghost use Rattle.dym_quota.specs.Bound.{AreNumbered};

use crate::supply::Supply;
use dym_base::limits::{CLASSES, MOST_QUOTA};
use dym_region::{RawSegment, Region, Segment};
use std::alloc::{AllocError, Global};

/// Twelve classes of as many segments as the quota has, in one region. Area `ordinal` of a class has segment
/// `class * quota + ordinal`. Only as many as the quota allows are out at a time.
pub struct FixedSupply {
    pub(crate) region: Region,
    pub(crate) quota: u32,
    pub(crate) held: u32,
    pub(crate) segments: Vec<Option<RawSegment>>,
    /// Room for all segments, which `close` takes.
    pub(crate) list: Vec<RawSegment>,
    /// Where the region begins.
    pub(crate) start: *const u8,
    ghost most: { quota ≤ MOST_QUOTA },
    ghost whole: { vec_len segments ≡ CLASSES * quota },
    ghost cut: { region.count ≡ CLASSES * quota },
    ghost empty: { vec_len list ≡ 0 },
    ghost room: { CLASSES * quota ≤ vec_capacity list },
    ghost begins: { start ≡ block_ptr region.id 0 },
    ghost numbered: { AreNumbered ⟦<RawSegment as Segment>⟧.id region.id segments.items },
    ghost counted: { length (missing region.id 0 segments.items) ≡ held },
}

impl FixedSupply {
    /// A supply of `quota` segments, for areas of twelve classes. An `AllocError` comes where there is no memory for its region:
    /// twelve times as many segments are reserved, of which only what is touched takes memory.
    pub fn open(alloc: Global, quota: u32) -> Result<FixedSupply, AllocError>
        requires least { 1 ≤ quota }
        requires most { quota ≤ MOST_QUOTA }
        ensures quota { IfOk result (λ s. ⟦<FixedSupply as Supply>⟧.quota_of s ≡ quota) }
        ensures nothing_held { IfOk result (λ s. ⟦<FixedSupply as Supply>⟧.held_ids s ≡ []) }
        ensures origin { IfOk result (λ s. ⟦<FixedSupply as Supply>⟧.origin s
            ≡ region_origin s.region.id) }
    {
        let count = CLASSES as u32 * quota;
        let slots = Vec::with_capacity(alloc, count as usize)?;
        let list = Vec::with_capacity(alloc, count as usize)?;
        let (region, segments) = Region::new(alloc, count)?;
        let start = segments[0].start();
        Ok(FixedSupply {
            region,
            quota,
            held: 0,
            segments: slots_of(slots, segments),
            list,
            start,
        })
    }

    /// Where the region begins, in which segment `number` lies `number * 65,536` bytes further on.
    pub fn start(&self) -> *const u8
        ensures { result ≡ block_ptr self.now.region.id 0 }
    {
        self.start
    }

    /// Frees the region, while no segment is out. No memory is taken.
    pub fn close(self)
        requires nothing_held { ⟦<FixedSupply as Supply>⟧.held_ids self ≡ [] }
    {
        let FixedSupply {
            region,
            quota: _,
            held: _,
            segments,
            list,
            start: _,
        } = self;
        region.close(segments_of(segments, list));
    }
}

/// Each segment in a slot of its own.
fn slots_of(
    mut slots: Vec<Option<RawSegment>>,
    segments: Vec<RawSegment>,
) -> Vec<Option<RawSegment>>
    requires none { slots.items ≡ [] }
    requires room { vec_len segments ≤ vec_capacity slots }
    ensures { result.items ≡ map Some segments.items }
{
    for segment in segments {
        slots.push_reserved(Some(segment));
    }
    slots
}

/// The segments that stand in the slots.
fn segments_of(slots: Vec<Option<RawSegment>>, mut list: Vec<RawSegment>) -> Vec<RawSegment>
    requires none { vec_len list ≡ 0 }
    requires room { vec_len slots ≤ vec_capacity list }
    ensures { result.items ≡ present slots.items }
{
    for slot in slots {
        if let Some(segment) = slot {
            list.push_reserved(segment);
        }
    }
    list
}

impl Supply for FixedSupply {
    type Seg = RawSegment;

    type Way = ();

    ghost quota_of = { λ s. s.quota };

    ghost held_ids = { λ s. missing s.region.id 0 s.segments.items };

    ghost origin = { λ s. region_origin s.region.id };

    ghost binding = { bound_by };

    ghost binding_apart = { bound_by_apart };

    fn quota(&self) -> u32 {
        self.quota
    }

    fn held(&self) -> u32 {
        self.held
    }

    fn take(&mut self, _context: &(), class: u32, ordinal: u32) -> RawSegment {
        let at = (class * self.quota + ordinal) as usize;
        let slot = &mut self.segments[at];
        let Some(segment) = slot.take() else {
            unreachable!();
        };
        self.held += 1;
        segment
    }

    fn give(&mut self, _context: &(), segment: RawSegment) {
        let at = segment.number() as usize;
        self.segments[at] = Some(segment);
        self.held -= 1;
    }
}
