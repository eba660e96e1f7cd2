//! A supply that owns all its segments.
ghost use Rattle.std.specs.Prelude.{None, ◌≡◌, ◌+◌, ◌-◌, ◌≤◌, max, [], IfOk, IfErr, OnOk, OnErr, replicate, vec_len, vec_capacity};
ghost use Rattle.dym_base.specs.Origins.{Origin, own};
ghost use Rattle.dym_base.specs.declared.limits.TheConstants.{MOST_QUOTA};
ghost use Rattle.dym_region.specs.Identity.{lone_id};

use crate::supply::Supply;
use dym_base::limits::MOST_QUOTA;
use dym_region::VecSegment;
use std::alloc::{AllocError, Global};

/// A supply whose segments are made when it opens, and wait in a list. All of them have one identity, since nothing depends on where
/// a segment in a vector of its own lies: one that another such supply gave out may come back here, and serves as well. How many
/// are out is what counts.
#[derive(Drop)]
pub struct OwnSupply {
    pub(crate) quota: u32,
    pub(crate) spare: Vec<VecSegment>,
    /// Segments above the quota. They wait for a greater one.
    pub(crate) aside: Vec<VecSegment>,
    ghost within: { vec_len spare ≤ quota },
    ghost room: { quota ≤ vec_capacity spare },
}

impl OwnSupply {
    ghost use Rattle.dym_quota.specs.OwnSegments.{owned};

    /// A supply with no segment, for one that gets its quota later.
    pub fn empty(alloc: Global) -> OwnSupply
        ensures nothing_held { ⟦<OwnSupply as Supply>⟧.held_ids result ≡ [] }
        ensures owned { owned result ≡ 0 }
    {
        OwnSupply {
            quota: 0,
            spare: Vec::new(alloc),
            aside: Vec::new(alloc),
        }
    }

    /// A supply of `quota` segments, which are all made here. An `AllocError` comes where there is no memory for them.
    pub fn open(alloc: Global, quota: u32) -> Result<OwnSupply, AllocError>
        requires least { 1 ≤ quota }
        requires most { quota ≤ MOST_QUOTA }
        ensures quota { IfOk result (λ s. ⟦<OwnSupply as Supply>⟧.quota_of s ≡ quota) }
        ensures nothing_held { IfOk result (λ s. ⟦<OwnSupply as Supply>⟧.held_ids s ≡ []) }
        ensures origin { IfOk result (λ s. ⟦<OwnSupply as Supply>⟧.origin s ≡ own) }
        ensures owned { IfOk result (λ s. owned s ≡ quota) }
    {
        match OwnSupply::empty(alloc).with_quota(alloc, quota) {
            Ok(supply) => Ok(supply),
            Err((error, _)) => Err(error),
        }
    }

    /// The supply with another quota, while no segment is out. Its segments serve again: only those that are wanting are made,
    /// and those above the quota wait for a greater one.
    ///
    /// An `AllocError` comes where there is no memory for them; the supply then comes back with its quota and all its segments.
    pub fn with_quota(self, alloc: Global, quota: u32) -> Result<OwnSupply, (AllocError, OwnSupply)>
        requires least { 1 ≤ quota }
        requires most { quota ≤ MOST_QUOTA }
        requires nothing_held { ⟦<OwnSupply as Supply>⟧.held_ids self ≡ [] }
        ensures quota { IfOk result (λ s. ⟦<OwnSupply as Supply>⟧.quota_of s ≡ quota) }
        ensures nothing_held { IfOk result (λ s. ⟦<OwnSupply as Supply>⟧.held_ids s ≡ []) }
        ensures origin { IfOk result (λ s. ⟦<OwnSupply as Supply>⟧.origin s ≡ own) }
        ensures owned { IfOk result (λ s. owned s ≡ max quota (owned self)) }
        ensures old_quota { IfErr result (λ e. ⟦<OwnSupply as Supply>⟧.quota_of e.1
            ≡ ⟦<OwnSupply as Supply>⟧.quota_of self) }
        ensures still_nothing_held { IfErr result (λ e. ⟦<OwnSupply as Supply>⟧.held_ids e.1 ≡ []) }
        ensures still_owned { IfErr result (λ e. owned self ≤ owned e.1) }
    {
        let OwnSupply {
            quota: before,
            mut spare,
            mut aside,
        } = self;
        match fit(alloc, &mut spare, &mut aside, quota as usize) {
            Ok(()) => Ok(OwnSupply {
                quota,
                spare,
                aside,
            }),
            Err(error) => Err((
                error,
                OwnSupply {
                    quota: before,
                    spare,
                    aside,
                },
            )),
        }
    }
}

/// Leaves just `count` segments in the first list: others go to the second list, and come from it. Those that both lack are made.
fn fit(
    alloc: Global,
    spare: &mut Vec<VecSegment>,
    aside: &mut Vec<VecSegment>,
    count: usize,
) -> Result<(), AllocError>
    ensures count { OnOk result (vec_len spare.new ≡ count) }
    ensures all { OnOk result (vec_len spare.new + vec_len aside.new
        ≡ max count (vec_len spare.old + vec_len aside.old)) }
    ensures same { OnErr result (vec_len spare.new ≡ vec_len spare.old) }
    ensures more { OnErr result (vec_len aside.old ≤ vec_len aside.new) }
    ensures room { vec_capacity spare.old ≤ vec_capacity spare.new }
{
    let ready = spare.len();
    if count <= ready {
        aside.reserve(ready - count)?;
        lay_aside(spare, aside, count);
    } else {
        spare.reserve(count - ready)?;
        stock_up(alloc, aside, count - ready)?;
        fill_up(spare, aside, count);
    }
    Ok(())
}

/// Lays aside the segments after the first `count`.
fn lay_aside(spare: &mut Vec<VecSegment>, aside: &mut Vec<VecSegment>, count: usize)
    requires count { count ≤ vec_len spare.old }
    requires room { vec_len aside.old + vec_len spare.old ≤ count + vec_capacity aside.old }
    ensures count { vec_len spare.new ≡ count }
    ensures all { vec_len aside.new + count ≡ vec_len aside.old + vec_len spare.old }
    ensures room { vec_capacity spare.new ≡ vec_capacity spare.old }
{
    while spare.len() > count {
        aside.push_reserved(spare.take_last());
    }
}

/// Makes segments until a list has `count`.
fn stock_up(alloc: Global, segments: &mut Vec<VecSegment>, count: usize) -> Result<(), AllocError>
    ensures count { OnOk result (vec_len segments.new ≡ max count (vec_len segments.old)) }
    ensures more { vec_len segments.old ≤ vec_len segments.new }
{
    while segments.len() < count {
        let segment = VecSegment::new(alloc)?;
        segments.push(segment)?;
    }
    Ok(())
}

/// Fills a list up to `count` segments from those that were laid aside.
fn fill_up(spare: &mut Vec<VecSegment>, aside: &mut Vec<VecSegment>, count: usize)
    requires few { vec_len spare.old ≤ count }
    requires enough { count ≤ vec_len spare.old + vec_len aside.old }
    requires room { count ≤ vec_capacity spare.old }
    ensures count { vec_len spare.new ≡ count }
    ensures all { vec_len aside.new + count ≡ vec_len aside.old + vec_len spare.old }
    ensures room { vec_capacity spare.new ≡ vec_capacity spare.old }
{
    while spare.len() < count {
        spare.push_reserved(aside.take_last());
    }
}

impl Supply for OwnSupply {
    type Seg = VecSegment;

    type Way = ();

    ghost quota_of = { λ s. s.quota };

    ghost held_ids = { λ s. replicate (s.quota - vec_len s.spare) lone_id };

    ghost origin = { λ _. own };

    ghost binding = { λ _ _. None };

    ghost binding_apart = { λ _ _. tt };

    fn quota(&self) -> u32 {
        self.quota
    }

    fn held(&self) -> u32 {
        self.quota - self.spare.len() as u32
    }

    fn take(&mut self, _context: &(), _class: u32, _ordinal: u32) -> VecSegment {
        self.spare.take_last()
    }

    fn give(&mut self, _context: &(), segment: VecSegment) {
        self.spare.push_reserved(segment);
    }
}
