//! The segments that objects take in turn.
ghost use Rattle.std.specs.Prelude.{◌≡◌, ◌≤◌, [], IfOk};
ghost use Rattle.dym_base.specs.declared.limits.TheConstants.{MOST_QUOTA};

use dym_quota::{OwnSupply, Supply};
use std::alloc::{AllocError, Global};
use std::mem;

/// A supply of which no segment is out. One object after another takes it whole, each with its own quota, so that their segments
/// are made once.
#[derive(Drop)]
pub struct SegmentStore {
    supply: OwnSupply,
    ghost idle: { ⟦<OwnSupply as Supply>⟧.held_ids supply ≡ [] },
}

impl SegmentStore {
    /// A segment store with no segment yet.
    pub fn new(alloc: Global) -> SegmentStore {
        SegmentStore {
            supply: OwnSupply::empty(alloc),
        }
    }

    /// Hands out the supply, with a quota. An `AllocError` comes where there is no memory for segments that are wanting.
    pub fn lend(&mut self, alloc: Global, quota: u32) -> Result<OwnSupply, AllocError>
        requires least { 1 ≤ quota }
        requires most { quota ≤ MOST_QUOTA }
        ensures quota { IfOk result (λ s. ⟦<OwnSupply as Supply>⟧.quota_of s ≡ quota) }
        ensures nothing_held { IfOk result (λ s. ⟦<OwnSupply as Supply>⟧.held_ids s ≡ []) }
    {
        let supply = mem::replace(&mut self.supply, OwnSupply::empty(alloc));
        match supply.with_quota(alloc, quota) {
            Ok(supply) => Ok(supply),
            Err((error, supply)) => {
                self.supply = supply;
                Err(error)
            }
        }
    }

    /// Takes the supply back, of which no segment is out.
    pub fn take_back(&mut self, supply: OwnSupply)
        requires { ⟦<OwnSupply as Supply>⟧.held_ids supply ≡ [] }
    {
        self.supply = supply;
    }
}
