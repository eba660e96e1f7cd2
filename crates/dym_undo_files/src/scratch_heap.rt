//! Heaps that live as long as a file is made or read.
ghost use Rattle.std.specs.Prelude.{◌≡◌, ◌≤◌, [], IfOk};
ghost use Rattle.dym_base.specs.Objects.{empty_heap};
ghost use Rattle.dym_base.specs.Origins.{own};
ghost use Rattle.dym_base.specs.declared.limits.TheConstants.{MOST_QUOTA};
ghost use Rattle.dym_heap.specs.Meaning.{IsSound};

use dym_base::Version;
use dym_heap::Heap;
use dym_quota::OwnSupply;
use std::alloc::{AllocError, Global};

/// A heap over segments of its own, which it gives back where it is dropped.
pub(crate) struct ScratchHeap {
    pub(crate) heap: Heap<OwnSupply>,
}

impl ScratchHeap {
    /// An empty heap.
    pub(crate) fn open(
        alloc: Global,
        version: Version,
        quota: u32,
    ) -> Result<ScratchHeap, AllocError>
        requires least { 1 ≤ quota }
        requires most { quota ≤ MOST_QUOTA }
        ensures opened { IfOk result (λ scratch. scratch.heap ≡ record {
          version = version;
          quota = quota;
          state = empty_heap;
          held_ids = [];
          origin = own;
          applied = 0;
        }) }
        ensures sound { IfOk result (λ scratch. IsSound scratch.heap) }
    {
        let supply = OwnSupply::open(alloc, quota)?;
        match Heap::open_as(alloc, supply, version) {
            Ok(heap) => Ok(ScratchHeap { heap }),
            Err((error, _supply)) => Err(error),
        }
    }
}

impl Drop for ScratchHeap {
    fn drop(self) {
        let ScratchHeap { heap } = self;
        let _supply = heap.end(&());
    }
}
