//! A heap lends its areas to be packed.
ghost use Rattle.dym_heap.specs.RecordLoads.{areas_of};

use crate::heap::Heap;
use dym_base::{Class, Version};
use dym_bits::Bits;
use dym_pack::Areas;
use dym_quota::Supply;

impl<S: Supply> Areas for Heap<S> {
    ghost meaning = { areas_of };

    fn version(&self) -> Version {
        self.shelf.version()
    }

    fn area_count(&self) -> u32 {
        self.shelf.held()
    }

    fn area_class(&self, k: u32) -> Class {
        self.shelf.sized_area(k).class()
    }

    fn area_ordinal(&self, k: u32) -> u32 {
        self.shelf.sized_area(k).ordinal()
    }

    fn used_bits(&self, k: u32) -> &Bits {
        self.shelf.sized_area(k).used_bits()
    }

    fn dirty_bits(&self, k: u32) -> &Bits {
        self.shelf.sized_area(k).dirty_bits()
    }

    fn chunk_used(&self, k: u32, i: u32) -> bool {
        self.shelf.sized_area(k).is_used(i)
    }

    fn chunk_dirty(&self, k: u32, i: u32) -> bool {
        self.shelf.sized_area(k).is_dirty(i)
    }

    fn chunk_len(&self, k: u32, i: u32) -> u32 {
        self.shelf.sized_area(k).used_len(i)
    }

    fn chunk_bytes(&self, k: u32, i: u32) -> &[u8] {
        self.shelf.sized_area(k).used_bytes(i)
    }

    fn run_bytes(&self, k: u32, from: u32, count: u32) -> &[u8] {
        self.shelf.sized_area(k).run_bytes(from, count)
    }
}
