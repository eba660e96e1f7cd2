//! What the definitions come to. A law is the contract of a function that does nothing.
ghost use Rattle.dym_heap.specs.Addresses.{ChunksAreAligned};
ghost use Rattle.dym_heap.specs.RecordLoads.{HeapsArePackable};

/// Every heap can be packed.
pub fn heaps_are_packable()
    ensures { HeapsArePackable }
{}

/// A chunk lies in its region at a multiple of its class's size, and so at one of 16.
pub fn chunks_are_aligned()
    ensures { ChunksAreAligned }
{}
