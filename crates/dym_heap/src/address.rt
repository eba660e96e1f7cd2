//! Where chunks lie, in a heap over segments that its areas are bound to.
ghost use Rattle.std.specs.Prelude.{◌≡◌, ℕ, ◌+◌, ◌*◌, ◌%◌, ◌≤◌, true, false, None, Some, IsSome, IsNone, MatchOption, option_map};
ghost use Rattle.std.specs.FinMap.{get};
ghost use Rattle.std.specs.FinSet.{contains};
ghost use Rattle.std.specs.Option.{ForSome, IfSome};
ghost use denote.RawPtr.{block_ptr, InBlock, ◌+ₚ◌};
ghost use Rattle.dym_base.specs.HeapStep.{key, handle_of};
ghost use Rattle.dym_base.specs.Numbers.{size, per};
ghost use Rattle.dym_base.specs.declared.limits.TheConstants.{LEAST_EXPONENT, GREATEST_EXPONENT, MOST_QUOTA, SEGMENT_BYTES};
ghost use Rattle.dym_heap.specs.Addresses.{address_of, region_of, HasByte, HasByteAt, LiesAt};
ghost use Rattle.dym_heap.specs.Fetches.{heap_chunk};
ghost use Rattle.dym_heap.specs.Meaning.{IsSound};
ghost use Rattle.dym_heap.specs.Shelves.{IsTidy};
ghost use Rattle.dym_heap.specs.Touches.{has_byte_in, is_hit, touched_besides, touched_in, with_touch};

use crate::chunk::len_of_handle;
use crate::heap::Heap;
use crate::shelf::Shelf;
use dym_base::limits::{CLASSES, GREATEST_EXPONENT, LEAST_EXPONENT, SEGMENT_BYTES};
use dym_base::{Class, Handle};
use dym_quota::{FixedSupply, Supply};

impl Heap<FixedSupply> {
    /// Where a chunk lies, and None where it isn't live: in the region's block, at the place that its handle alone tells.
    /// It is the same as long as the heap is open, whatever is freed, allocated or restored.
    pub fn address(&self, h: Handle) -> Option<*const u8>
        ensures { MatchOption result (get self.now.state.live (key h) ≡ None) (λ at.
            IsSome (get self.now.state.live (key h))
            × (address_of self.now h ≡ Some at)) }
    {
        let shelf = &self.shelf;
        if !h.has_class() {
            return None;
        }
        let class = Class { exp: h.exp };
        let Some(segment) = shelf.start_of_used(class, h.index) else {
            return None;
        };
        self.start();
        Some(chunk_within(segment, class, h.index))
    }

    /// Where a chunk lies that is touched, and None where it isn't.
    #[inline(always)]
    pub fn touched_address(&self, h: Handle) -> Option<*const u8>
        ensures { MatchOption result (contains self.now.state.touched (key h) ≡ false) (λ at.
            (contains self.now.state.touched (key h) ≡ true)
            × IsSome (get self.now.state.live (key h))
            × (address_of self.now h ≡ Some at)) }
    {
        let shelf = &self.shelf;
        if !h.has_class() {
            return None;
        }
        let class = Class { exp: h.exp };
        let Some(segment) = shelf.start_of_touched(class, h.index) else {
            return None;
        };
        self.start();
        Some(chunk_within(segment, class, h.index))
    }

    /// Where a live chunk lies that has at least one byte. It is touched from now on.
    pub fn touch(&mut self, h: Handle) -> *const u8
        requires least { LEAST_EXPONENT ≤ h.exp }
        requires most { h.exp ≤ GREATEST_EXPONENT }
        requires some { HasByte self.old h }
        ensures place { address_of self.old h ≡ Some result }
        ensures touched { self.new ≡ record self.old { state = with_touch self.old.state (key h) } }
        ensures sound { IsSound self.new }
    {
        self.start();
        let class = Class { exp: h.exp };
        let segment = self.shelf.touch(class, h.index);
        chunk_within(segment, class, h.index)
    }

    /// Where the region begins: the byte at offset 0.
    pub fn start(&self) -> *const u8
        ensures region { IsSome (region_of self.now.origin) }
        ensures start { ForSome (region_of self.now.origin)
            (λ region. result ≡ block_ptr region 0) }
    {
        self.shelf.supply().start()
    }

    /// The live chunk that has the byte at `offset` of the region, and None where none has it. It takes constant time.
    pub fn handle_at(&self, offset: u64) -> Option<Handle>
        ensures class { IfSome result
            (λ h. (LEAST_EXPONENT ≤ h.exp) × (h.exp ≤ GREATEST_EXPONENT)) }
        ensures found { IfSome result (λ h. HasByteAt self.now h offset) }
        ensures only { (k : ℕ) → HasByteAt self.now (handle_of k) offset
            → option_map key result ≡ Some k }
    {
        let Some((h, at)) = chunk_around(self.shelf.quota(), offset) else {
            return None;
        };
        let Some(len) = len_of_handle(&self.shelf, h) else {
            return None;
        };
        if at >= len {
            return None;
        }
        Some(h)
    }

    /// Each live chunk with a byte among the `len` bytes from `offset` on of the region is touched, and no other.
    pub fn touch_at(&mut self, offset: u64, len: u64)
        ensures touched { self.new ≡ record self.old {
          state = touched_in self.old.quota offset (offset + len) self.old.state;
        } }
        ensures sound { IsSound self.new }
    {
        touch_range(&mut self.shelf, offset, offset.saturating_add(len));
    }
}

/// Where a chunk lies, from where its area's segment lies.
fn chunk_within(segment: *const u8, class: Class, index: u32) -> *const u8
    requires { InBlock segment }
    ensures { result ≡ segment +ₚ ((index % per class.exp) * size class.exp) }
{
    let at = index % class.per_area() * class.size();
    unsafe { segment.byte_add(at as usize) }
}

/// Each chunk in use with a byte in the region from `from` up to `end` is touched, chunk by chunk.
fn touch_range<S: Supply>(shelf: &mut Shelf<S>, from: u64, end: u64)
    requires ordered { from ≤ end }
    requires tidy { IsTidy shelf.old }
    ensures touched { (k : ℕ) → heap_chunk shelf.new.state k
        ≡ touched_besides (has_byte_in shelf.old.quota shelf.old.state.live from end k)
        (heap_chunk shelf.old.state k) }
    ensures same { shelf.new ≡ record shelf.old { state = shelf.new.state } }
    ensures tidy { IsTidy shelf.new }
{
    let quota = shelf.quota();
    let mut at = from;
    while at < end {
        let Some((h, byte)) = chunk_around(quota, at) else {
            return;
        };
        touch_byte(shelf, h, byte);
        at = end.min(at + u64::from(Class { exp: h.exp }.size() - byte));
    }
}

/// A chunk is touched where it is live and has a byte at its place `at`.
fn touch_byte<S: Supply>(shelf: &mut Shelf<S>, h: Handle, at: u32)
    requires tidy { IsTidy shelf.old }
    ensures touched { (k : ℕ) → heap_chunk shelf.new.state k
        ≡ touched_besides (is_hit shelf.old.state.live h at k)
        (heap_chunk shelf.old.state k) }
    ensures same { shelf.new ≡ record shelf.old { state = shelf.new.state } }
    ensures tidy { IsTidy shelf.new }
{
    let Some(len) = len_of_handle(shelf, h) else {
        return;
    };
    if len <= at {
        return;
    }
    shelf.touch(Class { exp: h.exp }, h.index);
}

/// The chunk, live or not, in which the byte at `offset` of the region lies, and the byte's number there. None past the segments of
/// all classes.
fn chunk_around(quota: u32, offset: u64) -> Option<(Handle, u32)>
    requires least { 1 ≤ quota }
    requires most { quota ≤ MOST_QUOTA }
    ensures lies { IfSome result (λ r. LiesAt quota r.0.exp r.0.index r.1 offset) }
    ensures past { IsNone result → CLASSES * quota * SEGMENT_BYTES ≤ offset }
    ensures only { (e i at : ℕ) → LiesAt quota e i at offset → MatchOption result ⊥ (λ r.
        (r.0.exp ≡ e) × (r.0.index ≡ i) × (r.1 ≡ at)) }
{
    let segment = offset / u64::from(SEGMENT_BYTES);
    let rank = segment / u64::from(quota);
    if rank >= CLASSES as u64 {
        return None;
    }
    let exp = LEAST_EXPONENT + rank as u8;
    let class = Class { exp };
    let ordinal = (segment % u64::from(quota)) as u32;
    let at = (offset % u64::from(SEGMENT_BYTES)) as u32;
    let size = class.size();
    let index = ordinal * class.per_area() + at / size;
    Some((Handle { exp, index }, at % size))
}
