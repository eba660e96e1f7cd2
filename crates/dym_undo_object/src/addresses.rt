//! Where the chunks of an object lie, over a heap whose areas have one segment of a region each.
ghost use Rattle.std.specs.Prelude.{◌≡◌, ℕ, ◌+◌, ◌<◌, ◌≤◌, None, Some, MatchOption, IsSome, IfSome, IfOk, OnErr, IsErr, option_map};
ghost use Rattle.std.specs.FinMap.{get};
ghost use Rattle.std.specs.Option.{ForSome};
ghost use denote.RawPtr.{block_ptr};
ghost use Rattle.dym_base.specs.HeapStep.{key, handle_of};
ghost use Rattle.dym_base.specs.declared.limits.TheConstants.{COUNT_LIMIT, LEAST_EXPONENT, GREATEST_EXPONENT};
ghost use Rattle.dym_heap.specs.Addresses.{region_of, HasByteAt};
ghost use Rattle.dym_heap.specs.Touches.{touched_in};
ghost use Rattle.dym_undo_object.specs.Addresses.{address_of};
ghost use Rattle.dym_undo_object.specs.Meaning.{IsStep, IsWhole, counted, step_by};
ghost use Rattle.dym_undo_object.specs.Touches.{check_answer, place_reply, write_of_all};

use crate::touches::{keep_in, only_chunk};
use crate::undo_object::UndoObject;
use dym_base::{Handle, Refusal};
use dym_quota::FixedSupply;

impl UndoObject<FixedSupply> {
    /// Where a chunk lies, and None where it isn't live. Whatever is freed, allocated or restored, a live handle has its chunk at
    /// this address as long as the object is open (`laws::commands_move_no_chunk`).
    pub fn address(&self, h: Handle) -> Option<*const u8>
        ensures { MatchOption result (get self.now.heap.state.live (key h) ≡ None) (λ at.
            IsSome (get self.now.heap.state.live (key h))
            × (address_of self.now.heap h ≡ Some at)) }
    {
        self.heap.address(h)
    }

    /// Where a chunk lies, to be changed there: it is kept, and counts as touched. It is a command: the one that writes all bytes of the
    /// chunk as they stand. A chunk of no byte isn't touched.
    #[inline(always)]
    pub fn touch(&mut self, h: Handle) -> Result<*const u8, Refusal>
        requires { self.old.ran < COUNT_LIMIT }
        ensures reply { place_reply result ≡ (step_by self.old (write_of_all self.old h)).reply }
        ensures place { IfOk result (λ at. address_of self.old.heap h ≡ Some at) }
        ensures step { IsStep self.old self.new (write_of_all self.old h) }
        ensures refused { OnErr result (self.new ≡ counted self.old) }
        ensures whole { IsWhole self.new }
    {
        match self.heap.touched_address(h) {
            Some(place) => {
                self.ran += 1;
                Ok(place)
            }
            None => self.touch_first(h),
        }
    }

    /// The `touch` of a chunk that isn't touched: it is kept first.
    #[inline(never)]
    fn touch_first(&mut self, h: Handle) -> Result<*const u8, Refusal>
        requires { self.old.ran < COUNT_LIMIT }
        ensures reply { place_reply result ≡ (step_by self.old (write_of_all self.old h)).reply }
        ensures place { IfOk result (λ at. address_of self.old.heap h ≡ Some at) }
        ensures step { IsStep self.old self.new (write_of_all self.old h) }
        ensures refused { OnErr result (self.new ≡ counted self.old) }
        ensures whole { IsWhole self.new }
    {
        let Some(bytes) = self.heap.bytes(h) else {
            return self.touch_none(h);
        };
        if bytes.is_empty() {
            return self.touch_none(h);
        }
        self.undo.keep_bytes(&self.heap, h, bytes);
        self.ran += 1;
        Ok(self.heap.touch(h))
    }

    /// The `touch` of a chunk that has no byte or isn't live: nothing is kept.
    fn touch_none(&mut self, h: Handle) -> Result<*const u8, Refusal>
        requires ran { self.old.ran < COUNT_LIMIT }
        requires none { IsErr (check_answer (get self.old.heap.state.live (key h))) }
        ensures reply { place_reply result ≡ (step_by self.old (write_of_all self.old h)).reply }
        ensures place { IfOk result (λ at. address_of self.old.heap h ≡ Some at) }
        ensures step { IsStep self.old self.new (write_of_all self.old h) }
        ensures refused { OnErr result (self.new ≡ counted self.old) }
        ensures whole { IsWhole self.new }
    {
        let place = self.address(h);
        self.write(h, 0, &[])?;
        match place {
            Some(at) => Ok(at),
            None => unreachable!(),
        }
    }

    /// The live chunk that has the byte at `offset` of the region, and None where none has it. It takes constant time.
    pub fn handle_at(&self, offset: u64) -> Option<Handle>
        ensures class { IfSome result (λ h. (LEAST_EXPONENT ≤ h.exp)
            × (h.exp ≤ GREATEST_EXPONENT)) }
        ensures found { IfSome result (λ h. HasByteAt self.now.heap h offset) }
        ensures only { (k : ℕ) → HasByteAt self.now.heap (handle_of k) offset
            → option_map key result ≡ Some k }
    {
        self.heap.handle_at(offset)
    }

    /// Where the region begins: the byte at offset 0.
    pub fn start(&self) -> *const u8
        ensures region { IsSome (region_of self.now.heap.origin) }
        ensures start { ForSome (region_of self.now.heap.origin)
            (λ region. result ≡ block_ptr region 0) }
    {
        self.heap.start()
    }

    /// Each live chunk with a byte among the `len` bytes from `offset` on of the region is kept, and counts as touched: before bytes
    /// are changed at their addresses. It is no command. Where these bytes are of one chunk it takes constant time.
    pub fn touch_at(&mut self, offset: u64, len: u64)
        ensures touched { self.new ≡ record self.old {
          heap = record self.old.heap {
            state = touched_in self.old.heap.quota offset (offset + len) self.old.heap.state;
          };
        } }
        ensures whole { IsWhole self.new }
    {
        let end = offset.saturating_add(len);
        match only_chunk(&self.heap, offset, end) {
            Some(h) => {
                self.undo.keep(&self.heap, h);
                self.heap.touch(h);
            }
            None => {
                keep_in(&mut self.undo, &self.heap, offset, end);
                self.heap.touch_at(offset, len);
            }
        }
    }
}
