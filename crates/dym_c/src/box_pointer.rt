//! A box as its bare pointer.
//!
//! What goes in as a box comes out as a box with the same value.

ghost use Rattle.std.specs.Prelude.{◌≡◌};
ghost use Rattle.std.specs.Box.Ownership.{box_owns};

use std::alloc::Allocator;
use std::marker::Model;

/// A box, taken apart. It owns what the box owned, and is linear: only `into_box` ends it.
pub struct Held<T, A: Allocator> {
    pub at: *mut T,
    pub alloc: A,
    pub ghost value: { T },
}

impl<T, A: Allocator> Model for Held<T, A> {
    ghost also_owns = { λ h. box_owns (A.dealloc_token h.alloc) T.row h.at h.value };
}

impl<T: Drop, A: Allocator> Held<T, A> {
    /// The box, taken apart.
    pub fn of(boxed: Box<T, A>) -> Held<T, A>
        ensures { result.value ≡ boxed.value }
    {
        let (at, alloc) = Box::into_raw_with_allocator(boxed);
        Held { at, alloc }
    }

    /// The box again.
    pub fn into_box(self) -> Box<T, A>
        ensures { result.value ≡ self.value }
    {
        let Held { at, alloc } = self;
        unsafe { Box::from_raw(alloc, at) }
    }
}
