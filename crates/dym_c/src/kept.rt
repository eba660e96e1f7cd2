//! A box that C keeps by its pointer: null where there is none.
ghost use Rattle.std.specs.Prelude.{◌≡◌, Option, None, Some, MatchOption, IsSome, is_none};
ghost use Rattle.std.specs.Borrow.{sem, Lends};
ghost use Rattle.std.specs.Coded.{coded_option};
ghost use Rattle.dym_c.specs.Ownership.{kept_owns};

use crate::box_pointer::Held;
use std::alloc::Global;
use std::marker::Model;
use std::{mem, ptr};

/// One pointer: null where nothing is kept, else that of a box.
#[repr(C)]
pub struct Kept<T> {
    at: *mut T,
    pub ghost value: { Option T } by { coded_option T.code },
}

impl<T> Model for Kept<T> {
    ghost also_owns = { λ k. kept_owns T.row k.at k.value };
}

impl<T: Drop> Kept<T> {
    ghost use Rattle.dym_c.specs.contracts.kept.Kept.{the_row};

    /// Nothing is kept.
    fn closed() -> Kept<T>
        ensures { result.value ≡ None }
    {
        Kept {
            at: ptr::null_mut(),
        }
    }

    /// A box is kept.
    fn holding(held: Held<T, Global>) -> Kept<T>
        ensures { result.value ≡ Some held.value }
    {
        let Held { at, alloc: _ } = held;
        Kept { at }
    }

    /// The box that is kept.
    fn into_held(self, alloc: Global) -> Option<Held<T, Global>>
        ensures { MatchOption result (self.value ≡ None) (λ held. self.value ≡ Some held.value) }
    {
        let Kept { at } = self;
        if at.is_null() {
            None
        } else {
            Some(Held { at, alloc })
        }
    }

    /// Whether nothing is kept.
    #[inline(always)]
    pub(crate) fn is_closed(&mut self) -> bool
        ensures closed { result ≡ is_none self.old.value }
        ensures same { self.new ≡ self.old }
    {
        self.at.is_null()
    }

    /// What is inside, where it lies.
    #[inline(always)]
    pub(crate) fn content(&mut self) -> &mut T
        requires open { IsSome self.old.value }
        ensures* writes_back { sem 𝓛 (Lends (the_row T.row) T.row self.entry result (λ w. record self.old { value = Some w })) }
        ensures value { self.old.value ≡ Some result.now }
    {
        unsafe { &mut *self.at }
    }

    /// Keeps a box, and drops what was inside.
    pub(crate) fn open(&mut self, alloc: Global, inside: Box<T>)
        ensures { self.new.value ≡ Some inside.value }
    {
        mem::replace(self, Kept::holding(Held::of(inside))).end(alloc);
    }

    /// Keeps nothing, and drops what was inside.
    pub(crate) fn close(&mut self, alloc: Global)
        ensures { self.new.value ≡ None }
    {
        mem::replace(self, Kept::closed()).end(alloc);
    }

    /// Drops what is inside.
    fn end(self, alloc: Global) {
        if let Some(held) = self.into_held(alloc) {
            drop(held.into_box());
        }
    }
}
