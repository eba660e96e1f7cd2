//! What clauses alone know of a state.
ghost use Rattle.std.specs.Prelude.{◌≡◌, ℕ};
ghost use Rattle.std.specs.Coded.{codes};
ghost use Rattle.dym_base.specs.Heaps.{Live};
ghost use Rattle.dym_heap.specs.Meaning.{live_code};
ghost use base.Fml.{ftrue};

use dym_quota::FixedSupply;
use dym_undo_object::UndoObject;
use std::alloc::AllocError;
use std::marker::{Model, PhantomData};
use warp_process::Copied;

/// The chunks of an object, and how many events led to them. It has no bytes.
pub struct Moment {
    marker: PhantomData<()>,
    pub ghost seen: { ℕ × Live } by { Prim.hlevel (codes, live_code) },
}

impl Model for Moment {
    ghost also_owns = { λ _. ftrue };
}

impl Moment {
    /// A moment that tells this.
    fn of_ghost() -> Moment
        ghost whole: { ℕ × Live }
        ensures { result.seen ≡ whole }
    {
        Moment {
            marker: PhantomData,
        }
    }

    /// A moment that tells this, of a date and an object.
    fn of(date: u64, object: &UndoObject<FixedSupply>) -> Moment
        ghost whole: { ℕ × Live }
        ensures { result.seen ≡ whole }
    {
        let _ = date;
        let _ = object;
        Moment::of_ghost()
    }

    /// The object's chunks, after so many events.
    pub(crate) fn after(date: u64, object: &UndoObject<FixedSupply>) -> Moment
        ensures { result.seen ≡ (date, object.now.heap.state.live) }
    {
        Moment::of(date, object)
    }

    /// A moment that tells this, by another.
    fn like(&self) -> Moment
        ghost whole: { ℕ × Live }
        ensures { result.seen ≡ whole }
    {
        Moment::of_ghost()
    }

    /// The same moment.
    fn same(&self) -> Moment
        ensures { result ≡ self.now }
    {
        self.like()
    }
}

impl Clone for Moment {
    ghost is_clone = { λ m n. n ≡ m };

    fn clone(&self) -> Result<Moment, AllocError> {
        Ok(self.same())
    }
}

impl Copied for Moment {
    ghost clone_is_same = { λ state copy same. same };
}

impl Drop for Moment {
    fn drop(self) {
        let Moment { marker: _ } = self;
    }
}
