//! The rule of one deque, and the kinds of step that are taken under it.

use crate::job::Job;
use crate::view::ShareView;
use crossbeam_deque::protocol::{Join, Lesson, Outcome, Protocol, Split};
use crossbeam_deque::{Pass, Stealer, Worker};
use std::alloc::Global;
use std::marker::PhantomData;

/// The deque of one share, as its own worker has it.
pub(crate) type ShareDeque<R, J, O> = Worker<Box<J>, Global, ShareView<O>, ShareRule<R, J>>;

/// The deque of one share, as any other worker has it.
pub(crate) type ShareStealer<R, J, O> = Stealer<Box<J>, Global, ShareView<O>, ShareRule<R, J>>;

/// The right to take steps on one deque, and what its holder knows. It has no bytes.
pub(crate) type SharePass<J, O> = Pass<Box<J>, ShareView<O>>;

/// Each job of the share is in the deque or in one hand.
pub struct ShareRule<R, J> {
    marker: PhantomData<(R, J)>,
}

impl<R, J: Job<R>> Protocol<Box<J>, ShareView<J::Origin>> for ShareRule<R, J> {
    ghost use Rattle.dym_pool.specs.Deques.{InOneHand, first_share, spent};

    ghost holds = { λ items views. InOneHand
        (λ b. (J.number_of b.value, J.origin_of b.value)) items views };

    ghost first = { first_share };

    ghost guest = { spent };
}

/// Puts a new job into the deque.
pub struct Loads<R, J> {
    marker: PhantomData<(R, J)>,
}

impl<R, J: Job<R>> Outcome<Box<J>, ShareView<J::Origin>> for Loads<R, J> {
    ghost use Rattle.std.specs.Prelude.{◌≡◌, ◌++◌};
    ghost use Rattle.dym_pool.specs.Jobs.{boxed_labels};
    ghost use Rattle.dym_pool.specs.Deques.{share_view};

    ghost then = { λ v bs w. w
        ≡ share_view (v.list ++ boxed_labels J.number_of J.origin_of bs) v.hand v.part };
}

/// Takes the job that was put last into one's own deque.
pub struct Takes<R, J> {
    marker: PhantomData<(R, J)>,
}

impl<R, J: Job<R>> Outcome<Box<J>, ShareView<J::Origin>> for Takes<R, J> {
    ghost use Rattle.dym_pool.specs.Jobs.{boxed_labels};
    ghost use Rattle.dym_pool.specs.Deques.{IsTaking, HasAllAtLast};

    ghost then = { λ v bs w. IsTaking (boxed_labels J.number_of J.origin_of bs) v w };

    ghost empty = { HasAllAtLast };
}

/// Takes the job at the front of any deque.
pub struct Steals<R, J> {
    marker: PhantomData<(R, J)>,
}

impl<R, J: Job<R>> Outcome<Box<J>, ShareView<J::Origin>> for Steals<R, J> {
    ghost use Rattle.dym_pool.specs.Jobs.{boxed_labels};
    ghost use Rattle.dym_pool.specs.Deques.{IsTaking};

    ghost then = { λ v bs w. IsTaking (boxed_labels J.number_of J.origin_of bs) v w };
}

/// Puts a job that was taken to the back.
pub struct Returns<R, J> {
    marker: PhantomData<(R, J)>,
}

impl<R, J: Job<R>> Outcome<Box<J>, ShareView<J::Origin>> for Returns<R, J> {
    ghost use Rattle.dym_pool.specs.Jobs.{boxed_labels};
    ghost use Rattle.dym_pool.specs.Deques.{IsReturn};

    ghost then = { λ v bs w. IsReturn (boxed_labels J.number_of J.origin_of bs) v w };
}

/// No hand has more jobs than the share.
pub struct HasFew;

impl<T, O> Lesson<T, ShareView<O>> for HasFew {
    ghost use Rattle.std.specs.Prelude.{◌≤◌, length};

    ghost fact = { λ v items. length v.hand ≤ length v.list };
}

/// A part of one for another worker.
pub struct OnePart;

impl<O> Split<ShareView<O>> for OnePart {
    ghost use Rattle.std.specs.Prelude.{[], ◌-◌};
    ghost use Rattle.dym_pool.specs.Deques.{share_view};

    ghost left = { λ v. share_view v.list v.hand (v.part - 1) };

    ghost right = { λ v. share_view v.list [] 1 };
}

impl<O> Join<ShareView<O>> for OnePart {
    ghost use Rattle.std.specs.Prelude.{◌+◌, ◌++◌};
    ghost use Rattle.dym_pool.specs.Deques.{share_view, spent};

    ghost both = { λ v w. share_view v.list (v.hand ++ w.hand) (v.part + w.part) };

    ghost spent = { spent };
}
