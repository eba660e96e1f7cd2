//! The steps of a worker on one deque.
ghost use Rattle.std.specs.Prelude.{◌≡◌, ◌+◌, ◌<◌, ◌≤◌, ◌-◌, [], ◌∷◌, ◌++◌, IfOk, MatchOption, MatchResult, length, List, ℕ};
ghost use Rattle.crossbeam_deque.specs.Handles.{view, IsPassOf, worker_deque, worker_view, worker_flavor, worker_index, worker_capacity, stealer_deque, SameWorker};
ghost use Rattle.crossbeam_deque.specs.Steals.{MatchSteal};
ghost use Rattle.dym_pool.specs.Deques.{share_view, first_share, spent, IsTaking, IsReturn, HasAllAtLast};

use crate::job::Job;
use crate::rule::{
    HasFew, Loads, OnePart, Returns, ShareDeque, SharePass, ShareStealer, Steals, Takes,
};
use crossbeam_deque::{Steal, Worker};
use std::alloc::{AllocError, Global};

/// A deque with nothing in it, and room for so many jobs.
pub(crate) fn open_deque<R, J: Job<R> + Drop>(
    alloc: Global,
    room: usize,
) -> Result<ShareDeque<R, J, J::Origin>, AllocError>
    ensures opened { IfOk result (λ w. worker_view w ≡ first_share) }
    ensures last_out { IfOk result (λ w. worker_flavor w ≡ 1) }
    ensures index { IfOk result (λ w. worker_index w ≡ 0) }
    ensures room { IfOk result (λ w. room ≤ worker_capacity w) }
{
    Worker::lifo_as(alloc, room)
}

/// A pass of somebody who has no part yet.
pub(crate) fn guest<R, J: Job<R> + Drop>(
    stealer: &ShareStealer<R, J, J::Origin>,
) -> SharePass<J, J::Origin>
    ensures deque { IsPassOf (stealer_deque stealer.now) result }
    ensures spent { view result ≡ spent }
{
    stealer.pass()
}

/// Puts a new job to the back.
pub(crate) fn load<R, J: Job<R> + Drop>(deque: &mut ShareDeque<R, J, J::Origin>, boxed: Box<J>)
    requires whole { (worker_view deque.old).part ≡ 65 }
    requires room { worker_index deque.old < worker_capacity deque.old }
    ensures same { SameWorker deque.old deque.new }
    ensures index { worker_index deque.new ≡ worker_index deque.old + 1 }
    ensures loaded { worker_view deque.new
        ≡ share_view ((worker_view deque.old).list
        ++ (J.number_of boxed.value, J.origin_of boxed.value) ∷ [])
        (worker_view deque.old).hand (worker_view deque.old).part }
{
    let Ok(()) = deque.push_as::<Loads<R, J>>(boxed) else {
        unreachable!()
    };
}

/// The job that was put last into one's own deque.
pub(crate) fn take_last<R, J: Job<R>>(deque: &mut ShareDeque<R, J, J::Origin>) -> Option<Box<J>>
    requires last_out { worker_flavor deque.old ≡ 1 }
    requires part { 0 < (worker_view deque.old).part }
    ensures same { SameWorker deque.old deque.new }
    ensures taken { MatchOption result
        ((worker_view deque.new ≡ worker_view deque.old) × HasAllAtLast (worker_view deque.old))
        (λ b. IsTaking ((J.number_of b.value, J.origin_of b.value) ∷ []) (worker_view deque.old)
        (worker_view deque.new)) }
{
    deque.pop_as::<Takes<R, J>>()
}

/// Puts a job that was taken to the back, or hands it back where the deque can't grow.
pub(crate) fn hand_back<R, J: Job<R>>(
    deque: &mut ShareDeque<R, J, J::Origin>,
    boxed: Box<J>,
) -> Result<(), Box<J>>
    requires part { 0 < (worker_view deque.old).part }
    requires held { (rest : List (ℕ × J.Origin))
        × ((worker_view deque.old).hand ≡ rest
        ++ (J.number_of boxed.value, J.origin_of boxed.value) ∷ []) }
    ensures same { SameWorker deque.old deque.new }
    ensures returned { MatchResult result
        (λ _. IsReturn ((J.number_of boxed.value, J.origin_of boxed.value) ∷ [])
        (worker_view deque.old) (worker_view deque.new))
        (λ b. (b ≡ boxed) × (worker_view deque.new ≡ worker_view deque.old)) }
{
    deque.push_as::<Returns<R, J>>(boxed)
}

/// The job at the front of a deque that others take from too.
pub(crate) fn steal_front<R, J: Job<R>>(
    stealer: &ShareStealer<R, J, J::Origin>,
    pass: &mut SharePass<J, J::Origin>,
) -> Steal<Box<J>>
    requires deque { IsPassOf (stealer_deque stealer.now) pass.old }
    requires part { 0 < (view pass.old).part }
    ensures deque { IsPassOf (stealer_deque stealer.now) pass.new }
    ensures stolen { MatchSteal result (view pass.new ≡ view pass.old)
        (view pass.new ≡ view pass.old)
        (λ b. IsTaking ((J.number_of b.value, J.origin_of b.value) ∷ []) (view pass.old)
        (view pass.new)) }
{
    stealer.steal_as::<Steals<R, J>>(pass)
}

/// A pass with a part of one.
pub(crate) fn lend<R, J: Job<R>>(deque: &mut ShareDeque<R, J, J::Origin>) -> SharePass<J, J::Origin>
    requires parts { 1 < (worker_view deque.old).part }
    ensures same { SameWorker deque.old deque.new }
    ensures index { worker_index deque.new ≡ worker_index deque.old }
    ensures deque { IsPassOf (worker_deque deque.old) result }
    ensures kept { worker_view deque.new
        ≡ share_view (worker_view deque.old).list (worker_view deque.old).hand
        ((worker_view deque.old).part - 1) }
    ensures lent { view result ≡ share_view (worker_view deque.old).list [] 1 }
{
    deque.another::<OnePart>()
}

/// Takes in what another knows of the deque.
pub(crate) fn join<R, J: Job<R>>(
    deque: &mut ShareDeque<R, J, J::Origin>,
    pass: SharePass<J, J::Origin>,
)
    requires part { 0 < (worker_view deque.old).part }
    requires deque { IsPassOf (worker_deque deque.old) pass }
    ensures same { SameWorker deque.old deque.new }
    ensures index { worker_index deque.new ≡ worker_index deque.old }
    ensures both { worker_view deque.new
        ≡ share_view (worker_view deque.old).list ((worker_view deque.old).hand ++ (view pass).hand)
        ((worker_view deque.old).part + (view pass).part) }
    ensures few { length (worker_view deque.new).hand ≤ length (worker_view deque.new).list }
{
    deque.absorb::<OnePart>(pass);
    deque.len_as::<HasFew>();
}
