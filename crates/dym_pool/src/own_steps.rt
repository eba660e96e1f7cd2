//! What a worker does with its own share.
ghost use Rattle.std.specs.Prelude.{◌≡◌, ◌+◌, ◌-◌, ◌<◌, ◌≤◌, [], ◌∷◌, ◌++◌, IfOk, MatchOption, length, vec_len, vec_capacity, List, ℕ, ⊤};
ghost use Rattle.crossbeam_deque.specs.Handles.{view, worker_view, worker_flavor, SameWorker, IsPassOf};
ghost use Rattle.dym_pool.specs.Jobs.{boxed_labels, AllBoxedEnded};
ghost use Rattle.dym_pool.specs.Deques.{HasAll, share_view};
ghost use Rattle.dym_pool.specs.Holdings.{KeepsShare};

use crate::gate::Gate;
use crate::job::Job;
use crate::own_share::OwnShare;
use crate::rule::{ShareDeque, SharePass};
use crate::steal_share::StealShare;
use crate::steps::{hand_back, join, lend, load, open_deque, take_last};
use crate::turns::{run_to_end, take_turn};
use std::alloc::{AllocError, Global};
use std::sync::Wait;

impl<R, J: Job<R> + Drop> OwnShare<R, J> {
    /// A share with room for so many jobs.
    pub(crate) fn open(alloc: Global, room: usize) -> Result<Self, AllocError>
        ensures list { IfOk result (λ share. share.list ≡ []) }
        ensures hand { IfOk result (λ share. share.hand ≡ []) }
        ensures part { IfOk result (λ share. share.part ≡ 65) }
        ensures room { IfOk result (λ share. share.room ≡ room) }
        ensures pushed { IfOk result (λ share. share.pushed ≡ 0) }
    {
        Ok(OwnShare {
            deque: open_deque(alloc, room)?,
            ended: Vec::with_capacity(alloc, room)?,
        })
    }

    /// One more job, for which there is room.
    pub(crate) fn put(&mut self, boxed: Box<J>)
        requires whole { self.old.part ≡ 65 }
        requires room { length self.old.list < self.old.room }
        requires slots { self.old.pushed < self.old.room }
        ensures list { self.new.list ≡ self.old.list
            ++ (J.number_of boxed.value, J.origin_of boxed.value) ∷ [] }
        ensures pushed { self.new.pushed ≡ self.old.pushed + 1 }
        ensures deque { self.new.deque ≡ self.old.deque }
        ensures hand { self.new.hand ≡ self.old.hand }
        ensures part { self.new.part ≡ self.old.part }
        ensures same_room { self.new.room ≡ self.old.room }
    {
        load(&mut self.deque, boxed);
    }
}

impl<R, J: Job<R>> OwnShare<R, J> {
    /// A pass with a part of one, for any worker.
    pub(crate) fn lend(&mut self) -> SharePass<J, J::Origin>
        requires parts { 1 < self.old.part }
        ensures deque { self.new.deque ≡ self.old.deque }
        ensures list { self.new.list ≡ self.old.list }
        ensures hand { self.new.hand ≡ self.old.hand }
        ensures part { self.new.part ≡ self.old.part - 1 }
        ensures room { self.new.room ≡ self.old.room }
        ensures fits { length self.old.list ≤ self.old.room }
        ensures pass { IsPassOf self.old.deque result }
        ensures lent { view result ≡ share_view self.old.list [] 1 }
    {
        lend(&mut self.deque)
    }

    /// A turn for the job that was put last, by that worker; false where there was none.
    pub(crate) fn run_last<G: Gate>(&mut self, rt: &R, gate: &G, worker: u32) -> bool
        ensures keeps { KeepsShare self.old self.new }
    {
        let Some(boxed) = take_last(&mut self.deque) else {
            return false;
        };
        if let Some(ended) = turn_once(rt, gate, worker, &mut self.deque, boxed) {
            self.ended.push_reserved(ended);
        }
        true
    }

    /// Runs each job that is left to its end.
    pub(crate) fn finish<G: Gate>(&mut self, rt: &R, gate: &G, worker: u32)
        requires whole { self.old.part ≡ 65 }
        ensures list { self.new.list ≡ self.old.list }
        ensures all { HasAll self.new.list self.new.hand }
    {
        finish_all(rt, gate, worker, &mut self.deque, &mut self.ended);
    }
}

impl<R: Wait, J: Job<R>> OwnShare<R, J> {
    /// Turns of one job until it has ended, and then of the one that was put before it, until none is there.
    pub(crate) fn run<G: Gate>(&mut self, rt: &R, gate: &G, worker: u32)
        ensures keeps { KeepsShare self.old self.new }
    {
        for _ in rt.forever() {
            if !self.run_last(rt, gate, worker) {
                return;
            }
        }
    }
}

impl<R, J: Job<R> + Drop> OwnShare<R, J> {
    /// Takes in what another worker has of the share.
    pub(crate) fn join(&mut self, steal_share: StealShare<R, J>)
        requires deque { steal_share.deque ≡ self.old.deque }
        ensures deque { self.new.deque ≡ self.old.deque }
        ensures list { self.new.list ≡ self.old.list }
        ensures part { self.new.part ≡ self.old.part + steal_share.part }
    {
        let StealShare {
            stealer: _,
            pass,
            ended,
        } = steal_share;
        join(&mut self.deque, pass);
        move_all(ended, &mut self.ended);
    }

    /// The jobs that ended here.
    pub(crate) fn into_ended(self) -> Vec<Box<J>>
        ensures labels { boxed_labels J.number_of J.origin_of result.items ≡ self.hand }
        ensures ended { AllBoxedEnded J.left_of result.items }
    {
        let OwnShare { deque: _, ended } = self;
        ended
    }
}

/// A turn of a job that was taken from the deque. It comes back where it has ended, and is in the deque again where not.
fn turn_once<R, J: Job<R>, G: Gate>(
    rt: &R,
    gate: &G,
    worker: u32,
    deque: &mut ShareDeque<R, J, J::Origin>,
    mut boxed: Box<J>,
) -> Option<Box<J>>
    requires part { 0 < (worker_view deque.old).part }
    requires held { (rest : List (ℕ × J.Origin))
        × ((worker_view deque.old).hand ≡ rest
        ++ (J.number_of boxed.value, J.origin_of boxed.value) ∷ []) }
    ensures same { SameWorker deque.old deque.new }
    ensures list { (worker_view deque.new).list ≡ (worker_view deque.old).list }
    ensures part { (worker_view deque.new).part ≡ (worker_view deque.old).part }
    ensures hand { MatchOption result
        ((worker_view deque.old).hand ≡ (worker_view deque.new).hand
        ++ (J.number_of boxed.value, J.origin_of boxed.value) ∷ [])
        (λ b. (worker_view deque.new).hand ≡ (worker_view deque.old).hand) }
    ensures ended { MatchOption result ⊤
        (λ b. (J.number_of b.value ≡ J.number_of boxed.value)
        × (J.origin_of b.value ≡ J.origin_of boxed.value) × (J.left_of b.value ≡ 0)) }
{
    if boxed.left() > 0 {
        take_turn(rt, gate, worker, &mut *boxed);
    }
    if boxed.left() == 0 {
        return Some(boxed);
    }
    match hand_back(deque, boxed) {
        Ok(()) => None,
        Err(mut refused) => {
            run_to_end(rt, gate, worker, &mut *refused);
            Some(refused)
        }
    }
}

/// Takes each job that is left out of the deque and runs it to its end.
fn finish_all<R, J: Job<R>, G: Gate>(
    rt: &R,
    gate: &G,
    worker: u32,
    deque: &mut ShareDeque<R, J, J::Origin>,
    ended: &mut Vec<Box<J>>,
)
    requires last_out { worker_flavor deque.old ≡ 1 }
    requires whole { (worker_view deque.old).part ≡ 65 }
    requires hand { boxed_labels J.number_of J.origin_of ended.old.items
        ≡ (worker_view deque.old).hand }
    requires room { length (worker_view deque.old).list ≤ vec_capacity ended.old }
    requires ended { AllBoxedEnded J.left_of ended.old.items }
    ensures same { SameWorker deque.old deque.new }
    ensures list { (worker_view deque.new).list ≡ (worker_view deque.old).list }
    ensures part { (worker_view deque.new).part ≡ 65 }
    ensures hand { boxed_labels J.number_of J.origin_of ended.new.items
        ≡ (worker_view deque.new).hand }
    ensures room { vec_capacity ended.new ≡ vec_capacity ended.old }
    ensures ended { AllBoxedEnded J.left_of ended.new.items }
    ensures all { HasAll (worker_view deque.new).list (worker_view deque.new).hand }
{
    while let Some(mut boxed) = take_last(deque) {
        run_to_end(rt, gate, worker, &mut *boxed);
        ended.push_reserved(boxed);
    }
}

/// Moves all jobs of one list behind those of another.
fn move_all<R, J: Job<R> + Drop>(from: Vec<Box<J>>, to: &mut Vec<Box<J>>)
    requires room { vec_len to.old + vec_len from ≤ vec_capacity to.old }
    ensures moved { to.new.items ≡ to.old.items ++ from.items }
    ensures room { vec_capacity to.new ≡ vec_capacity to.old }
{
    for boxed in from {
        to.push_reserved(boxed);
    }
}
