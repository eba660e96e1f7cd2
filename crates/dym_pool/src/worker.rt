//! What one worker does, from its first turn to its last.
ghost use Rattle.std.specs.Prelude.{◌<◌, All, vec_len};
ghost use Rattle.std.specs.List.{AllZip};
ghost use Rattle.dym_pool.specs.Holdings.{KeepsShare};

use crate::gate::Gate;
use crate::job::Job;
use crate::own_share::OwnShare;
use crate::ring::after;
use crate::steal_share::StealShare;
use std::sync::Wait;

/// A worker's number, its own share, and its ways to the shares of all workers in the order of their numbers.
#[derive(Drop)]
pub(crate) struct Worker<R, J: Job<R>> {
    pub(crate) number: u32,
    pub(crate) own: OwnShare<R, J>,
    pub(crate) reaches: Vec<StealShare<R, J>>,
}

impl<R: Wait, J: Job<R>> Worker<R, J> {
    /// Runs the jobs of its own share, one after another, and then what it can steal.
    pub(crate) fn run<G: Gate>(&mut self, rt: &R, gate: &G)
        requires number { self.old.number < vec_len self.old.reaches }
        requires parts { All (λ r. 0 < r.part) self.old.reaches.items }
        ensures own { KeepsShare self.old.own self.new.own }
        ensures reaches { AllZip KeepsShare self.old.reaches.items self.new.reaches.items }
    {
        self.own.run(rt, gate, self.number);
        steal_all(rt, gate, self.number, &mut self.reaches);
    }
}

/// Steals and runs jobs until one round found no job anywhere.
fn steal_all<R: Wait, J: Job<R>, G: Gate>(
    rt: &R,
    gate: &G,
    worker: u32,
    reaches: &mut Vec<StealShare<R, J>>,
)
    requires number { worker < vec_len reaches.old }
    requires parts { All (λ r. 0 < r.part) reaches.old.items }
    ensures keeps { AllZip KeepsShare reaches.old.items reaches.new.items }
{
    for _ in rt.forever() {
        if !steal_round(rt, gate, worker, reaches) {
            return;
        }
    }
}

/// Looks at the shares of all others, from its own number upward and around, until there is a job or a reason to look again;
/// false where no share had one.
fn steal_round<R, J: Job<R>, G: Gate>(
    rt: &R,
    gate: &G,
    worker: u32,
    reaches: &mut Vec<StealShare<R, J>>,
) -> bool
    requires number { worker < vec_len reaches.old }
    requires parts { All (λ r. 0 < r.part) reaches.old.items }
    ensures keeps { AllZip KeepsShare reaches.old.items reaches.new.items }
{
    let count = reaches.len();
    let mut place = worker as usize;
    for _ in 1..count {
        place = after(place, count);
        if !reaches[place].steal(rt, gate, worker).is_empty() {
            return true;
        }
    }
    false
}
