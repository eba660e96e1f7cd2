//! The end of a worker.
ghost use Rattle.std.specs.Prelude.{◌≡◌, ℕ, ◌+◌, ◌^◌, ◌≤◌, List, [], ◌∷◌, length, Option, Some, None, Err, IfOk, IfErr};
ghost use Rattle.warp_base.specs.declared.event.Event.{Event};
ghost use Rattle.warp_process.specs.Processes.{face, IsProcess, done_of};
ghost use Rattle.warp_process.specs.declared.run.RunError.TheVariants.{Memory, Counts};
ghost use Rattle.warp_worker.specs.Workers.{Cell, total, IsWorker, HasEnded, worker_face};
ghost use Rattle.warp_worker.specs.Endings.{first_told, told_of};

use crate::worker::Worker;
use std::alloc::Global;
use warp_base::{Payload, Simulation};
use warp_process::{Process, RunError, StateSaver};

/// What a worker's processes come to, beside their states.
#[derive(Clone, Copy, Debug)]
pub struct Ended {
    /// How many events were run and stand.
    pub count: u64,
    /// A process that came to a state that is a fault of the model's own.
    pub failed: Option<u32>,
}

/// The first of two processes that have failed, if one has.
fn first_failed(one: Option<u32>, other: Option<u32>) -> Option<u32>
    ensures { result ≡ first_told one other }
{
    match one {
        Some(_) => one,
        None => other,
    }
}

/// A process that has a fault, by its number.
fn failed_with(fault: Option<u64>, number: u32) -> Option<u32>
    ensures { result ≡ told_of fault number }
{
    match fault {
        Some(_) => Some(number),
        None => None,
    }
}

/// Brings a process to its end; its state goes to the end of `states`.
fn end_process<P: Payload, K: StateSaver, M: Simulation<Payload = P, State = K::State>>(
    process: Process<P, K>,
    alloc: Global,
    model: &M,
    states: &mut Vec<K::State>,
) -> Result<Ended, RunError>
    requires process { (past : List (Event P)) × IsProcess P.words (M.behaviour model.now) past (face K.state K.copies process) }
    ensures ended { IfOk result (λ e. (past : List (Event P)) → IsProcess P.words (M.behaviour model.now) past (face K.state K.copies process)
        → HasEnded P.words (M.behaviour model.now) ((past, face K.state K.copies process) ∷ []) states.old.items states.new.items e.count e.failed) }
    ensures memory { IfErr result (λ e. e ≡ Memory) }
{
    let mut last = process;
    last.catch_up(alloc, model)?;
    let count = last.date();
    let failed = failed_with(last.fault(), last.number());
    states.reserve(1)?;
    states.push_reserved(last.into_state());
    Ok(Ended { count, failed })
}

impl<P: Payload, K: StateSaver> Worker<P, K> {
    /// Brings all processes to their ends, where nothing is left to be run up to the end of the run:
    /// their states go to the end of `states`, in the order of their numbers.
    pub fn finish<M: Simulation<Payload = P, State = K::State>>(
        self,
        alloc: Global,
        model: &M,
        states: &mut Vec<K::State>,
    ) -> Result<Ended, RunError>
        requires worker { (cells : List (Cell P K.State)) × IsWorker P.words (M.behaviour model.now) cells (worker_face K.state K.copies self) }
        ensures ended { IfOk result (λ e. (cells : List (Cell P K.State)) → IsWorker P.words (M.behaviour model.now) cells (worker_face K.state K.copies self)
            → HasEnded P.words (M.behaviour model.now) cells states.old.items states.new.items e.count e.failed) }
        ensures many { result ≡ Err Counts → (cells : List (Cell P K.State)) → IsWorker P.words (M.behaviour model.now) cells (worker_face K.state K.copies self)
            → 2 ^ 64 ≤ total (λ (c : Cell P K.State). length (done_of c.0 c.1)) cells }
    {
        let mut count: u64 = 0;
        let mut failed = None;
        for process in self.processes {
            let ended = end_process(process, alloc, model, states)?;
            let Some(sum) = count.checked_add(ended.count) else {
                return Err(RunError::Counts);
            };
            count = sum;
            failed = first_failed(failed, ended.failed);
        }
        Ok(Ended { count, failed })
    }
}
