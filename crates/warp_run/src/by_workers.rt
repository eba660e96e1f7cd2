//! A run by workers, which run ahead of what is certain.
ghost use Rattle.std.specs.Prelude.{◌≡◌, ℕ, ◌≤◌, ◌<◌, suc, [], List, map, IfOk, IfErr};
ghost use Rattle.warp_worker.specs.Workers.{Cell, worker_face};
ghost use Rattle.warp_run.specs.Ends.{IsEnd, FaultsAt, IsHalfTooLong};
ghost use Rattle.warp_run.specs.Failures.{MatchFailure};
ghost use Rattle.warp_run.specs.Worlds.{IsWorld};

use crate::finished::{Failure, Finished};
use crate::observer::{Observer, RoundReport, Unobserved};
use crate::options::Options;
use crate::rounds::Rounds;
use crate::times::Times;
use crate::window::Window;
use std::alloc::{AllocError, Global};
use std::sync::Wait;
use std::thread::{Threads, available_parallelism};
use warp_base::Simulation;
use warp_process::{Copied, StateSaver, WholeCopies};
use warp_threads::{Driver, Workers, with_workers};
use warp_worker::{OpenSaver, Order, Worker};

/// Runs a model by workers, each in a thread of its own where threads can be made, up to an end
/// whose events are run too.
///
/// What it returns is the end of the run in order, whatever the workers, the window, the period and
/// the order in which threads run; or a fault that the run in order meets; or `TooManyEvents`, where
/// a process would have run or sent 2^64 events, or all together ran as many. Some of these might
/// have been undone, but half of them are of the run in order. Or it answers that memory is wanting.
pub fn simulate<M, R>(
    rt: &R,
    alloc: Global,
    model: &M,
    options: &Options,
) -> Result<Finished<M::State>, Failure>
where
    M: Simulation + Sync,
    M::Payload: Send,
    M::State: Copied + Send,
    R: Threads + Wait + Sync,
    ensures ok { IfOk result (λ f. IsEnd M.Payload.words (M.behaviour model.now)
        (M.processes model.now) options.now.end f.states.items f.committed) }
    ensures failure { IfErr result (MatchFailure
        (FaultsAt M.Payload.words (M.behaviour model.now) (M.processes model.now) options.now.end)
        (IsHalfTooLong M.Payload.words (M.behaviour model.now) (M.processes model.now) options.now.end)) }
{
    simulate_observed(rt, alloc, model, options, Unobserved)
}

/// Does what `simulate` does, and tells the observer after each round where the run stands. Where it
/// doesn't ask for the times of processes, none is collected.
pub fn simulate_observed<M, R, O>(
    rt: &R,
    alloc: Global,
    model: &M,
    options: &Options,
    observer: O,
) -> Result<Finished<M::State>, Failure>
where
    M: Simulation + Sync,
    M::Payload: Send,
    M::State: Copied + Send,
    R: Threads + Wait + Sync,
    O: Observer,
    ensures ok { IfOk result (λ f. IsEnd M.Payload.words (M.behaviour model.now)
        (M.processes model.now) options.now.end f.states.items f.committed) }
    ensures failure { IfErr result (MatchFailure
        (FaultsAt M.Payload.words (M.behaviour model.now) (M.processes model.now) options.now.end)
        (IsHalfTooLong M.Payload.words (M.behaviour model.now) (M.processes model.now) options.now.end)) }
{
    let workers = worker_count(rt, options.workers);
    let lanes = open_lanes::<M, WholeCopies<M::State>>(alloc, model, workers, options.period)?;
    let threads = lanes.len().saturating_sub(1);
    let rounds = Rounds {
        alloc,
        model,
        end: options.end,
        window: Window::new(options.window),
        lanes,
        report: RoundReport::START,
        times: first_times(alloc, model.processes(), &observer)?,
        observer,
    };
    match with_workers(rt, alloc, threads, rounds) {
        Ok(outcome) => outcome,
        Err(_) => Err(Failure::OutOfMemory),
    }
}

/// The times of so many processes that have run nothing, where the observer asks for times.
fn first_times<O: Observer>(
    alloc: Global,
    processes: u32,
    observer: &O,
) -> Result<Option<Times>, AllocError> {
    if observer.asks_times() {
        Ok(Some(Times::new(alloc, processes)?))
    } else {
        Ok(None)
    }
}

/// How many workers there are to be where so many are asked for: 0 stands for as many as the machine
/// has processors, or one where that isn't known.
fn worker_count<R: Threads>(rt: &R, asked: u32) -> u32
    ensures { 0 < asked → result ≡ asked }
{
    if asked > 0 {
        return asked;
    }
    match available_parallelism(rt) {
        Ok(count) => u32::try_from(count.get()).unwrap_or(u32::MAX),
        Err(_) => 1,
    }
}

/// The workers of a model, each with its share of the processes.
fn open_lanes<M: Simulation, K: OpenSaver<State = M::State>>(
    alloc: Global,
    model: &M,
    workers: u32,
    period: u64,
) -> Result<Vec<Worker<M::Payload, K>>, AllocError>
    ensures { IfOk result (λ lanes. (end : ℕ) → (cells : List (Cell M.Payload M.State)) × IsWorld M.Payload.words (M.behaviour model.now)
        (M.processes model.now) 0 end cells (map (worker_face K.state K.copies) lanes.items) []) }
{
    let count = model.processes();
    let share = count.div_ceil(workers.max(1)).max(1);
    let mut lanes = Vec::new(alloc);
    let mut first = 0;
    while first < count {
        let few = share.min(count - first);
        lanes.push(Worker::open(alloc, model, first, few, period)?)?;
        first += few;
    }
    Ok(lanes)
}

impl<'a, M: Simulation, K: StateSaver<State = M::State>, O: Observer> Driver<
    Order<'a, M>,
    Worker<M::Payload, K>,
> for Rounds<'a, M, K, O> {
    ghost use Rattle.std.specs.Prelude.{[], List, map, IfOk, IfErr};
    ghost use Rattle.warp_worker.specs.Workers.{Cell, worker_face};
    ghost use Rattle.warp_run.specs.Ends.{IsEnd, FaultsAt, IsHalfTooLong};
    ghost use Rattle.warp_run.specs.Failures.{MatchFailure};
    ghost use Rattle.warp_run.specs.Worlds.{IsWorld};

    type Outcome = Result<Finished<M::State>, Failure>;

    ghost can_drive = { λ rounds. (cells : List (Cell M.Payload M.State)) × IsWorld M.Payload.words (M.behaviour rounds.model.now) (M.processes rounds.model.now)
        0 rounds.end cells (map (worker_face K.state K.copies) rounds.lanes.items) [] };

    ghost drives = { λ rounds outcome. IfOk outcome (λ f. IsEnd M.Payload.words (M.behaviour rounds.model.now) (M.processes rounds.model.now) rounds.end f.states.items f.committed)
        × IfErr outcome (MatchFailure (FaultsAt M.Payload.words (M.behaviour rounds.model.now) (M.processes rounds.model.now) rounds.end)
        (IsHalfTooLong M.Payload.words (M.behaviour rounds.model.now) (M.processes rounds.model.now) rounds.end)) };

    fn drive<R: Wait>(
        self,
        rt: &R,
        workers: &mut Workers<Order<'a, M>, Worker<M::Payload, K>>,
    ) -> Result<Finished<M::State>, Failure> {
        run_rounds(rt, workers, self)
    }
}

/// Runs rounds until nothing is left up to the end.
fn run_rounds<'a, M: Simulation, K: StateSaver<State = M::State>, O: Observer, R: Wait>(
    rt: &R,
    threads: &mut Workers<Order<'a, M>, Worker<M::Payload, K>>,
    start: Rounds<'a, M, K, O>,
) -> Result<Finished<M::State>, Failure>
    requires { (cells : List (Cell M.Payload M.State)) × IsWorld M.Payload.words (M.behaviour start.model.now) (M.processes start.model.now)
        0 start.end cells (map (worker_face K.state K.copies) start.lanes.items) [] }
    ensures ok { IfOk result (λ f. IsEnd M.Payload.words (M.behaviour start.entry.model.now) (M.processes start.entry.model.now) start.entry.end f.states.items f.committed) }
    ensures failure { IfErr result (MatchFailure (FaultsAt M.Payload.words (M.behaviour start.entry.model.now) (M.processes start.entry.model.now) start.entry.end)
        (IsHalfTooLong M.Payload.words (M.behaviour start.entry.model.now) (M.processes start.entry.model.now) start.entry.end)) }
{
    let mut rounds = start;
    let mut bound = 0;
    rounds.tell_times(bound);
    while let Some(next) = rounds.round(rt, threads, bound)? {
        rounds.note_round(next);
        bound = next;
    }
    let end = rounds.end;
    rounds.tell_times(end);
    rounds.finish()
}
