//! Rounds of all workers, until nothing is left up to the end.
ghost use Rattle.std.specs.Prelude.{◌≡◌, ℕ, suc, ◌<◌, ◌≤◌, [], List, length, map, slice_get, Some, None, IfOk, IfErr, IfSome, IfNone};
ghost use Rattle.warp_base.specs.Events.{Each};
ghost use Rattle.warp_worker.specs.Workers.{WorkerFace, Cell, worker_face};
ghost use Rattle.warp_run.specs.Ends.{IsEnd, FaultsAt, IsHalfTooLong};
ghost use Rattle.warp_run.specs.Failures.{MatchFailure};
ghost use Rattle.warp_run.specs.Worlds.{IsWorld, IsNotBefore};

use crate::exchange::exchange_all;
use crate::finished::{Failure, Finished};
use crate::observer::{Observer, RoundReport};
use crate::times::Times;
use crate::window::{BUDGET, Window};
use std::alloc::{AllocError, Global};
use std::sync::Wait;
use warp_base::{Payload, Simulation, laws};
use warp_process::{RunError, StateSaver};
use warp_threads::Workers;
use warp_worker::{Counts, Ended, Order, Worker};

/// All workers of a model, and how far they may go.
#[derive(Drop)]
pub(crate) struct Rounds<'a, M: Simulation, K, O> {
    pub(crate) alloc: Global,
    pub(crate) model: &'a M,
    pub(crate) end: u64,
    pub(crate) window: Window,
    pub(crate) lanes: Vec<Worker<M::Payload, K>>,
    pub(crate) report: RoundReport,
    /// The times of the processes, where the observer asks for them.
    pub(crate) times: Option<Times>,
    pub(crate) observer: O,
}

/// The error that a worker met, if one did.
fn first_error<P: Payload, K: StateSaver>(workers: &[Worker<P, K>]) -> Option<RunError>
    ensures none { IfNone result (Each (λ w. w.error ≡ None) workers.now) }
    ensures some { IfSome result (λ e. (k : ℕ) × (w : Worker P K) × (slice_get workers.now k ≡ Some w) × (w.error ≡ Some e)) }
{
    for worker in workers {
        if let Some(error) = worker.error() {
            return Some(error);
        }
    }
    None
}

/// A process that has failed in what is committed, if one has.
fn first_failed<P: Payload, K: StateSaver>(workers: &[Worker<P, K>]) -> Option<u32>
    ensures { IfSome result (λ p. (k : ℕ) × (w : Worker P K) × (slice_get workers.now k ≡ Some w) × (w.failed ≡ Some p)) }
{
    for worker in workers {
        if let Some(process) = worker.failed() {
            return Some(process);
        }
    }
    None
}

/// The least time of what is left to be run, or is on its way, if there is any.
fn least_next<P: Payload, K: StateSaver>(workers: &[Worker<P, K>]) -> Option<u64>
    ensures least { (time : ℕ) → IsNotBefore time result → Each (λ w. IsNotBefore time w.next) workers.now }
    ensures one { (bound : ℕ) → Each (λ w. IsNotBefore bound w.next) workers.now → IsNotBefore bound result }
{
    let mut least: Option<u64> = None;
    for worker in workers {
        least = earlier_of(least, worker.next());
    }
    least
}

/// What all workers have counted.
fn total_counts<P: Payload, K: StateSaver>(workers: &[Worker<P, K>]) -> Counts {
    let mut total = Counts::NONE;
    for worker in workers {
        total = total.plus(&worker.counts());
    }
    total
}

/// How many events all workers have committed in the last round.
fn last_committed<P: Payload, K: StateSaver>(workers: &[Worker<P, K>]) -> u64 {
    let mut total: u64 = 0;
    for worker in workers {
        total = total.saturating_add(worker.committed().len() as u64);
    }
    total
}

/// The earlier of two times, where there is one.
fn earlier_of(one: Option<u64>, other: Option<u64>) -> Option<u64>
    ensures left { (time : ℕ) → IsNotBefore time result → IsNotBefore time one }
    ensures right { (time : ℕ) → IsNotBefore time result → IsNotBefore time other }
    ensures both { (time : ℕ) → IsNotBefore time one → IsNotBefore time other → IsNotBefore time result }
{
    match (one, other) {
        (Some(a), Some(b)) => Some(a.min(b)),
        (Some(_), None) => one,
        (None, _) => other,
    }
}

impl<'a, M: Simulation, K: StateSaver<State = M::State>, O: Observer> Rounds<'a, M, K, O> {
    /// What each worker is asked to do in the round at a bound.
    fn orders(&self, bound: u64) -> Result<Vec<Order<'a, M>>, AllocError>
        ensures alike { IfOk result (λ orders. Each (λ o. (o.model.now ≡ self.now.model.now) × (o.bound ≡ bound) × (o.end ≡ self.now.end)) orders.items) }
        ensures count { IfOk result (λ orders. length orders.items ≡ length self.now.lanes.items) }
    {
        let order = Order {
            alloc: self.alloc,
            model: self.model,
            bound,
            limit: bound.saturating_add(self.window.ticks()),
            end: self.end,
            budget: BUDGET,
        };
        let mut orders = Vec::new(self.alloc);
        while orders.len() < self.lanes.len() {
            orders.push(order)?;
        }
        Ok(orders)
    }

    /// One round: messages are exchanged, and all workers advance. The result is the next bound, or
    /// none where nothing is left up to the end.
    pub(crate) fn round<R: Wait>(
        &mut self,
        rt: &R,
        threads: &mut Workers<Order<'a, M>, Worker<M::Payload, K>>,
        bound: u64,
    ) -> Result<Option<u64>, Failure>
        requires within { bound ≤ self.old.end }
        requires world { (cells : List (Cell M.Payload M.State)) × IsWorld M.Payload.words (M.behaviour self.old.model.now) (M.processes self.old.model.now)
            bound self.old.end cells (map (worker_face K.state K.copies) self.old.lanes.items) [] }
        ensures next { IfOk result (λ next. IfSome next (λ t. (bound < t) × (t ≤ self.old.end)
            × ((cells : List (Cell M.Payload M.State)) × IsWorld M.Payload.words (M.behaviour self.old.model.now) (M.processes self.old.model.now)
            t self.old.end cells (map (worker_face K.state K.copies) self.new.lanes.items) []))) }
        ensures over { IfOk result (λ next. IfNone next ((cells : List (Cell M.Payload M.State)) × IsWorld M.Payload.words (M.behaviour self.old.model.now)
            (M.processes self.old.model.now) (suc self.old.end) self.old.end cells (map (worker_face K.state K.copies) self.new.lanes.items) [])) }
        ensures failure { IfErr result (MatchFailure (FaultsAt M.Payload.words (M.behaviour self.old.model.now) (M.processes self.old.model.now) self.old.end)
            (IsHalfTooLong M.Payload.words (M.behaviour self.old.model.now) (M.processes self.old.model.now) self.old.end)) }
        ensures rest { self.new ≡ record self.old { lanes = self.new.lanes } }
    {
        laws::sequential_run_is_sound::<M::Payload, M::State>();
        laws::bound_is_safe::<M::Payload, M::State>();
        laws::settled_states_are_real::<M::Payload, M::State>();
        exchange_all(self.alloc, &mut self.lanes)?;
        let orders = self.orders(bound)?;
        threads.round(rt, &mut self.lanes, &orders);
        if let Some(error) = first_error(&self.lanes) {
            return Err(Failure::from(error));
        }
        if let Some(process) = first_failed(&self.lanes) {
            return Err(Failure::Fault { process });
        }
        match least_next(&self.lanes) {
            Some(next) if next <= self.end => Ok(Some(next)),
            _ => Ok(None),
        }
    }

    /// Takes the last round into account before that at the next bound: how far workers run ahead is
    /// chosen, and the observer is told.
    pub(crate) fn note_round(&mut self, bound: u64)
        ensures rest { self.new ≡ record self.old { window = self.new.window; report = self.new.report; times = self.new.times; observer = self.new.observer } }
    {
        let counts = total_counts(&self.lanes);
        self.window.adapt(self.lanes.len(), &counts);
        self.report = RoundReport {
            bound,
            rounds: self.report.rounds.saturating_add(1),
            committed: self
                .report
                .committed
                .saturating_add(last_committed(&self.lanes)),
            counts,
        };
        self.observer.observe(&self.report);
        self.tell_times(bound);
    }

    /// Tells the observer to what times the processes have come, if it asks for that: nothing before
    /// the bound can change any more.
    pub(crate) fn tell_times(&mut self, bound: u64)
        ensures rest { self.new ≡ record self.old { times = self.new.times; observer = self.new.observer } }
    {
        if let Some(times) = &mut self.times {
            times.note(&self.lanes);
            self.observer.observe_times(bound, times.last());
        }
    }

    /// What all processes come to, where nothing is left up to the end.
    pub(crate) fn finish(self) -> Result<Finished<M::State>, Failure>
        requires world { (cells : List (Cell M.Payload M.State)) × IsWorld M.Payload.words (M.behaviour self.model.now) (M.processes self.model.now)
            (suc self.end) self.end cells (map (worker_face K.state K.copies) self.lanes.items) [] }
        ensures ok { IfOk result (λ f. IsEnd M.Payload.words (M.behaviour self.entry.model.now) (M.processes self.entry.model.now) self.entry.end f.states.items f.committed) }
        ensures failure { IfErr result (MatchFailure (FaultsAt M.Payload.words (M.behaviour self.entry.model.now) (M.processes self.entry.model.now) self.entry.end)
            (IsHalfTooLong M.Payload.words (M.behaviour self.entry.model.now) (M.processes self.entry.model.now) self.entry.end)) }
    {
        laws::sequential_run_is_sound::<M::Payload, M::State>();
        laws::bound_is_safe::<M::Payload, M::State>();
        laws::settled_states_are_real::<M::Payload, M::State>();
        laws::nothing_is_sent_beyond::<M::Payload, M::State>();
        let counts = total_counts(&self.lanes);
        let mut states = Vec::new(self.alloc);
        let mut committed: u64 = 0;
        for lane in self.lanes {
            let Ended { count, failed } = lane.finish(self.alloc, self.model, &mut states)?;
            if let Some(process) = failed {
                return Err(Failure::Fault { process });
            }
            let Some(sum) = committed.checked_add(count) else {
                return Err(Failure::TooManyEvents);
            };
            committed = sum;
        }
        Ok(Finished {
            states,
            committed,
            counts,
            rounds: self.report.rounds.saturating_add(1),
        })
    }
}
