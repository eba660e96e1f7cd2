//! What is before the bound is committed.
ghost use Rattle.std.specs.Prelude.{◌≡◌, ℕ, ◌+◌, ◌<◌, ◌≤◌, suc, List, [], ◌∷◌, ◌++◌, length, take, drop, OnOk};
ghost use Rattle.warp_base.specs.Events.{Each, AreFrom};
ghost use Rattle.warp_process.specs.Processes.{ProcessFace, bound_of};
ghost use Rattle.warp_worker.specs.Workers.{Cell, worker_face, IsWorker, IsReady};
ghost use Rattle.warp_worker.specs.Moves.{Commits, IsDue, IsPendingFrom};

use crate::order::Order;
use crate::worker::Worker;
use std::alloc::AllocError;
use warp_base::{Payload, Simulation};
use warp_process::StateSaver;

impl<P: Payload, K: StateSaver> Worker<P, K> {
    /// Commits the process at a place up to a time.
    fn commit_at<M: Simulation<Payload = P, State = K::State>>(
        &mut self,
        order: &Order<'_, M>,
        place: usize,
        last: u64,
    ) -> Result<(), AllocError>
        requires within { place < length self.old.processes.items }
        requires last { order.now.bound ≡ suc last }
        requires worker { (cells : List (Cell P K.State)) × IsWorker P.words (M.behaviour order.now.model.now) cells (worker_face K.state K.copies self.old) }
        requires ready { Each (IsReady order.now.bound order.now.bound order.now.end) (worker_face K.state K.copies self.old).processes }
        requires early { Each (λ (f : ProcessFace P K.State). AreFrom order.now.bound f.early) (worker_face K.state K.copies self.old).processes }
        requires before { Each (IsDue order.now.bound order.now.end) (take place (worker_face K.state K.copies self.old).processes) }
        ensures moved { OnOk result (Commits P.words (M.behaviour order.now.model.now) (worker_face K.state K.copies self.old)
            (worker_face K.state K.copies self.new)) }
        ensures ready { OnOk result (Each (IsReady order.now.bound order.now.bound order.now.end) (worker_face K.state K.copies self.new).processes) }
        ensures early { OnOk result (Each (λ (f : ProcessFace P K.State). AreFrom order.now.bound f.early) (worker_face K.state K.copies self.new).processes) }
        ensures before { OnOk result (Each (IsDue order.now.bound order.now.end) (take (place + 1) (worker_face K.state K.copies self.new).processes)) }
        ensures count { length self.new.processes.items ≡ length self.old.processes.items }
        ensures rest { self.new ≡ record self.old { processes = self.new.processes; committed = self.new.committed } }
    {
        self.processes[place].commit(last, &mut self.committed)?;
        Ok(())
    }

    /// Commits all processes up to the tick before the bound.
    pub(crate) fn commit<M: Simulation<Payload = P, State = K::State>>(
        &mut self,
        order: &Order<'_, M>,
    ) -> Result<(), AllocError>
        requires worker { (cells : List (Cell P K.State)) × IsWorker P.words (M.behaviour order.now.model.now) cells (worker_face K.state K.copies self.old) }
        requires ready { Each (IsReady order.now.bound order.now.bound order.now.end) (worker_face K.state K.copies self.old).processes }
        requires early { Each (λ (f : ProcessFace P K.State). AreFrom order.now.bound f.early) (worker_face K.state K.copies self.old).processes }
        ensures moved { OnOk result (Commits P.words (M.behaviour order.now.model.now) (worker_face K.state K.copies self.old)
            (worker_face K.state K.copies self.new)) }
        ensures due { OnOk result (Each (IsDue order.now.bound order.now.end) (worker_face K.state K.copies self.new).processes) }
        ensures pending { OnOk result (Each (IsPendingFrom order.now.bound) (worker_face K.state K.copies self.new).processes) }
        ensures count { length self.new.processes.items ≡ length self.old.processes.items }
        ensures rest { self.new ≡ record self.old { processes = self.new.processes; committed = self.new.committed } }
    {
        self.committed.clear();
        let Some(last) = order.bound.checked_sub(1) else {
            return Ok(());
        };
        for place in 0..self.processes.len() {
            self.commit_at(order, place, last)?;
        }
        Ok(())
    }
}
