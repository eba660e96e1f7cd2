//! Events are run.
ghost use Rattle.std.specs.Prelude.{◌≡◌, ℕ, ◌+◌, ◌<◌, ◌≤◌, ◌↔◌, suc, List, [], length, map, take, IsTrue, Err, OnOk, IfSome};
ghost use Rattle.warp_base.specs.Events.{Each};
ghost use Rattle.warp_process.specs.declared.run.RunError.TheVariants.{Counts};
ghost use Rattle.warp_worker.specs.Workers.{Cell, worker_face, past_of, IsWorker, HasTooMany};
ghost use Rattle.warp_worker.specs.Moves.{Moves, IsMidway, IsPendingFrom, KeepsPending, HasNextUntil, all_to_run};

use crate::order::Order;
use crate::worker::Worker;
use warp_base::laws::nothing_is_sent_beyond;
use warp_base::{Message, Payload, Simulation};
use warp_process::laws::sent_is_kept;
use warp_process::{RunError, StateSaver};

impl<P: Payload, K: StateSaver> Worker<P, K> {
    /// Whether the process at a place is to run an event at or before a time.
    fn is_due(&self, place: usize, last: u64) -> bool
        requires within { place < length self.now.processes.items }
        ensures { IsTrue result ↔ HasNextUntil last place (worker_face K.state K.copies self.now) }
    {
        match self.processes[place].next_event() {
            Some(event) => event.time <= last,
            None => false,
        }
    }

    /// Runs the next event of the process at a place; what it sends goes to the mail.
    fn run_at<M: Simulation<Payload = P, State = K::State>>(
        &mut self,
        order: &Order<'_, M>,
        place: usize,
        mail: &mut Vec<Message<P>>,
    ) -> Result<(), RunError>
        requires worker { (cells : List (Cell P K.State)) × IsWorker P.words (M.behaviour order.now.model.now) cells (worker_face K.state K.copies self.old) }
        requires midway { IsMidway order.now.bound order.now.end (M.processes order.now.model.now) (worker_face K.state K.copies self.old) mail.old.items }
        requires pending { Each (IsPendingFrom order.now.bound) (worker_face K.state K.copies self.old).processes }
        requires next { HasNextUntil order.now.end place (worker_face K.state K.copies self.old) }
        ensures moved { OnOk result (Moves P.words (M.behaviour order.now.model.now) (worker_face K.state K.copies self.old) mail.old.items
            (worker_face K.state K.copies self.new) mail.new.items) }
        ensures many { result ≡ Err Counts → (cells : List (Cell P K.State)) → IsWorker P.words (M.behaviour order.now.model.now) cells (worker_face K.state K.copies self.old)
            → HasTooMany (M.behaviour order.now.model.now) self.old.first (map past_of cells) }
        ensures midway { OnOk result (IsMidway order.now.bound order.now.end (M.processes order.now.model.now) (worker_face K.state K.copies self.new) mail.new.items) }
        ensures pending { OnOk result ((time : ℕ) → Each (IsPendingFrom time) (worker_face K.state K.copies self.old).processes
            → Each (IsPendingFrom time) (worker_face K.state K.copies self.new).processes) }
        ensures fewer { OnOk result (all_to_run (worker_face K.state K.copies self.new) + 1 ≡ all_to_run (worker_face K.state K.copies self.old)) }
        ensures before { take place (worker_face K.state K.copies self.new).processes ≡ take place (worker_face K.state K.copies self.old).processes }
        ensures count { length self.new.processes.items ≡ length self.old.processes.items }
        ensures rest { self.new ≡ record self.old { processes = self.new.processes; queue = self.new.queue; counts = self.new.counts } }
    {
        sent_is_kept::<P, K::State>();
        nothing_is_sent_beyond::<P, K::State>();
        self.processes[place].run_next(order.alloc, order.model, mail)?;
        self.counts.run();
        self.note_next(place);
        Ok(())
    }

    /// Runs all events of the process at a place that are at the bound. Nothing of what they send can
    /// be for that time.
    fn run_due<M: Simulation<Payload = P, State = K::State>>(
        &mut self,
        order: &Order<'_, M>,
        place: usize,
        mail: &mut Vec<Message<P>>,
    ) -> Result<(), RunError>
        requires within { place < length self.old.processes.items }
        requires until { order.now.bound ≤ order.now.end }
        requires worker { (cells : List (Cell P K.State)) × IsWorker P.words (M.behaviour order.now.model.now) cells (worker_face K.state K.copies self.old) }
        requires midway { IsMidway order.now.bound order.now.end (M.processes order.now.model.now) (worker_face K.state K.copies self.old) mail.old.items }
        requires pending { Each (IsPendingFrom order.now.bound) (worker_face K.state K.copies self.old).processes }
        ensures moved { OnOk result (Moves P.words (M.behaviour order.now.model.now) (worker_face K.state K.copies self.old) mail.old.items
            (worker_face K.state K.copies self.new) mail.new.items) }
        ensures many { result ≡ Err Counts → (cells : List (Cell P K.State)) → IsWorker P.words (M.behaviour order.now.model.now) cells (worker_face K.state K.copies self.old)
            → HasTooMany (M.behaviour order.now.model.now) self.old.first (map past_of cells) }
        ensures midway { OnOk result (IsMidway order.now.bound order.now.end (M.processes order.now.model.now) (worker_face K.state K.copies self.new) mail.new.items) }
        ensures pending { OnOk result (Each (IsPendingFrom order.now.bound) (worker_face K.state K.copies self.new).processes) }
        ensures done { OnOk result (HasNextUntil order.now.bound place (worker_face K.state K.copies self.new) → ⊥) }
        ensures before { take place (worker_face K.state K.copies self.new).processes ≡ take place (worker_face K.state K.copies self.old).processes }
        ensures count { length self.new.processes.items ≡ length self.old.processes.items }
        ensures rest { self.new ≡ record self.old { processes = self.new.processes; queue = self.new.queue; counts = self.new.counts } }
    {
        while self.is_due(place, order.bound) {
            self.run_at(order, place, mail)?;
        }
        Ok(())
    }

    /// Runs all events at the bound.
    pub(crate) fn run_bound<M: Simulation<Payload = P, State = K::State>>(
        &mut self,
        order: &Order<'_, M>,
        mail: &mut Vec<Message<P>>,
    ) -> Result<(), RunError>
        requires until { order.now.bound ≤ order.now.end }
        requires worker { (cells : List (Cell P K.State)) × IsWorker P.words (M.behaviour order.now.model.now) cells (worker_face K.state K.copies self.old) }
        requires midway { IsMidway order.now.bound order.now.end (M.processes order.now.model.now) (worker_face K.state K.copies self.old) mail.old.items }
        requires pending { Each (IsPendingFrom order.now.bound) (worker_face K.state K.copies self.old).processes }
        ensures moved { OnOk result (Moves P.words (M.behaviour order.now.model.now) (worker_face K.state K.copies self.old) mail.old.items
            (worker_face K.state K.copies self.new) mail.new.items) }
        ensures many { result ≡ Err Counts → (cells : List (Cell P K.State)) → IsWorker P.words (M.behaviour order.now.model.now) cells (worker_face K.state K.copies self.old)
            → HasTooMany (M.behaviour order.now.model.now) self.old.first (map past_of cells) }
        ensures midway { OnOk result (IsMidway order.now.bound order.now.end (M.processes order.now.model.now) (worker_face K.state K.copies self.new) mail.new.items) }
        ensures pending { OnOk result (Each (IsPendingFrom (suc order.now.bound)) (worker_face K.state K.copies self.new).processes) }
        ensures count { length self.new.processes.items ≡ length self.old.processes.items }
        ensures rest { self.new ≡ record self.old { processes = self.new.processes; queue = self.new.queue; counts = self.new.counts } }
    {
        for place in 0..self.processes.len() {
            self.run_due(order, place, mail)?;
        }
        Ok(())
    }

    /// The place of the process that is to run the earliest event, if that is at or before a time.
    fn earliest(&self, last: u64) -> Option<usize>
        ensures { IfSome result (λ place. HasNextUntil last place (worker_face K.state K.copies self.now)) }
    {
        let place = self.queue.first()?;
        if place < self.processes.len() && self.is_due(place, last) {
            Some(place)
        } else {
            None
        }
    }

    /// Runs events ahead of what is certain, within the order's limits, and delivers what they send.
    pub(crate) fn run_ahead<M: Simulation<Payload = P, State = K::State>>(
        &mut self,
        order: &Order<'_, M>,
        mail: &mut Vec<Message<P>>,
    ) -> Result<(), RunError>
        requires worker { (cells : List (Cell P K.State)) × IsWorker P.words (M.behaviour order.now.model.now) cells (worker_face K.state K.copies self.old) }
        requires midway { IsMidway order.now.bound order.now.end (M.processes order.now.model.now) (worker_face K.state K.copies self.old) mail.old.items }
        requires pending { Each (IsPendingFrom (suc order.now.bound)) (worker_face K.state K.copies self.old).processes }
        requires empty { mail.old.items ≡ [] }
        ensures moved { OnOk result (Moves P.words (M.behaviour order.now.model.now) (worker_face K.state K.copies self.old) mail.old.items
            (worker_face K.state K.copies self.new) mail.new.items) }
        ensures many { result ≡ Err Counts → (cells : List (Cell P K.State)) → IsWorker P.words (M.behaviour order.now.model.now) cells (worker_face K.state K.copies self.old)
            → HasTooMany (M.behaviour order.now.model.now) self.old.first (map past_of cells) }
        ensures midway { OnOk result (IsMidway order.now.bound order.now.end (M.processes order.now.model.now) (worker_face K.state K.copies self.new) mail.new.items) }
        ensures pending { OnOk result (Each (IsPendingFrom (suc order.now.bound)) (worker_face K.state K.copies self.new).processes) }
        ensures empty { OnOk result (mail.new.items ≡ []) }
        ensures count { length self.new.processes.items ≡ length self.old.processes.items }
        ensures rest { self.new ≡ record self.old { processes = self.new.processes; outbox = self.new.outbox; queue = self.new.queue; counts = self.new.counts } }
    {
        let last = order.limit.min(order.end);
        'events: for _ in 0..order.budget {
            let Some(place) = self.earliest(last) else {
                break 'events;
            };
            self.run_at(order, place, mail)?;
            self.settle(order, mail)?;
        }
        Ok(())
    }
}
