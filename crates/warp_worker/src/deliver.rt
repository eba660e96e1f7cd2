//! Messages come to processes.
ghost use Rattle.std.specs.Prelude.{◌≡◌, ℕ, ◌+◌, ◌≤◌, List, [], ◌∷◌, suc, length, OnOk};
ghost use Rattle.warp_base.specs.Messages.{event_of};
ghost use Rattle.warp_base.specs.Histories.{Behaviour};
ghost use Rattle.warp_worker.specs.Workers.{Cell, worker_face, IsWorker, IsArrival, IsDeparture};
ghost use Rattle.warp_worker.specs.Moves.{Moves, IsMidway, KeepsPending, all_sent_since};

use crate::order::Order;
use crate::worker::Worker;
use std::alloc::AllocError;
use warp_base::laws::nothing_is_sent_beyond;
use warp_base::{Message, Payload, Simulation};
use warp_process::laws::sent_is_kept;
use warp_process::{StateSaver, TakeError};

impl<P: Payload, K: StateSaver> Worker<P, K> {
    /// Hands a message to the process that it is for; what that takes back goes to the mail.
    fn hand_to<M: Simulation<Payload = P, State = K::State>>(
        &mut self,
        order: &Order<'_, M>,
        message: Message<P>,
        mail: &mut Vec<Message<P>>,
    ) -> Result<(), AllocError>
        requires worker { (cells : List (Cell P K.State)) × IsWorker P.words (M.behaviour order.now.model.now) cells (worker_face K.state K.copies self.old) }
        requires midway { IsMidway order.now.bound order.now.end (M.processes order.now.model.now) (worker_face K.state K.copies self.old) mail.old.items }
        requires arrival { IsArrival order.now.bound (worker_face K.state K.copies self.old) message }
        ensures moved { OnOk result (Moves P.words (M.behaviour order.now.model.now) (worker_face K.state K.copies self.old) (message ∷ mail.old.items)
            (worker_face K.state K.copies self.new) mail.new.items) }
        ensures midway { OnOk result (IsMidway order.now.bound order.now.end (M.processes order.now.model.now) (worker_face K.state K.copies self.new) mail.new.items) }
        ensures pending { OnOk result (KeepsPending (event_of message).time (worker_face K.state K.copies self.old) (worker_face K.state K.copies self.new)) }
        ensures sent { OnOk result (length mail.new.items + all_sent_since (worker_face K.state K.copies self.new)
            ≡ length mail.old.items + all_sent_since (worker_face K.state K.copies self.old)) }
        ensures count { length self.new.processes.items ≡ length self.old.processes.items }
        ensures rest { self.new ≡ record self.old { processes = self.new.processes } }
    {
        sent_is_kept::<P, K::State>();
        nothing_is_sent_beyond::<P, K::State>();
        let place = (message.event().receiver - self.first) as usize;
        match self.processes[place].take(message, mail) {
            Ok(()) => Ok(()),
            Err(TakeError::Memory) => Err(AllocError),
            Err(TakeError::Committed) => unreachable!(),
        }
    }

    /// How many events the process at a place has run that stand.
    fn date_at(&self, place: usize) -> u64
        requires worker { (b : Behaviour P K.State) × (cells : List (Cell P K.State)) × IsWorker P.words b cells (worker_face K.state K.copies self.now) }
    {
        match self.processes.get(place) {
            Some(process) => process.date(),
            None => 0,
        }
    }

    /// Delivers a message to the process that it is for, and notes what that undid and is to run next.
    fn deliver<M: Simulation<Payload = P, State = K::State>>(
        &mut self,
        order: &Order<'_, M>,
        message: Message<P>,
        mail: &mut Vec<Message<P>>,
    ) -> Result<(), AllocError>
        requires worker { (cells : List (Cell P K.State)) × IsWorker P.words (M.behaviour order.now.model.now) cells (worker_face K.state K.copies self.old) }
        requires midway { IsMidway order.now.bound order.now.end (M.processes order.now.model.now) (worker_face K.state K.copies self.old) mail.old.items }
        requires arrival { IsArrival order.now.bound (worker_face K.state K.copies self.old) message }
        ensures moved { OnOk result (Moves P.words (M.behaviour order.now.model.now) (worker_face K.state K.copies self.old) (message ∷ mail.old.items)
            (worker_face K.state K.copies self.new) mail.new.items) }
        ensures midway { OnOk result (IsMidway order.now.bound order.now.end (M.processes order.now.model.now) (worker_face K.state K.copies self.new) mail.new.items) }
        ensures pending { OnOk result (KeepsPending (event_of message).time (worker_face K.state K.copies self.old) (worker_face K.state K.copies self.new)) }
        ensures sent { OnOk result (length mail.new.items + all_sent_since (worker_face K.state K.copies self.new)
            ≡ length mail.old.items + all_sent_since (worker_face K.state K.copies self.old)) }
        ensures count { length self.new.processes.items ≡ length self.old.processes.items }
        ensures rest { self.new ≡ record self.old { processes = self.new.processes; queue = self.new.queue; counts = self.new.counts } }
    {
        let place = (message.event().receiver - self.first) as usize;
        let before = self.date_at(place);
        self.hand_to(order, message, mail)?;
        let undone = before.saturating_sub(self.date_at(place));
        self.counts.undo(undone);
        self.note_next(place);
        Ok(())
    }

    /// Delivers the inbox.
    pub(crate) fn take_inbox<M: Simulation<Payload = P, State = K::State>>(
        &mut self,
        order: &Order<'_, M>,
        mail: &mut Vec<Message<P>>,
    ) -> Result<(), AllocError>
        requires worker { (cells : List (Cell P K.State)) × IsWorker P.words (M.behaviour order.now.model.now) cells (worker_face K.state K.copies self.old) }
        requires midway { IsMidway order.now.bound order.now.end (M.processes order.now.model.now) (worker_face K.state K.copies self.old) mail.old.items }
        ensures moved { OnOk result (Moves P.words (M.behaviour order.now.model.now) (worker_face K.state K.copies self.old) mail.old.items
            (worker_face K.state K.copies self.new) mail.new.items) }
        ensures midway { OnOk result (IsMidway order.now.bound order.now.end (M.processes order.now.model.now) (worker_face K.state K.copies self.new) mail.new.items) }
        ensures pending { OnOk result (KeepsPending order.now.bound (worker_face K.state K.copies self.old) (worker_face K.state K.copies self.new)) }
        ensures empty { OnOk result (self.new.inbox.items ≡ []) }
        ensures count { length self.new.processes.items ≡ length self.old.processes.items }
        ensures rest { self.new ≡ record self.old { processes = self.new.processes; inbox = self.new.inbox; queue = self.new.queue; counts = self.new.counts } }
    {
        while let Some(message) = self.inbox.pop() {
            self.deliver(order, message, mail)?;
        }
        Ok(())
    }

    /// Delivers a message to one of the worker's own processes, or puts it into the outbox.
    fn route<M: Simulation<Payload = P, State = K::State>>(
        &mut self,
        order: &Order<'_, M>,
        message: Message<P>,
        mail: &mut Vec<Message<P>>,
    ) -> Result<(), AllocError>
        requires worker { (cells : List (Cell P K.State)) × IsWorker P.words (M.behaviour order.now.model.now) cells (worker_face K.state K.copies self.old) }
        requires midway { IsMidway order.now.bound order.now.end (M.processes order.now.model.now) (worker_face K.state K.copies self.old) mail.old.items }
        requires departure { IsDeparture order.now.bound (M.processes order.now.model.now) message }
        ensures moved { OnOk result (Moves P.words (M.behaviour order.now.model.now) (worker_face K.state K.copies self.old) (message ∷ mail.old.items)
            (worker_face K.state K.copies self.new) mail.new.items) }
        ensures midway { OnOk result (IsMidway order.now.bound order.now.end (M.processes order.now.model.now) (worker_face K.state K.copies self.new) mail.new.items) }
        ensures pending { OnOk result (KeepsPending (suc order.now.bound) (worker_face K.state K.copies self.old) (worker_face K.state K.copies self.new)) }
        ensures sent { OnOk result (length mail.new.items + all_sent_since (worker_face K.state K.copies self.new)
            ≡ length mail.old.items + all_sent_since (worker_face K.state K.copies self.old)) }
        ensures count { length self.new.processes.items ≡ length self.old.processes.items }
        ensures rest { self.new ≡ record self.old { processes = self.new.processes; outbox = self.new.outbox; queue = self.new.queue; counts = self.new.counts } }
    {
        if self.owns(message.event().receiver) {
            self.deliver(order, message, mail)?;
            return Ok(());
        }
        self.outbox.push(message)?;
        Ok(())
    }

    /// Delivers all mail that is for the worker's own processes, and what that takes back; the rest
    /// goes to the outbox.
    pub(crate) fn settle<M: Simulation<Payload = P, State = K::State>>(
        &mut self,
        order: &Order<'_, M>,
        mail: &mut Vec<Message<P>>,
    ) -> Result<(), AllocError>
        requires worker { (cells : List (Cell P K.State)) × IsWorker P.words (M.behaviour order.now.model.now) cells (worker_face K.state K.copies self.old) }
        requires midway { IsMidway order.now.bound order.now.end (M.processes order.now.model.now) (worker_face K.state K.copies self.old) mail.old.items }
        ensures moved { OnOk result (Moves P.words (M.behaviour order.now.model.now) (worker_face K.state K.copies self.old) mail.old.items
            (worker_face K.state K.copies self.new) mail.new.items) }
        ensures midway { OnOk result (IsMidway order.now.bound order.now.end (M.processes order.now.model.now) (worker_face K.state K.copies self.new) mail.new.items) }
        ensures pending { OnOk result (KeepsPending (suc order.now.bound) (worker_face K.state K.copies self.old) (worker_face K.state K.copies self.new)) }
        ensures empty { OnOk result (mail.new.items ≡ []) }
        ensures count { length self.new.processes.items ≡ length self.old.processes.items }
        ensures rest { self.new ≡ record self.old { processes = self.new.processes; outbox = self.new.outbox; queue = self.new.queue; counts = self.new.counts } }
    {
        while let Some(message) = mail.pop() {
            self.route(order, message, mail)?;
        }
        Ok(())
    }
}
