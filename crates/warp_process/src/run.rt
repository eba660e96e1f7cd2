//! Running events.
ghost use Rattle.std.specs.Prelude.{◌≡◌, ℕ, ◌+◌, ◌^◌, ◌<◌, ◌≤◌, ◌↔◌, ◌⊎◌, ◌++◌, ◌∷◌, [], List, length, map, IsSome, take, false, OnOk, OnErr, IfOk, IfErr, Err, Some, slice_get, drop};
ghost use Rattle.warp_base.specs.declared.event.Event.{Event};
ghost use Rattle.warp_base.specs.Histories.{Behaviour, stamped, state_from};
ghost use Rattle.warp_base.specs.declared.event.Message.TheVariants as Variants;
ghost use Rattle.warp_process.specs.Processes.{face, IsProcess, IsSomeProcess, Stays, HasPosted, IsTooMany, fault_with};
ghost use Rattle.warp_process.specs.declared.run.RunError.TheVariants.{Memory, Counts};

use crate::posts::post;
use crate::process::Process;
use crate::saver::StateSaver;
use std::alloc::{AllocError, Global};
use warp_base::{Draft, Event, Message, Payload, Simulation};

/// Why the next event wasn't run. The process then stands as it did: the event is still to be run.
#[derive(Clone, Copy, Debug, PartialEq, Eq, Drop)]
pub enum RunError {
    /// Want of memory.
    Memory,
    /// The process would have run, or sent, 2^64 events since its start.
    Counts,
}

/// Runs events on a saver's state, without sending anything (coast forward).
fn replay<P: Payload, K: StateSaver, M: Simulation<Payload = P, State = K::State>>(
    alloc: Global,
    model: &M,
    number: u32,
    events: &[Event<P>],
    saver: &mut K,
) -> Result<(), AllocError>
    ensures state { OnOk result (K.state saver.new
        ≡ state_from (M.behaviour model.now) number (K.state saver.old) events.now) }
    ensures copies { K.copies saver.new ≡ K.copies saver.old }
{
    for event in events {
        let mut unsent = Vec::new(alloc);
        saver.run(alloc, model, number, event, &mut unsent)?;
    }
    Ok(())
}

impl From<AllocError> for RunError {
    ghost from_gives = { λ _ e. e ≡ Memory };

    fn from(_: AllocError) -> RunError {
        RunError::Memory
    }
}

impl<P: Payload, K: StateSaver> Process<P, K> {
    /// Brings a stale state forward: returns to the newest copy, and runs the events from there on
    /// once more.
    ///
    /// At AllocError the state is stale still.
    pub fn catch_up<M: Simulation<Payload = P, State = K::State>>(
        &mut self,
        alloc: Global,
        model: &M,
    ) -> Result<(), AllocError>
        requires process { (past : List (Event P)) × IsProcess P.words (M.behaviour model.now) past (face K.state K.copies self.old) }
        ensures kept { (past : List (Event P)) → IsProcess P.words (M.behaviour model.now) past (face K.state K.copies self.old)
            → IsProcess P.words (M.behaviour model.now) past (face K.state K.copies self.new) }
        ensures fresh { OnOk result (self.new.is_stale ≡ false) }
        ensures rest { self.new ≡ record self.old { saver = self.new.saver; is_stale = self.new.is_stale } }
    {
        if !self.is_stale {
            return Ok(());
        }
        let newest = self.saver.restore(alloc)?;
        let skipped = (newest - self.first_date) as usize;
        let committed = skipped.min(self.fossils.len());
        replay(
            alloc,
            model,
            self.number,
            &self.fossils[committed..],
            &mut self.saver,
        )?;
        let since = &self.events[skipped - committed..self.marks.len()];
        replay(alloc, model, self.number, since, &mut self.saver)?;
        self.is_stale = false;
        Ok(())
    }

    /// Takes a copy of the state, which isn't stale, where a period of events was run since the newest
    /// one.
    fn save_if_due(&mut self, alloc: Global) -> Result<(), AllocError>
        requires process { IsSomeProcess P.words (face K.state K.copies self.old) }
        requires fresh { self.old.is_stale ≡ false }
        ensures kept { Stays P.words (face K.state K.copies self.old) (face K.state K.copies self.new) }
        ensures rest { self.new ≡ record self.old { saver = self.new.saver } }
    {
        let date = self.date();
        let newest = self.saver.newest();
        if date - newest < self.period.max(1) {
            return Ok(());
        }
        self.saver.save(alloc, date)?;
        Ok(())
    }

    /// Makes the state ready for the next event: it isn't stale, and there is a copy that is not too
    /// old.
    fn make_ready<M: Simulation<Payload = P, State = K::State>>(
        &mut self,
        alloc: Global,
        model: &M,
    ) -> Result<(), AllocError>
        requires process { (past : List (Event P)) × IsProcess P.words (M.behaviour model.now) past (face K.state K.copies self.old) }
        ensures kept { (past : List (Event P)) → IsProcess P.words (M.behaviour model.now) past (face K.state K.copies self.old)
            → IsProcess P.words (M.behaviour model.now) past (face K.state K.copies self.new) }
        ensures fresh { OnOk result (self.new.is_stale ≡ false) }
        ensures rest { self.new ≡ record self.old { saver = self.new.saver; is_stale = self.new.is_stale } }
    {
        self.catch_up(alloc, model)?;
        self.save_if_due(alloc)
    }

    /// Counts an event as run, which sent these drafts: they go out as events. An error changes
    /// nothing.
    pub(crate) fn finish(
        &mut self,
        drafts: &[Draft<P>],
        out: &mut Vec<Message<P>>,
    ) -> Result<(), RunError>
        ensures marks { OnOk result (self.new.marks.items ≡ self.old.marks.items ++ self.old.serial ∷ []) }
        ensures sent { OnOk result (self.new.sent.items
            ≡ self.old.sent.items ++ stamped self.old.number self.old.serial drafts.now) }
        ensures serial { OnOk result (self.new.serial ≡ self.old.serial + length drafts.now) }
        ensures counted { OnOk result (self.old.first_date + length self.old.fossils.items
            + length self.old.marks.items + 1 < 2 ^ 64) }
        ensures out { OnOk result (out.new.items
            ≡ out.old.items ++ map Variants.Event (stamped self.old.number self.old.serial drafts.now)) }
        ensures rest { self.new ≡ record self.old { marks = self.new.marks; sent = self.new.sent; serial = self.new.serial } }
        ensures many { result ≡ Err Counts → (2 ^ 64 ≤ self.old.serial + length drafts.now)
            ⊎ (2 ^ 64 ≤ self.old.first_date + length self.old.fossils.items + length self.old.marks.items + 1) }
        ensures unposted { OnErr result (out.new.items ≡ out.old.items) }
        ensures unchanged { OnErr result (face K.state K.copies self.new ≡ face K.state K.copies self.old) }
    {
        let count = drafts.len();
        let Some(serial) = self.serial.checked_add(count as u64) else {
            return Err(RunError::Counts);
        };
        if self.date_after(self.marks.len()).is_none() {
            return Err(RunError::Counts);
        }
        self.marks.reserve(1)?;
        self.sent.reserve(count)?;
        out.reserve(count)?;
        self.marks.push_reserved(self.serial);
        post(self.number, self.serial, drafts, &mut self.sent, out);
        self.serial = serial;
        Ok(())
    }

    /// The date after this many events of those since the committed past, and one more, where it is
    /// below 2^64.
    fn date_after(&self, events: usize) -> Option<u64>
        ensures { IsSome result
            ↔ (self.now.first_date + length self.now.fossils.items + events + 1 < 2 ^ 64) }
    {
        let committed = self.first_date.checked_add(self.fossils.len() as u64)?;
        committed.checked_add(events as u64)?.checked_add(1)
    }

    /// Runs the next event; what it sends goes out. Before it a stale state is brought forward, and a
    /// copy is taken where a period of events was run since the newest one.
    ///
    /// An error leaves the process as it was but for its state, which may be stale, and its copies, and
    /// puts nothing out.
    pub fn run_next<M: Simulation<Payload = P, State = K::State>>(
        &mut self,
        alloc: Global,
        model: &M,
        out: &mut Vec<Message<P>>,
    ) -> Result<(), RunError>
        requires more { length self.old.marks.items < length self.old.events.items }
        requires process { (past : List (Event P)) × IsProcess P.words (M.behaviour model.now) past (face K.state K.copies self.old) }
        ensures kept { (past : List (Event P)) → IsProcess P.words (M.behaviour model.now) past (face K.state K.copies self.old)
            → IsProcess P.words (M.behaviour model.now) past (face K.state K.copies self.new) }
        ensures ran { OnOk result (length self.new.marks.items ≡ length self.old.marks.items + 1) }
        ensures many { (past : List (Event P)) (event : Event P) → IsProcess P.words (M.behaviour model.now) past (face K.state K.copies self.old)
            → slice_get self.old.events.items (length self.old.marks.items) ≡ Some event → result ≡ Err Counts
            → IsTooMany (M.behaviour model.now) past (face K.state K.copies self.old) event }
        ensures not_ran { OnErr result (self.new.marks.items ≡ self.old.marks.items) }
        ensures posted { OnOk result ((event : Event P) → slice_get self.old.events.items (length self.old.marks.items) ≡ Some event
            → HasPosted P.words event.time self.old.sent.items self.new.sent.items out.old.items out.new.items) }
        ensures unposted { OnErr result (out.new.items ≡ out.old.items) }
        ensures events { self.new.events ≡ self.old.events }
        ensures early { self.new.early ≡ self.old.early }
        ensures last { self.new.last ≡ self.old.last }
        ensures number { self.new.number ≡ self.old.number }
    {
        self.make_ready(alloc, model)?;
        let event = self.events[self.marks.len()];
        let mut drafts = Vec::new(alloc);
        self.is_stale = true;
        self.saver
            .run(alloc, model, self.number, &event, &mut drafts)?;
        self.finish(&drafts, out)?;
        self.is_stale = false;
        self.note_fault(model);
        Ok(())
    }

    /// Notes the state, after all events that are run, as the first fault, where it is one and no
    /// earlier one is.
    fn note_fault<M: Simulation<Payload = P, State = K::State>>(&mut self, model: &M)
        requires counted { self.old.first_date + length self.old.fossils.items + length self.old.marks.items < 2 ^ 64 }
        ensures fault { self.new.fault ≡ fault_with self.old.fault ((M.behaviour model.now).faulty (K.state self.old.saver))
            (self.old.first_date + length self.old.fossils.items + length self.old.marks.items) }
        ensures rest { self.new ≡ record self.old { fault = self.new.fault } }
    {
        if self.fault.is_none() && model.is_faulty(self.saver.state()) {
            self.fault = Some(self.date());
        }
    }

    /// How many events are run, from the start on, the committed ones among them.
    pub fn date(&self) -> u64
        requires counted { self.now.first_date + length self.now.fossils.items + length self.now.marks.items < 2 ^ 64 }
        ensures { result ≡ self.now.first_date + length self.now.fossils.items + length self.now.marks.items }
    {
        self.first_date + self.fossils.len() as u64 + self.marks.len() as u64
    }
}
