//! A logical process.
ghost use Rattle.std.specs.Prelude.{◌≡◌, ℕ, ◌+◌, ◌-◌, ◌^◌, ◌<◌, ◌≤◌, ◌↔◌, ◌++◌, List, [], length, map, drop, min, suc, IsTrue, OnOk, OnErr, Err, IfOk, IfSome, None, Some, IfNone, IsNone, slice_get, option_copied};
ghost use Rattle.warp_base.specs.Events.{AreFrom};
ghost use Rattle.warp_base.specs.Messages.{event_of};
ghost use Rattle.warp_base.specs.Histories.{Behaviour, stamped};
ghost use Rattle.warp_base.specs.declared.event.Message.TheVariants as Variants;
ghost use Rattle.warp_process.specs.declared.process.TakeError.TheVariants.{Committed};
ghost use Rattle.warp_process.specs.Processes.{face, bound_of, IsProcess, IsSomeProcess, Stays, HasPosted, HasTaken, HasTakenBack, HasTakenMessage, HasFailed, UndoesFrom, KeepsFirst, fault_with};

use crate::places::{find_copy, find_place, is_at};
use crate::posts::{post, take_back};
use crate::saver::StateSaver;
use std::alloc::{AllocError, Global};
use warp_base::{Draft, Event, Message, Payload};

/// A logical process: the events that it has taken, in order, of which the first are run, and what
/// these sent.
#[derive(Drop)]
pub struct Process<P, K> {
    pub(crate) number: u32,
    /// The last committed time.
    pub(crate) last: Option<u64>,
    /// Since the committed past.
    pub(crate) events: Vec<Event<P>>,
    /// For each event that is run, how many had been sent before it.
    pub(crate) marks: Vec<u64>,
    /// What the events that are run sent.
    pub(crate) sent: Vec<Event<P>>,
    /// How many events were sent, from the start on.
    pub(crate) serial: u64,
    /// Anti-messages whose event hasn't come.
    pub(crate) early: Vec<Event<P>>,
    /// How many events were run before the first of `fossils`.
    pub(crate) first_date: u64,
    /// The last committed events, which a replay from the oldest copy runs again.
    pub(crate) fossils: Vec<Event<P>>,
    /// Whether `saver` has another state than that after the events that are run.
    pub(crate) is_stale: bool,
    pub(crate) saver: K,
    /// After how many events a copy of the state is taken.
    pub(crate) period: u64,
    /// The date of the first state that is a fault of the model's own, of those up to the current
    /// one.
    pub(crate) fault: Option<u64>,
}

/// Why a message isn't taken. Nothing is changed then.
#[derive(Clone, Copy, Debug, PartialEq, Eq, Drop)]
pub enum TakeError {
    /// Want of memory.
    Memory,
    /// The message's event is at or before the last committed time.
    Committed,
}

/// The date of the first fault, where nothing is run.
fn start_fault(is_faulty: bool) -> Option<u64>
    ensures { result ≡ fault_with None is_faulty 0 }
{
    if is_faulty { Some(0) } else { None }
}

/// The date of a fault, unless it is later than another date.
fn fault_until(fault: Option<u64>, date: u64) -> Option<u64>
    ensures kept { IfSome result (λ first. (fault ≡ Some first) × (first ≤ date)) }
    ensures gone { IfNone result (IfSome fault (λ first. date < first)) }
{
    match fault {
        Some(first) if first <= date => fault,
        _ => None,
    }
}

impl<P: Payload, K: StateSaver> Process<P, K> {
    /// A process that has run nothing, over the state in which its model starts it. The events of
    /// these drafts, which the model sends at the start, go out: they are never taken back.
    ///
    /// A copy of the state is taken after each `period` events that are run; 0 counts as 1.
    /// `is_faulty` says whether the state is a fault of the model's own.
    ///
    /// At an error nothing goes out.
    pub fn open(
        alloc: Global,
        number: u32,
        period: u64,
        saver: K,
        is_faulty: bool,
        drafts: &[Draft<P>],
        out: &mut Vec<Message<P>>,
    ) -> Result<Process<P, K>, AllocError>
        requires { K.copies saver ≡ [] }
        ensures process { IfOk result (λ p. (b : Behaviour P K.State) → K.state saver ≡ b.start number
            → drafts.now ≡ b.firsts number → is_faulty ≡ b.faulty (b.start number)
            → IsProcess P.words b [] (face K.state K.copies p)) }
        ensures number { IfOk result (λ p. p.number ≡ number) }
        ensures last { IfOk result (λ p. p.last ≡ None) }
        ensures events { IfOk result (λ p. p.events.items ≡ []) }
        ensures early { IfOk result (λ p. p.early.items ≡ []) }
        ensures out { OnOk result (out.new.items
            ≡ out.old.items ++ map Variants.Event (stamped number 0 drafts.now)) }
        ensures unposted { OnErr result (out.new.items ≡ out.old.items) }
    {
        let mut saver = saver;
        saver.save(alloc, 0)?;
        let mut firsts = Vec::new(alloc);
        firsts.reserve(drafts.len())?;
        out.reserve(drafts.len())?;
        post(number, 0, drafts, &mut firsts, out);
        Ok(Process {
            number,
            last: None,
            events: Vec::new(alloc),
            marks: Vec::new(alloc),
            sent: Vec::new(alloc),
            serial: drafts.len() as u64,
            early: Vec::new(alloc),
            first_date: 0,
            fossils: Vec::new(alloc),
            is_stale: false,
            saver,
            period,
            fault: start_fault(is_faulty),
        })
    }

    /// The process's number.
    pub fn number(&self) -> u32
        ensures { result ≡ self.now.number }
    {
        self.number
    }

    /// The first event that is still to be run.
    pub fn next_event(&self) -> Option<&Event<P>>
        ensures { option_copied result ≡ slice_get self.now.events.items (length self.now.marks.items) }
    {
        self.events.get(self.marks.len())
    }

    /// The last event that is run, of those since the committed past.
    pub fn last_event(&self) -> Option<&Event<P>>
        ensures some { 0 < length self.now.marks.items
            → option_copied result ≡ slice_get self.now.events.items (length self.now.marks.items - 1) }
        ensures none { self.now.marks.items ≡ [] → IsNone result }
    {
        let place = self.marks.len().checked_sub(1)?;
        self.events.get(place)
    }

    /// Whether the state is another than that after the events that are run. It is brought forward
    /// before the next event is run, or by a call of `catch_up`.
    pub fn is_stale(&self) -> bool
        ensures { result ≡ self.now.is_stale }
    {
        self.is_stale
    }

    /// The current state.
    pub fn state(&self) -> &K::State
        ensures { result.now ≡ K.state self.now.saver }
    {
        self.saver.state()
    }

    /// Gives the current state away.
    pub fn into_state(self) -> K::State
        ensures { result ≡ K.state self.saver }
    {
        self.saver.into_state()
    }

    /// The date of the first state that is a fault of the model's own, of those after no, one, and all
    /// events that are run.
    pub fn fault(&self) -> Option<u64>
        ensures { result ≡ self.now.fault }
    {
        self.fault
    }

    /// Whether the model has failed in what is committed: the start, or a state after committed
    /// events, is a fault of its own.
    pub fn has_failed(&self) -> bool
        requires process { IsSomeProcess P.words (face K.state K.copies self.now) }
        ensures { IsTrue result ↔ HasFailed (face K.state K.copies self.now) }
    {
        match self.fault {
            Some(date) => date <= self.first_date + self.fossils.len() as u64,
            None => false,
        }
    }

    /// Whether a time is committed: what comes for it is refused.
    pub fn is_committed(&self, time: u64) -> bool
        ensures { IsTrue result ↔ (time < bound_of self.now.last) }
    {
        match self.last {
            Some(last) => time <= last,
            None => false,
        }
    }

    /// Whether no later time is committed: a commit up to this one goes forward.
    pub fn is_forward(&self, last: u64) -> bool
        ensures { IsTrue result ↔ (bound_of self.now.last ≤ suc last) }
    {
        match self.last {
            Some(committed) => committed <= last,
            None => true,
        }
    }

    /// Undoes all events that are run but the first `keep`: they are to be run again, and what
    /// they sent is taken back (aggressive cancellation).
    fn roll_back(&mut self, keep: usize, out: &mut Vec<Message<P>>) -> Result<(), AllocError>
        requires process { IsSomeProcess P.words (face K.state K.copies self.old) }
        ensures kept { Stays P.words (face K.state K.copies self.old) (face K.state K.copies self.new) }
        ensures posted { OnOk result ((time : ℕ) → AreFrom time (drop keep self.old.events.items)
            → HasPosted P.words time self.old.sent.items self.new.sent.items out.old.items out.new.items) }
        ensures unposted { OnErr result (out.new.items ≡ out.old.items) }
        ensures sent { OnOk result (length out.new.items + length self.new.sent.items ≡ length out.old.items + length self.old.sent.items) }
        ensures undone { OnOk result (length self.new.marks.items ≡ min keep (length self.old.marks.items)) }
        ensures keeps { OnOk result (KeepsFirst (face K.state K.copies self.old) (face K.state K.copies self.new)) }
        ensures unchanged { OnErr result (face K.state K.copies self.new ≡ face K.state K.copies self.old) }
        ensures events { self.new.events ≡ self.old.events }
        ensures early { self.new.early ≡ self.old.early }
        ensures last { self.new.last ≡ self.old.last }
        ensures number { self.new.number ≡ self.old.number }
    {
        if self.marks.len() <= keep {
            return Ok(());
        }
        let serial = self.marks[keep];
        let undone = (self.serial - serial) as usize;
        out.reserve(undone)?;
        let first = self.sent.len() - undone;
        take_back(&mut self.sent, first, out);
        self.serial = serial;
        self.marks.truncate(keep);
        let date = self.first_date + self.fossils.len() as u64 + keep as u64;
        self.saver.forget(date);
        self.fault = fault_until(self.fault, date);
        self.is_stale = true;
        Ok(())
    }

    /// Takes an event: it is put in its place, and what was run from there on is undone; or, where
    /// its anti-message came first, both are gone.
    fn take_event(&mut self, event: Event<P>, out: &mut Vec<Message<P>>) -> Result<(), AllocError>
        requires process { IsSomeProcess P.words (face K.state K.copies self.old) }
        requires own { event.receiver ≡ self.old.number }
        requires late { bound_of self.old.last ≤ event.time }
        ensures kept { Stays P.words (face K.state K.copies self.old) (face K.state K.copies self.new) }
        ensures taken { OnOk result (HasTaken P.words event (face K.state K.copies self.old) (face K.state K.copies self.new)) }
        ensures sent { OnOk result (length out.new.items + length self.new.sent.items ≡ length out.old.items + length self.old.sent.items) }
        ensures undone { OnOk result (UndoesFrom event.time (face K.state K.copies self.old) (face K.state K.copies self.new)) }
        ensures keeps { OnOk result (KeepsFirst (face K.state K.copies self.old) (face K.state K.copies self.new)) }
        ensures posted { OnOk result (HasPosted P.words event.time self.old.sent.items self.new.sent.items out.old.items out.new.items) }
        ensures unposted { OnErr result (out.new.items ≡ out.old.items) }
        ensures unchanged { OnErr result (face K.state K.copies self.new ≡ face K.state K.copies self.old) }
        ensures last { self.new.last ≡ self.old.last }
        ensures number { self.new.number ≡ self.old.number }
    {
        if let Some(place) = find_copy(&self.early, &event) {
            self.early.remove(place);
            return Ok(());
        }
        let place = find_place(&self.events, &event);
        self.events.reserve(1)?;
        self.roll_back(place, out)?;
        match self.events.insert(place, event) {
            Ok(()) => Ok(()),
            Err(_) => unreachable!(),
        }
    }

    /// Takes an anti-message: its event is gone, and what was run from its place on is undone; or,
    /// where the event hasn't come, the anti-message waits for it.
    fn take_anti(&mut self, event: Event<P>, out: &mut Vec<Message<P>>) -> Result<(), AllocError>
        requires process { IsSomeProcess P.words (face K.state K.copies self.old) }
        requires own { event.receiver ≡ self.old.number }
        requires late { bound_of self.old.last ≤ event.time }
        ensures kept { Stays P.words (face K.state K.copies self.old) (face K.state K.copies self.new) }
        ensures taken { OnOk result (HasTakenBack P.words event (face K.state K.copies self.old) (face K.state K.copies self.new)) }
        ensures sent { OnOk result (length out.new.items + length self.new.sent.items ≡ length out.old.items + length self.old.sent.items) }
        ensures undone { OnOk result (UndoesFrom event.time (face K.state K.copies self.old) (face K.state K.copies self.new)) }
        ensures keeps { OnOk result (KeepsFirst (face K.state K.copies self.old) (face K.state K.copies self.new)) }
        ensures posted { OnOk result (HasPosted P.words event.time self.old.sent.items self.new.sent.items out.old.items out.new.items) }
        ensures unposted { OnErr result (out.new.items ≡ out.old.items) }
        ensures unchanged { OnErr result (face K.state K.copies self.new ≡ face K.state K.copies self.old) }
        ensures last { self.new.last ≡ self.old.last }
        ensures number { self.new.number ≡ self.old.number }
    {
        let place = find_place(&self.events, &event);
        if !is_at(&self.events, place, &event) {
            self.early.push(event)?;
            return Ok(());
        }
        self.roll_back(place, out)?;
        self.events.remove(place);
        Ok(())
    }

    /// Takes a message. An event goes to its place, and what was run from there on is undone; an
    /// anti-message takes its event away again, whichever of the two comes first.
    ///
    /// An error leaves the process as it was, and puts nothing out.
    pub fn take(&mut self, message: Message<P>, out: &mut Vec<Message<P>>) -> Result<(), TakeError>
        requires process { IsSomeProcess P.words (face K.state K.copies self.old) }
        requires own { (event_of message).receiver ≡ self.old.number }
        ensures kept { Stays P.words (face K.state K.copies self.old) (face K.state K.copies self.new) }
        ensures taken { OnOk result (HasTakenMessage P.words message (face K.state K.copies self.old) (face K.state K.copies self.new)) }
        ensures sent { OnOk result (length out.new.items + length self.new.sent.items ≡ length out.old.items + length self.old.sent.items) }
        ensures undone { OnOk result (UndoesFrom (event_of message).time (face K.state K.copies self.old) (face K.state K.copies self.new)) }
        ensures keeps { OnOk result (KeepsFirst (face K.state K.copies self.old) (face K.state K.copies self.new)) }
        ensures posted { OnOk result (HasPosted P.words (event_of message).time self.old.sent.items self.new.sent.items out.old.items out.new.items) }
        ensures committed { (result ≡ Err Committed) ↔ ((event_of message).time < bound_of self.old.last) }
        ensures unposted { OnErr result (out.new.items ≡ out.old.items) }
        ensures unchanged { OnErr result (face K.state K.copies self.new ≡ face K.state K.copies self.old) }
        ensures last { self.new.last ≡ self.old.last }
        ensures number { self.new.number ≡ self.old.number }
    {
        if self.is_committed(message.event().time) {
            return Err(TakeError::Committed);
        }
        let taken = match message {
            Message::Event(event) => self.take_event(event, out),
            Message::Anti(event) => self.take_anti(event, out),
        };
        match taken {
            Ok(()) => Ok(()),
            Err(AllocError) => Err(TakeError::Memory),
        }
    }
}
