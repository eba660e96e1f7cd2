//! Handing events out.
ghost use Rattle.std.specs.Prelude.{◌≡◌, ℕ, ◌<◌, ◌≤◌, ◌↔◌, Bool, true, false, Some, [], ◌∷◌, ◌++◌, List, ◌⊎◌, OnOk, OnErr, IfOk, IfErr, IfSome, IfNone, IsSome, None, Err, slice_get, length, ◌+◌, ◌^◌};
ghost use Rattle.dym_base.specs.Heaps.{Live};
ghost use Rattle.dym_base.specs.Objects as Objects;
ghost use Rattle.dym_base.specs.declared.limits.TheConstants.{COUNT_LIMIT};
ghost use Rattle.dym_base.specs.declared.reply.Reply.TheVariants as reply;
ghost use Rattle.dym_undo_object.specs.Meaning.{UndoObjectMeaning, state_of};
ghost use Rattle.warp_base.specs.declared.event.Event.{Event};
ghost use Rattle.warp_base.specs.Histories.{Behaviour};
ghost use Rattle.warp_process.specs.Processes.{HasPosted};
ghost use Rattle.warp_object.specs.declared.steps.BeginError.TheVariants as beginning;

use crate::moment::Moment;
use crate::object_process::ObjectProcess;
use dym_base::Refusal;
use dym_base::limits::COUNT_LIMIT;
use dym_quota::FixedSupply;
use dym_undo::LogError;
use dym_undo_object::UndoObject;
use std::alloc::AllocError;
use warp_base::{Draft, Event, Message, Payload};
use warp_process::RunError;

/// An event that is to be run on the object.
#[derive(Clone, Copy, Debug)]
pub struct HandedOut<P> {
    pub event: Event<P>,
    /// Whether it was run before: what it sends was sent then, and is dropped.
    pub is_replayed: bool,
}

/// Why no event is handed out. The process then stands as it did, and the object may be brought to
/// another of its logs.
#[derive(Clone, Copy, Debug, PartialEq, Eq, Drop)]
pub enum BeginError {
    /// An event is handed out.
    Open,
    /// Want of memory.
    Memory,
    /// The object has run as many commands as it may.
    Spent,
    /// The object's logs aren't those of the process.
    Astray,
}

/// Why an event isn't sent. Nothing is changed then.
#[derive(Clone, Copy, Debug, PartialEq, Eq, Drop)]
pub enum SendError {
    /// No event is handed out.
    Idle,
    /// It isn't later than the event that sends it.
    NotLater,
    /// It is for no process.
    NoProcess,
    /// Want of memory.
    Memory,
}

/// Why an event isn't ended. Nothing is changed then.
#[derive(Clone, Copy, Debug, PartialEq, Eq, Drop)]
pub enum EndError {
    /// No event is handed out.
    Idle,
    /// Want of memory.
    Memory,
    /// The process would have run, or sent, 2^64 events since its start.
    Counts,
}

impl From<AllocError> for BeginError {
    ghost use Rattle.warp_object.specs.declared.steps.BeginError.TheVariants.{Memory};

    ghost from_gives = { λ _ e. e ≡ Memory };

    fn from(_: AllocError) -> BeginError {
        BeginError::Memory
    }
}

impl From<AllocError> for SendError {
    ghost use Rattle.warp_object.specs.declared.steps.SendError.TheVariants.{Memory};

    ghost from_gives = { λ _ e. e ≡ Memory };

    fn from(_: AllocError) -> SendError {
        SendError::Memory
    }
}

impl From<RunError> for EndError {
    ghost use Rattle.warp_process.specs.declared.run.RunError.TheVariants.{Counts};
    ghost use Rattle.warp_object.specs.declared.steps.EndError.TheVariants as ending;

    ghost from_gives = { λ why e. (e ≡ ending.Memory) ⊎ ((e ≡ ending.Counts) × (why ≡ Counts)) };

    fn from(why: RunError) -> EndError {
        match why {
            RunError::Memory => EndError::Memory,
            RunError::Counts => EndError::Counts,
        }
    }
}

impl<P: Payload> ObjectProcess<P> {
    ghost use Rattle.warp_object.specs.Processes.{inner, date_of, event_after, IsProcessOf, IsRecorded, IsHandedOut};
    ghost use Rattle.warp_object.specs.declared.steps.SendError.TheVariants as sending;
    ghost use Rattle.warp_object.specs.declared.steps.EndError.TheVariants as ending;

    /// Hands an event out, which is to be run on the object: the next one, or, where the object was
    /// brought back to a log, one that was run before. None where nothing is to be run: then the
    /// object is what the events that are run made of it.
    pub fn begin(
        &mut self,
        object: &mut UndoObject<FixedSupply>,
    ) -> Result<Option<HandedOut<P>>, BeginError>
        requires recorded { IsRecorded P.words self.old }
        ensures recorded { IsRecorded P.words self.new }
        ensures kept { (b : Behaviour P Live) (past : List (Event P)) → IsProcessOf P.words b past object.old self.old
            → IsProcessOf P.words b past object.new self.new }
        ensures handed_out { IfOk result (λ answer. IfSome answer (λ given. (self.new.is_open ≡ true)
            × IsHandedOut self.new given.event given.is_replayed × (self.new.drafts.items ≡ []))) }
        ensures none { IfOk result (λ answer. IfNone answer ((self.new.reached ≡ Some (date_of (inner self.new)))
            × (slice_get self.new.process.events.items (length self.new.process.marks.items) ≡ None) × (self.new.is_open ≡ false))) }
        ensures reached { (r : ℕ) → self.old.reached ≡ Some r → self.new.reached ≡ Some r }
        ensures open { (result ≡ Err beginning.Open) ↔ (self.old.is_open ≡ true) }
        ensures spent { result ≡ Err beginning.Spent → COUNT_LIMIT ≤ object.new.ran }
        ensures astray { (b : Behaviour P Live) (past : List (Event P)) → IsProcessOf P.words b past object.old self.old
            → result ≡ Err beginning.Astray → ⊥ }
        ensures rest { inner self.new ≡ record (inner self.old) { copies = (inner self.new).copies } }
        ensures unchanged { OnErr result ((self.new.is_open ≡ self.old.is_open) × (self.new.drafts ≡ self.old.drafts)) }
    {
        if self.is_open {
            return Err(BeginError::Open);
        }
        let reached = self.reach(object)?;
        let is_replayed = reached != self.process.date();
        let Some(event) = self.process.event_at(reached) else {
            return Ok(None);
        };
        self.log_if_due(object)?;
        self.is_open = true;
        self.drafts.clear();
        Ok(Some(HandedOut { event, is_replayed }))
    }

    /// Brings the object to events that stand: to its newest log, where it is behind them. The answer
    /// is after how many events it is what it is.
    pub(crate) fn reach(&mut self, object: &mut UndoObject<FixedSupply>) -> Result<u64, BeginError>
        requires recorded { IsRecorded P.words self.old }
        ensures recorded { IsRecorded P.words self.new }
        ensures kept { (b : Behaviour P Live) (past : List (Event P)) → IsProcessOf P.words b past object.old self.old
            → IsProcessOf P.words b past object.new self.new }
        ensures reached { IfOk result (λ reached. self.new.reached ≡ Some reached) }
        ensures stays { (r : ℕ) → self.old.reached ≡ Some r → self.new.reached ≡ Some r }
        ensures spent { result ≡ Err beginning.Spent → COUNT_LIMIT ≤ object.new.ran }
        ensures astray { (b : Behaviour P Live) (past : List (Event P)) → IsProcessOf P.words b past object.old self.old
            → result ≡ Err beginning.Astray → ⊥ }
        ensures not_open { result ≡ Err beginning.Open → ⊥ }
        ensures rest { self.new ≡ record self.old { reached = self.new.reached } }
    {
        match self.reached {
            Some(reached) => Ok(reached),
            None => {
                let newest = self.process.newest_copy();
                restore(object, newest)?;
                self.reached = Some(newest);
                Ok(newest)
            }
        }
    }

    /// Takes a log of the object where it is what all events that are run made of it, and a period of
    /// them was run since the newest one. Where as many logs are kept as may be, the process goes on
    /// without.
    fn log_if_due(&mut self, object: &mut UndoObject<FixedSupply>) -> Result<(), BeginError>
        requires recorded { IsRecorded P.words self.old }
        requires closed { self.old.is_open ≡ false }
        ensures recorded { IsRecorded P.words self.new }
        ensures kept { (b : Behaviour P Live) (past : List (Event P)) → IsProcessOf P.words b past object.old self.old
            → IsProcessOf P.words b past object.new self.new }
        ensures astray { (b : Behaviour P Live) (past : List (Event P)) → IsProcessOf P.words b past object.old self.old
            → result ≡ Err beginning.Astray → ⊥ }
        ensures not_open { result ≡ Err beginning.Open → ⊥ }
        ensures spent { result ≡ Err beginning.Spent → COUNT_LIMIT ≤ object.new.ran }
        ensures rest { inner self.new ≡ record (inner self.old) { copies = (inner self.new).copies } }
        ensures others { self.new ≡ record self.old { process = self.new.process } }
    {
        if self.process.is_stale() {
            return Ok(());
        }
        let date = self.process.date();
        let behind = date - self.process.newest_copy();
        if behind < self.period.max(1) {
            return Ok(());
        }
        if object.ran() >= COUNT_LIMIT {
            return Err(BeginError::Spent);
        }
        self.process.keep_copy()?;
        match object.ilog(date) {
            Ok(_) => Ok(()),
            Err(why) => {
                self.process.drop_copy();
                match why {
                    LogError::Memory => Err(BeginError::Memory),
                    LogError::Refused(refusal) => match refusal {
                        Refusal::LogsFull => Ok(()),
                        _ => Err(BeginError::Astray),
                    },
                }
            }
        }
    }

    /// Sends an event, at a later time, by the event that is handed out. Where that one was run before,
    /// what it sends was sent then.
    pub fn send(&mut self, draft: Draft<P>) -> Result<(), SendError>
        requires recorded { IsRecorded P.words self.old }
        ensures recorded { IsRecorded P.words self.new }
        ensures sent { OnOk result (self.old.reached ≡ Some (date_of (inner self.old))
            → self.new.drafts.items ≡ self.old.drafts.items ++ draft ∷ []) }
        ensures dropped { (event : Event P) → IsHandedOut self.old event true → self.new.drafts.items ≡ self.old.drafts.items }
        ensures idle { (result ≡ Err sending.Idle) ↔ (self.old.is_open ≡ false) }
        ensures later { (event : Event P) (is_replayed : Bool) → self.old.is_open ≡ true → IsHandedOut self.old event is_replayed
            → (result ≡ Err sending.NotLater) ↔ (draft.time ≤ event.time) }
        ensures no_process { result ≡ Err sending.NoProcess → self.old.processes ≤ draft.receiver }
        ensures unchanged { OnErr result (self.new.drafts.items ≡ self.old.drafts.items) }
        ensures rest { self.new ≡ record self.old { drafts = self.new.drafts } }
    {
        let Some(event) = self.handed_out() else {
            return Err(SendError::Idle);
        };
        if draft.time <= event.time {
            return Err(SendError::NotLater);
        }
        if draft.receiver >= self.processes {
            return Err(SendError::NoProcess);
        }
        if self.reached == Some(self.process.date()) {
            self.drafts.reserve(1)?;
            self.drafts.push_reserved(draft);
        }
        Ok(())
    }

    /// The event that is handed out.
    fn handed_out(&self) -> Option<Event<P>>
        requires recorded { IsRecorded P.words self.now }
        ensures open { IsSome result ↔ (self.now.is_open ≡ true) }
        ensures event { IfSome result (λ event. (is_replayed : Bool) × IsHandedOut self.now event is_replayed) }
    {
        if !self.is_open {
            return None;
        }
        self.process.event_at(self.reached?)
    }

    /// Ends the event that is handed out: the object is what it made of it. What it sent goes out.
    pub fn end(
        &mut self,
        object: &UndoObject<FixedSupply>,
        out: &mut Vec<Message<P>>,
    ) -> Result<(), EndError>
        requires recorded { IsRecorded P.words self.old }
        ensures recorded { IsRecorded P.words self.new }
        ensures kept { OnOk result ((b : Behaviour P Live) (past : List (Event P)) (begun : UndoObjectMeaning) (event : Event P)
            (is_replayed : Bool) → IsProcessOf P.words b past begun self.old → IsHandedOut self.old event is_replayed
            → object.now.logs ≡ begun.logs
            → object.now.heap.state.live ≡ b.after self.old.process.number begun.heap.state.live event
            → (is_replayed ≡ false → self.old.drafts.items ≡ b.drafts self.old.process.number begun.heap.state.live event)
            → IsProcessOf P.words b past object.now self.new) }
        ensures posted { OnOk result ((event : Event P) (is_replayed : Bool) → IsHandedOut self.old event is_replayed
            → HasPosted P.words event.time self.old.process.sent.items self.new.process.sent.items out.old.items out.new.items) }
        ensures ended { OnOk result (self.new.is_open ≡ false) }
        ensures reached { OnOk result ((r : ℕ) → self.old.reached ≡ Some r → self.new.reached ≡ Some (r + 1)) }
        ensures replayed { OnOk result ((event : Event P) → IsHandedOut self.old event true
            → (inner self.new ≡ inner self.old) × (out.new.items ≡ out.old.items)) }
        ensures idle { (result ≡ Err ending.Idle) ↔ (self.old.is_open ≡ false) }
        ensures many { result ≡ Err ending.Counts → (2 ^ 64 ≤ self.old.process.serial + length self.old.drafts.items)
            ⊎ (2 ^ 64 ≤ date_of (inner self.old) + 1) }
        ensures rest { inner self.new ≡ record (inner self.old) {
          marks = (inner self.new).marks;
          sent = (inner self.new).sent;
          serial = (inner self.new).serial;
          state = (inner self.new).state;
          is_stale = (inner self.new).is_stale;
        } }
        ensures others { self.new ≡ record self.old {
          process = self.new.process;
          reached = self.new.reached;
          is_open = self.new.is_open;
        } }
        ensures unposted { OnErr result (out.new.items ≡ out.old.items) }
        ensures unchanged { OnErr result ((inner self.new ≡ inner self.old) × (self.new.reached ≡ self.old.reached)
            × (self.new.is_open ≡ self.old.is_open)) }
    {
        let (true, Some(reached)) = (self.is_open, self.reached) else {
            return Err(EndError::Idle);
        };
        let Some(next) = reached.checked_add(1) else {
            return Err(EndError::Counts);
        };
        if reached != self.process.date() {
            self.go_on(next);
            return Ok(());
        }
        let state = Moment::after(next, object);
        self.process.run_given(state, &self.drafts, out)?;
        self.go_on(next);
        Ok(())
    }

    /// No event is handed out any more: the object is what so many events made of it.
    fn go_on(&mut self, reached: u64)
        ensures { self.new ≡ record self.old { reached = Some reached; is_open = false } }
    {
        self.reached = Some(reached);
        self.is_open = false;
    }
}

/// Brings an object back to its log of a date.
fn restore(object: &mut UndoObject<FixedSupply>, date: u64) -> Result<(), BeginError>
    ensures restored { OnOk result (state_of object.new ≡ (Objects.restore (state_of object.old) date).object) }
    ensures spent { result ≡ Err beginning.Spent → (object.new ≡ object.old) × (COUNT_LIMIT ≤ object.old.ran) }
    ensures astray { result ≡ Err beginning.Astray
        → (Objects.restore (state_of object.old) date).reply ≡ reply.At date → ⊥ }
    ensures which { IfErr result (λ why. (why ≡ beginning.Spent) ⊎ (why ≡ beginning.Astray)) }
{
    if object.ran() >= COUNT_LIMIT {
        return Err(BeginError::Spent);
    }
    match object.restore(&(), date) {
        Ok(at) if at == date => Ok(()),
        _ => Err(BeginError::Astray),
    }
}
