//! Taking messages, and committing.
ghost use Rattle.std.specs.Prelude.{◌≡◌, ℕ, ◌+◌, ◌^◌, ◌<◌, ◌≤◌, ◌↔◌, IsTrue, true, suc, ◌++◌, Some, List, length, drop, OnOk, OnErr, Err};
ghost use Rattle.dym_base.specs.Heaps.{Live};
ghost use Rattle.dym_base.specs.declared.limits.TheConstants.{COUNT_LIMIT};
ghost use Rattle.dym_undo_object.specs.Meaning.{UndoObjectMeaning};
ghost use Rattle.warp_base.specs.declared.event.Event.{Event};
ghost use Rattle.warp_base.specs.Events.{AreFrom};
ghost use Rattle.warp_base.specs.Messages.{event_of};
ghost use Rattle.warp_base.specs.Histories.{Behaviour};
ghost use Rattle.warp_process.specs.Processes.{HasPosted, HasTakenMessage, HasCommitted, UndoesFrom, bound_of};
ghost use Rattle.warp_object.specs.Processes.{inner, date_of, IsKept, IsProcessOf, IsRecorded};
ghost use Rattle.warp_object.specs.declared.messages.TakeError.TheVariants as taking;
ghost use Rattle.warp_object.specs.declared.messages.CommitError.TheVariants as committing;

use crate::object_process::ObjectProcess;
use dym_base::limits::COUNT_LIMIT;
use dym_quota::FixedSupply;
use dym_undo_object::UndoObject;
use std::alloc::AllocError;
use warp_base::{Event, Message, Payload};
use warp_process::TakeError as ProcessError;

/// Why a message isn't taken. Nothing is changed then.
#[derive(Clone, Copy, Debug, PartialEq, Eq, Drop)]
pub enum TakeError {
    /// An event is handed out.
    Open,
    /// The message is for another process.
    Elsewhere,
    /// Want of memory.
    Memory,
    /// The message's event is at or before the last committed time.
    Committed,
}

/// Why nothing is committed. Nothing is changed then.
#[derive(Clone, Copy, Debug, PartialEq, Eq, Drop)]
pub enum CommitError {
    /// An event is handed out.
    Open,
    /// A later time is committed already.
    Backward,
    /// An event at or before the time is still to be run, or an anti-message waits for such an event.
    Unsettled,
    /// The object has run as many commands as it may.
    Spent,
    /// Want of memory.
    Memory,
}

impl From<AllocError> for CommitError {
    ghost use Rattle.warp_object.specs.declared.messages.CommitError.TheVariants.{Memory};

    ghost from_gives = { λ _ e. e ≡ Memory };

    fn from(_: AllocError) -> CommitError {
        CommitError::Memory
    }
}

impl<P: Payload> ObjectProcess<P> {
    /// Takes a message. An event goes to its place, and what was run from there on is undone; an
    /// anti-message takes its event away again, whichever of the two comes first. The object stays as
    /// it is until the next event is handed out.
    pub fn take(&mut self, message: Message<P>, out: &mut Vec<Message<P>>) -> Result<(), TakeError>
        requires recorded { IsRecorded P.words self.old }
        ensures recorded { IsRecorded P.words self.new }
        ensures kept { (b : Behaviour P Live) (past : List (Event P)) (object : UndoObjectMeaning)
            → IsProcessOf P.words b past object self.old → IsProcessOf P.words b past object self.new }
        ensures taken { OnOk result (HasTakenMessage P.words message (inner self.old) (inner self.new)) }
        ensures undone { OnOk result (UndoesFrom (event_of message).time (inner self.old) (inner self.new)) }
        ensures fewer { OnOk result (date_of (inner self.new) ≤ date_of (inner self.old)) }
        ensures posted { OnOk result (HasPosted P.words (event_of message).time self.old.process.sent.items
            self.new.process.sent.items out.old.items out.new.items) }
        ensures own { OnOk result ((event_of message).receiver ≡ self.old.process.number) }
        ensures late { OnOk result (bound_of self.old.process.last ≤ (event_of message).time) }
        ensures open { (result ≡ Err taking.Open) ↔ (self.old.is_open ≡ true) }
        ensures elsewhere { result ≡ Err taking.Elsewhere → (event_of message).receiver ≡ self.old.process.number → ⊥ }
        ensures committed { result ≡ Err taking.Committed → (event_of message).time < bound_of self.old.process.last }
        ensures same { (self.new.process.number ≡ self.old.process.number) × (self.new.process.last ≡ self.old.process.last) }
        ensures reached { IsKept self.old.reached self.new.reached (date_of (inner self.new)) }
        ensures rest { self.new ≡ record self.old { process = self.new.process; reached = self.new.reached } }
        ensures unposted { OnErr result (out.new.items ≡ out.old.items) }
        ensures unchanged { OnErr result ((inner self.new ≡ inner self.old) × (self.new.reached ≡ self.old.reached)) }
    {
        if self.is_open {
            return Err(TakeError::Open);
        }
        if message.event().receiver != self.process.number() {
            return Err(TakeError::Elsewhere);
        }
        match self.process.take(message, out) {
            Ok(()) => {
                self.forget_undone();
                Ok(())
            }
            Err(ProcessError::Memory) => Err(TakeError::Memory),
            Err(ProcessError::Committed) => Err(TakeError::Committed),
        }
    }

    /// Forgets where the object is, where it is behind what is run.
    fn forget_undone(&mut self)
        requires { date_of (inner self.old) < 2 ^ 64 }
        ensures kept { IsKept self.old.reached self.new.reached (date_of (inner self.old)) }
        ensures rest { self.new ≡ record self.old { reached = self.new.reached } }
    {
        if let Some(reached) = self.reached
            && reached > self.process.date()
        {
            self.reached = None;
        }
    }

    /// Whether all up to a time can be committed: no event there is still to be run, and no
    /// anti-message waits for its event.
    pub fn is_settled(&self, last: u64) -> bool
        requires { IsRecorded P.words self.now }
        ensures { IsTrue result ↔ (AreFrom (suc last) (drop (length self.now.process.marks.items) self.now.process.events.items)
            × AreFrom (suc last) self.now.process.early.items) }
    {
        self.process.is_settled(last)
    }

    /// Commits all events up to a time: they go to the end of `out`, in the order of their keys, and can't be undone any more. Logs of
    /// the object that no rollback needs are dropped.
    pub fn commit(
        &mut self,
        object: &mut UndoObject<FixedSupply>,
        last: u64,
        out: &mut Vec<Event<P>>,
    ) -> Result<(), CommitError>
        requires recorded { IsRecorded P.words self.old }
        ensures recorded { IsRecorded P.words self.new }
        ensures kept { OnOk result ((b : Behaviour P Live) (past : List (Event P))
            (done : HasCommitted P.words last (inner self.old) (inner self.new) out.old.items out.new.items)
            → IsProcessOf P.words b past object.old self.old → IsProcessOf P.words b (past ++ done.gone) object.new self.new) }
        ensures committed { OnOk result (HasCommitted P.words last (inner self.old) (inner self.new) out.old.items out.new.items) }
        ensures open { (result ≡ Err committing.Open) ↔ (self.old.is_open ≡ true) }
        ensures backward { result ≡ Err committing.Backward → suc last < bound_of self.old.process.last }
        ensures unsettled { result ≡ Err committing.Unsettled
            → (AreFrom (suc last) (drop (length self.old.process.marks.items) self.old.process.events.items)
            × AreFrom (suc last) self.old.process.early.items) → ⊥ }
        ensures spent { result ≡ Err committing.Spent → COUNT_LIMIT ≤ object.old.ran }
        ensures rest { self.new ≡ record self.old { process = self.new.process } }
        ensures unchanged { OnErr result ((inner self.new ≡ inner self.old) × (object.new ≡ object.old)
            × (out.new.items ≡ out.old.items)) }
    {
        if self.is_open {
            return Err(CommitError::Open);
        }
        if object.ran() >= COUNT_LIMIT {
            return Err(CommitError::Spent);
        }
        if !self.process.is_forward(last) {
            return Err(CommitError::Backward);
        }
        if !self.is_settled(last) {
            return Err(CommitError::Unsettled);
        }
        self.process.commit(last, out)?;
        object.prune(self.process.oldest_copy());
        Ok(())
    }
}
