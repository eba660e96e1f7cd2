//! A logical process over an object.
ghost use Rattle.std.specs.Prelude.{◌≡◌, ℕ, ◌<◌, ◌≤◌, ◌↔◌, IsTrue, ◌++◌, map, [], List, length, OnOk, OnErr, IfOk, Err, slice_get, option_copied};
ghost use Rattle.dym_base.specs.Heaps.{Live};
ghost use Rattle.dym_base.specs.declared.limits.TheConstants.{COUNT_LIMIT};
ghost use Rattle.warp_base.specs.declared.event.Message.TheVariants as Variants;
ghost use Rattle.warp_base.specs.Events.{Each};
ghost use Rattle.warp_base.specs.Histories.{Behaviour, stamped};

use crate::moment::Moment;
use dym_base::limits::COUNT_LIMIT;
use dym_quota::FixedSupply;
use dym_undo::LogError;
use dym_undo_object::UndoObject;
use std::alloc::{AllocError, Global};
use warp_base::{Draft, Event, Message, Payload};
use warp_process::{Process, WholeCopies};

/// A logical process whose state is an object. The object is handed to each call that needs it; between two calls a program changes its
/// heap, and leaves its logs alone.
#[derive(Drop)]
pub struct ObjectProcess<P> {
    /// Its state, and the copies of it, are known to clauses alone: the copies are the object's logs.
    pub(crate) process: Process<P, WholeCopies<Moment>>,
    /// How many processes there are.
    pub(crate) processes: u32,
    /// After how many events a log of the object is taken.
    pub(crate) period: u64,
    /// After how many of the events that stand the object is what it is now: None where some of its
    /// events were undone.
    pub(crate) reached: Option<u64>,
    /// Whether an event is handed out.
    pub(crate) is_open: bool,
    /// What the event that is handed out sent.
    pub(crate) drafts: Vec<Draft<P>>,
}

/// Why a process isn't opened. Nothing is changed then.
#[derive(Clone, Copy, Debug, PartialEq, Eq, Drop)]
pub enum OpenError {
    /// Want of memory.
    Memory,
    /// The object has run as many commands as it may.
    Spent,
    /// The object has logs already.
    Logged,
    /// A first event is for no process.
    NoProcess,
}

impl From<AllocError> for OpenError {
    ghost use Rattle.warp_object.specs.declared.object_process.OpenError.TheVariants.{Memory};

    ghost from_gives = { λ _ e. e ≡ Memory };

    fn from(_: AllocError) -> OpenError {
        OpenError::Memory
    }
}

/// Whether all drafts are for processes below this number.
fn are_within<P>(drafts: &[Draft<P>], processes: u32) -> bool
    ensures { IsTrue result ↔ Each (λ d. d.receiver < processes) drafts.now }
{
    for draft in drafts {
        if draft.receiver >= processes {
            return false;
        }
    }
    true
}

impl<P: Payload> ObjectProcess<P> {
    ghost use Rattle.warp_object.specs.Processes.{inner, IsProcessOf, IsRecorded};
    ghost use Rattle.warp_object.specs.declared.object_process.OpenError.TheVariants.{Spent, Logged, NoProcess};

    /// A process that has run nothing, over an object with the state in which it starts. The events
    /// of these drafts, which are sent at the start, go out: they are never taken back.
    ///
    /// A log of the object is taken now, and then after each `period` events that are run; 0 counts as
    /// 1.
    pub fn open(
        alloc: Global,
        number: u32,
        processes: u32,
        period: u64,
        object: &mut UndoObject<FixedSupply>,
        drafts: &[Draft<P>],
        out: &mut Vec<Message<P>>,
    ) -> Result<ObjectProcess<P>, OpenError>
        ensures process { IfOk result (λ p. (b : Behaviour P Live) → object.old.heap.state.live ≡ b.start number
            → drafts.now ≡ b.firsts number → IsProcessOf P.words b [] object.new p) }
        ensures recorded { IfOk result (IsRecorded P.words) }
        ensures number { IfOk result (λ p. (p.process.number ≡ number) × (p.processes ≡ processes)) }
        ensures out { OnOk result (out.new.items ≡ out.old.items ++ map Variants.Event (stamped number 0 drafts.now)) }
        ensures live { object.new.heap.state.live ≡ object.old.heap.state.live }
        ensures spent { (result ≡ Err Spent) ↔ (COUNT_LIMIT ≤ object.old.ran) }
        ensures logged { result ≡ Err Logged → 0 < length object.old.logs }
        ensures within { OnOk result (Each (λ d. d.receiver < processes) drafts.now) }
        ensures no_process { result ≡ Err NoProcess → Each (λ d. d.receiver < processes) drafts.now → ⊥ }
        ensures unposted { OnErr result (out.new.items ≡ out.old.items) }
        ensures unchanged { OnErr result (object.new ≡ object.old) }
    {
        if object.ran() >= COUNT_LIMIT {
            return Err(OpenError::Spent);
        }
        if object.kept() > 0 {
            return Err(OpenError::Logged);
        }
        if !are_within(drafts, processes) {
            return Err(OpenError::NoProcess);
        }
        let saver = WholeCopies::new(alloc, Moment::after(0, object));
        let before = out.len();
        let process = Process::open(alloc, number, period, saver, false, drafts, out)?;
        match object.ilog(0) {
            Ok(_) => Ok(ObjectProcess {
                process,
                processes,
                period,
                reached: Some(0),
                is_open: false,
                drafts: Vec::new(alloc),
            }),
            Err(LogError::Memory) => {
                out.truncate(before);
                Err(OpenError::Memory)
            }
            Err(LogError::Refused(_)) => unreachable!(),
        }
    }

    /// The process's number.
    pub fn number(&self) -> u32
        ensures { result ≡ self.now.process.number }
    {
        self.process.number()
    }

    /// The first event that is still to be run.
    pub fn next_event(&self) -> Option<&Event<P>>
        ensures { option_copied result ≡ slice_get self.now.process.events.items (length self.now.process.marks.items) }
    {
        self.process.next_event()
    }

    /// Whether an event is handed out.
    pub fn is_open(&self) -> bool
        ensures { result ≡ self.now.is_open }
    {
        self.is_open
    }
}
