//! A worker.
ghost use Rattle.std.specs.Prelude.{◌≡◌, ℕ, ◌+◌, ◌<◌, ◌≤◌, ◌↔◌, ◌++◌, List, [], ◌∷◌, length, IsTrue, OnOk, OnErr};

use crate::counts::Counts;
use crate::queue::NextTimes;
use std::alloc::AllocError;
use std::mem;
use warp_base::{Event, Message, Payload};
use warp_process::{Process, RunError, StateSaver};

/// Some processes of a model, whose numbers follow one another.
#[derive(Drop)]
pub struct Worker<P, K> {
    pub(crate) first: u32,
    pub(crate) processes: Vec<Process<P, K>>,
    pub(crate) inbox: Vec<Message<P>>,
    pub(crate) outbox: Vec<Message<P>>,
    pub(crate) queue: NextTimes,
    /// What the last round committed.
    pub(crate) committed: Vec<Event<P>>,
    /// The least time of what is still to be run or is sent away.
    pub(crate) next: Option<u64>,
    /// A process that has failed in what is committed.
    pub(crate) failed: Option<u32>,
    /// What went wrong in the last round.
    pub(crate) error: Option<RunError>,
    pub(crate) counts: Counts,
}

impl<P: Payload, K: StateSaver> Worker<P, K> {
    /// The number of the first process.
    pub fn first(&self) -> u32
        ensures { result ≡ self.now.first }
    {
        self.first
    }

    /// How many processes the worker has.
    pub fn count(&self) -> usize
        ensures { result ≡ length self.now.processes.items }
    {
        self.processes.len()
    }

    /// After a round: the least time of what is still to be run or is sent away.
    pub fn next(&self) -> Option<u64>
        ensures { result ≡ self.now.next }
    {
        self.next
    }

    /// After a round: a process that in what is committed reaches a state that is a fault of the
    /// model's own.
    pub fn failed(&self) -> Option<u32>
        ensures { result ≡ self.now.failed }
    {
        self.failed
    }

    /// Why the last round was broken off.
    pub fn error(&self) -> Option<RunError>
        ensures { result ≡ self.now.error }
    {
        self.error
    }

    /// How many events were run and undone since the worker was opened.
    pub fn counts(&self) -> Counts
        ensures { result ≡ self.now.counts }
    {
        self.counts
    }

    /// What the last round committed, process by process, each in the order of keys.
    pub fn committed(&self) -> &[Event<P>]
        ensures { result.now ≡ self.now.committed.items }
    {
        &self.committed
    }

    /// Takes a message into the inbox.
    ///
    /// AllocError changes nothing.
    pub fn accept(&mut self, message: Message<P>) -> Result<(), AllocError>
        ensures accepted { OnOk result (self.new.inbox.items ≡ self.old.inbox.items ++ message ∷ []) }
        ensures refused { OnErr result (self.new.inbox.items ≡ self.old.inbox.items) }
        ensures rest { self.new ≡ record self.old { inbox = self.new.inbox } }
    {
        self.inbox.push(message)?;
        Ok(())
    }

    /// Hands out the messages that are sent away.
    pub fn take_outbox(&mut self, empty: Vec<Message<P>>) -> Vec<Message<P>>
        requires { empty.items ≡ [] }
        ensures taken { result.items ≡ self.old.outbox.items }
        ensures empty { self.new.outbox.items ≡ [] }
        ensures rest { self.new ≡ record self.old { outbox = self.new.outbox } }
    {
        mem::replace(&mut self.outbox, empty)
    }

    /// The time of the next event of the process at a place: `u64::MAX` where there is none.
    fn next_time(&self, place: usize) -> u64 {
        let Some(process) = self.processes.get(place) else {
            return u64::MAX;
        };
        match process.next_event() {
            Some(event) => event.time,
            None => u64::MAX,
        }
    }

    /// Tells the queue what the process at a place is to run next.
    pub(crate) fn note_next(&mut self, place: usize)
        ensures { self.new ≡ record self.old { queue = self.new.queue } }
    {
        let time = self.next_time(place);
        self.queue.set(place, time);
    }

    /// Whether a process is one of the worker's.
    pub fn owns(&self, process: u32) -> bool
        ensures { IsTrue result
            ↔ ((self.now.first ≤ process) × (process < self.now.first + length self.now.processes.items)) }
    {
        process >= self.first && ((process - self.first) as usize) < self.processes.len()
    }
}
