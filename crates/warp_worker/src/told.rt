//! What a worker tells of where it stands.
ghost use Rattle.std.specs.Prelude.{◌≡◌, List, length, slice_get, Some, None, IfSome, IfNone};
ghost use Rattle.warp_base.specs.declared.event.Event.{Event};
ghost use Rattle.warp_base.specs.Events.{Each};
ghost use Rattle.warp_base.specs.Messages.{AreMessagesFrom};
ghost use Rattle.warp_base.specs.Histories.{Behaviour, LooksAhead};
ghost use Rattle.warp_process.specs.Processes.{face};
ghost use Rattle.warp_worker.specs.Workers.{Cell, worker_face, IsWorker, IsIdleUntil, TellsFailed};
ghost use Rattle.warp_worker.specs.Moves.{IsPendingFrom, TellsLeast, lesser_of};
ghost use Rattle.warp_worker.specs.Times.{TellsTimes, last_ran, time_or};

use crate::worker::Worker;
use warp_base::{Message, Payload};
use warp_process::laws::failures_are_real;
use warp_process::{Process, StateSaver};

/// The lesser of two times, of which there may be none.
fn lesser(one: Option<u64>, other: Option<u64>) -> Option<u64>
    ensures { result ≡ lesser_of one other }
{
    match (one, other) {
        (Some(one), Some(other)) => Some(one.min(other)),
        (Some(time), None) | (None, Some(time)) => Some(time),
        (None, None) => None,
    }
}

/// The least time of messages.
fn least_sent<P: Payload>(messages: &[Message<P>]) -> Option<u64>
    ensures { TellsLeast (λ time. AreMessagesFrom time messages.now) result }
{
    let mut least = None;
    for message in messages {
        least = lesser(least, Some(message.event().time));
    }
    least
}

/// The time of the next event of a process.
fn next_time_of<P: Payload, K: StateSaver>(process: &Process<P, K>) -> Option<u64>
    ensures some { IfSome result (λ time. (e : Event P) × (slice_get process.now.events.items (length process.now.marks.items) ≡ Some e) × (e.time ≡ time)) }
    ensures none { IfNone result (slice_get process.now.events.items (length process.now.marks.items) ≡ None) }
{
    match process.next_event() {
        Some(event) => Some(event.time),
        None => None,
    }
}

/// The time of the last event that a process has run since what is committed, or else the one that is
/// told of what is committed.
fn last_time<P: Payload, K: StateSaver>(process: &Process<P, K>, committed: u64) -> u64
    ensures { Some result ≡ time_or (Some committed) (last_ran (face K.state K.copies process.now)) }
{
    match process.last_event() {
        Some(event) => event.time,
        None => committed,
    }
}

impl<P: Payload, K: StateSaver> Worker<P, K> {
    /// The least time of what is to be run.
    fn least_to_run(&self) -> Option<u64>
        requires worker { (b : Behaviour P K.State) × (cells : List (Cell P K.State)) × IsWorker P.words b cells (worker_face K.state K.copies self.now) }
        ensures { TellsLeast (λ time. Each (IsPendingFrom time) (worker_face K.state K.copies self.now).processes) result }
    {
        let mut least = None;
        for process in &self.processes {
            least = lesser(least, next_time_of(process));
        }
        least
    }

    /// The least time of what is to be run or is sent away.
    pub(crate) fn least_time(&self) -> Option<u64>
        requires worker { (b : Behaviour P K.State) × (cells : List (Cell P K.State)) × IsWorker P.words b cells (worker_face K.state K.copies self.now) }
        ensures { TellsLeast (IsIdleUntil (worker_face K.state K.copies self.now)) result }
    {
        lesser(self.least_to_run(), least_sent(&self.outbox))
    }

    /// The first process that has failed in what is committed.
    pub(crate) fn first_failed(&self) -> Option<u32>
        requires worker { (b : Behaviour P K.State) × (cells : List (Cell P K.State)) × LooksAhead b × IsWorker P.words b cells (worker_face K.state K.copies self.now) }
        ensures { (b : Behaviour P K.State) (cells : List (Cell P K.State)) → IsWorker P.words b cells (worker_face K.state K.copies self.now)
            → TellsFailed P.words b cells result }
    {
        failures_are_real::<P, K::State>();
        for process in &self.processes {
            if process.has_failed() {
                return Some(process.number());
            }
        }
        None
    }

    /// Notes in `times`, at the number of each process, the time of its last event that stands: of
    /// those that it has run since what is committed, or, where there is none, the time that is told of
    /// what is committed. Numbers beyond the end of either slice are left out.
    pub fn note_times(&self, committed: &[u64], times: &mut [u64])
        ensures { TellsTimes (worker_face K.state K.copies self.now) committed.now times.old times.new }
    {
        let first = self.first as usize;
        let places = committed.len().min(times.len()).saturating_sub(first);
        for place in 0..places.min(self.processes.len()) {
            let told = committed[first + place];
            times[first + place] = last_time(&self.processes[place], told);
        }
    }
}
