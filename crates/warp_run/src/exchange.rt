//! Messages go from workers to workers.
ghost use Rattle.std.specs.Prelude.{◌≡◌, ℕ, ◌+◌, ◌<◌, ◌≤◌, [], length, map, slice_get, Some, OnOk};
ghost use Rattle.warp_base.specs.Events.{Each};
ghost use Rattle.warp_worker.specs.Workers.{WorkerFace, worker_face, total};
ghost use Rattle.warp_run.specs.Worlds.{AreContiguous, IsSomeWorld, StaysWorld, process_count};

use std::alloc::{AllocError, Global};
use warp_base::{Message, Payload};
use warp_process::StateSaver;
use warp_worker::Worker;

/// The place of the worker that has a process.
fn worker_of<P: Payload, K: StateSaver>(workers: &[Worker<P, K>], process: u32) -> usize
    requires contiguous { AreContiguous 0 (map (worker_face K.state K.copies) workers.now) }
    requires within { process < total process_count (map (worker_face K.state K.copies) workers.now) }
    ensures within { result < length workers.now }
    ensures own { (w : WorkerFace P K.State) → slice_get (map (worker_face K.state K.copies) workers.now) result ≡ Some w
        → (w.first ≤ process) × (process < w.first + length w.processes) }
{
    for (place, worker) in workers.iter().enumerate() {
        if worker.owns(process) {
            return place;
        }
    }
    unreachable!()
}

/// Puts messages into the inboxes of the workers that have their processes.
fn deliver_all<P: Payload, K: StateSaver>(
    workers: &mut Vec<Worker<P, K>>,
    messages: &[Message<P>],
) -> Result<(), AllocError>
    requires world { (n : ℕ) × IsSomeWorld P.words n (map (worker_face K.state K.copies) workers.old.items) messages.now }
    ensures world { OnOk result (StaysWorld P.words (map (worker_face K.state K.copies) workers.old.items) messages.now
        (map (worker_face K.state K.copies) workers.new.items) []) }
    ensures outboxes { OnOk result (map (λ w. w.outbox.items) workers.new.items ≡ map (λ w. w.outbox.items) workers.old.items) }
{
    for message in messages {
        let place = worker_of(workers, message.event().receiver);
        workers[place].accept(*message)?;
    }
    Ok(())
}

/// Puts all that workers send away into the inboxes of those that it is for.
pub(crate) fn exchange_all<P: Payload, K: StateSaver>(
    alloc: Global,
    workers: &mut Vec<Worker<P, K>>,
) -> Result<(), AllocError>
    requires world { (n : ℕ) × IsSomeWorld P.words n (map (worker_face K.state K.copies) workers.old.items) [] }
    ensures world { OnOk result (StaysWorld P.words (map (worker_face K.state K.copies) workers.old.items) []
        (map (worker_face K.state K.copies) workers.new.items) []) }
    ensures outboxes { OnOk result (Each (λ w. w.outbox.items ≡ []) workers.new.items) }
{
    for place in 0..workers.len() {
        let messages = workers[place].take_outbox(Vec::new(alloc));
        deliver_all(workers, &messages)?;
    }
    Ok(())
}
