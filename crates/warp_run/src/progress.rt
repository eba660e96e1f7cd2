//! Where a run in order stands: its processes and its queue.
ghost use Rattle.std.specs.Prelude.{◌≡◌, ℕ, ◌+◌, ◌<◌, ◌≤◌, ◌^◌, true, false, [], ◌∷◌, ◌++◌, length, OnOk, IfOk, IfErr};
ghost use Rattle.warp_base.specs.Histories.{stamped};
ghost use Rattle.warp_base.specs.Sequential.{Run, all_queued, first_run, after_event};
ghost use Rattle.warp_run.specs.Ends.{FaultsFirstAt, IsSoundUntil};
ghost use Rattle.warp_run.specs.Failures.{MatchFailure};
ghost use Rattle.warp_run.specs.Standing.{StandsAt};

use crate::finished::Failure;
use crate::queue::EventQueue;
use std::alloc::{AllocError, Global};
use warp_base::{Draft, Event, Payload, Simulation};

/// The processes of a run, by their numbers, and the events that are to be run.
#[derive(Drop)]
pub struct Progress<P: Payload, S> {
    pub states: Vec<S>,
    /// How many events each process has sent.
    pub serials: Vec<u64>,
    pub queue: EventQueue<P>,
}

/// Queues drafts as the events of their sender, which has sent `serial` before.
///
/// AllocError leaves some of them in the queue.
fn send_all<P: Payload>(
    queue: &mut EventQueue<P>,
    sender: u32,
    serial: u64,
    drafts: &[Draft<P>],
) -> Result<(), AllocError>
    requires { serial + length drafts.now < 2 ^ 64 }
    ensures { OnOk result (queue.new
        ≡ all_queued P.words (stamped sender serial drafts.now) queue.old) }
{
    for (i, draft) in drafts.iter().enumerate() {
        queue.push(draft.stamp(sender, serial + i as u64))?;
    }
    Ok(())
}

impl<P: Payload, S: Drop> Progress<P, S> {
    /// No process, and nothing to be run.
    fn new(alloc: Global) -> Progress<P, S>
        ensures states { result.states.items ≡ [] }
        ensures serials { result.serials.items ≡ [] }
        ensures queue { result.queue ≡ [] }
    {
        Progress {
            states: Vec::new(alloc),
            serials: Vec::new(alloc),
            queue: EventQueue::new(alloc),
        }
    }

    /// Starts the next process, which sends its first events.
    fn start_process<M: Simulation<Payload = P, State = S>>(
        &mut self,
        alloc: Global,
        model: &M,
        process: u32,
    ) -> Result<(), Failure>
        ensures state { OnOk result (self.new.states.items
            ≡ self.old.states.items ++ (M.behaviour model.now).start process ∷ []) }
        ensures serial { OnOk result (self.new.serials.items
            ≡ self.old.serials.items ++ length ((M.behaviour model.now).firsts process) ∷ []) }
        ensures queue { OnOk result (self.new.queue ≡ all_queued P.words
            (stamped process 0 ((M.behaviour model.now).firsts process)) self.old.queue) }
        ensures sound { OnOk result ((M.behaviour model.now).faulty
            ((M.behaviour model.now).start process) ≡ false) }
        ensures failure { IfErr result (MatchFailure (λ p. (p ≡ process)
            × ((M.behaviour model.now).faulty ((M.behaviour model.now).start process) ≡ true)) ⊥) }
    {
        let mut drafts = Vec::new(alloc);
        let state = model.start(alloc, process, &mut drafts)?;
        if model.is_faulty(&state) {
            return Err(Failure::Fault { process });
        }
        self.states.push(state)?;
        self.serials.push(drafts.len() as u64)?;
        send_all(&mut self.queue, process, 0, &drafts)?;
        Ok(())
    }

    /// Runs an event that was taken out of the queue, and queues what it sends. `drafts` is room.
    pub fn run_event<M: Simulation<Payload = P, State = S>>(
        &mut self,
        alloc: Global,
        model: &M,
        event: &Event<P>,
        drafts: &mut Vec<Draft<P>>,
    ) -> Result<(), Failure>
        requires states { event.now.receiver < length self.old.states.items }
        requires serials { event.now.receiver < length self.old.serials.items }
        ensures ok { OnOk result ((n : ℕ) (r : Run P S)
            → StandsAt n r self.old.states.items self.old.serials.items r.queue
            → StandsAt n (after_event P.words (M.behaviour model.now) r event.now self.old.queue)
            self.new.states.items self.new.serials.items self.new.queue) }
        ensures sound { OnOk result ((n : ℕ) (r : Run P S)
            → StandsAt n r self.old.states.items self.old.serials.items r.queue
            → (M.behaviour model.now).faulty ((M.behaviour model.now).after event.now.receiver
            (r.states event.now.receiver) event.now) ≡ false) }
        ensures failure { IfErr result (λ f. (n : ℕ) (r : Run P S)
            → StandsAt n r self.old.states.items self.old.serials.items r.queue
            → MatchFailure (λ p. (p ≡ event.now.receiver)
            × ((M.behaviour model.now).faulty ((M.behaviour model.now).after p
            (r.states p) event.now) ≡ true))
            (2 ^ 64 ≤ (after_event P.words (M.behaviour model.now) r event.now
            self.old.queue).serials event.now.receiver) f) }
    {
        let process = event.receiver;
        let index = process as usize;
        drafts.clear();
        let state = &mut self.states[index];
        model.run(alloc, process, state, event, drafts)?;
        if model.is_faulty(&self.states[index]) {
            return Err(Failure::Fault { process });
        }
        let serial = self.serials[index];
        let Some(next) = serial.checked_add(drafts.len() as u64) else {
            return Err(Failure::TooManyEvents);
        };
        self.serials[index] = next;
        send_all(&mut self.queue, process, serial, drafts)?;
        Ok(())
    }
}

/// Starts each process of a model.
pub fn start<M: Simulation>(
    alloc: Global,
    model: &M,
) -> Result<Progress<M::Payload, M::State>, Failure>
    ensures stands { IfOk result (λ s. StandsAt (M.processes model.now)
        (first_run M.Payload.words (M.behaviour model.now) (M.processes model.now))
        s.states.items s.serials.items s.queue) }
    ensures sound { OnOk result ((end : ℕ) → IsSoundUntil M.Payload.words
        (M.behaviour model.now) (M.processes model.now) end 0) }
    ensures failure { IfErr result (λ f. (end : ℕ) → MatchFailure (FaultsFirstAt M.Payload.words
        (M.behaviour model.now) (M.processes model.now) end) ⊥ f) }
{
    let mut progress = Progress::new(alloc);
    for process in 0..model.processes() {
        progress.start_process(alloc, model, process)?;
    }
    Ok(progress)
}
