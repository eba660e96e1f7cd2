//! Opening a worker.
ghost use Rattle.std.specs.Prelude.{◌≡◌, ℕ, ◌+◌, ◌≤◌, ◌<◌, ◌^◌, [], ◌∷◌, ◌++◌, None, length, map, IfOk, OnOk};
ghost use Rattle.warp_base.specs.Histories.{stamped};
ghost use Rattle.warp_base.specs.declared.event.Message.TheVariants as Variants;
ghost use Rattle.warp_process.specs.Processes.{ProcessFace, face, IsProcess};
ghost use Rattle.warp_worker.specs.Workers.{IsOpened, worker_face};

use crate::counts::Counts;
use crate::queue::NextTimes;
use crate::worker::Worker;
use std::alloc::{AllocError, Global};
use warp_base::{Message, Payload, Simulation};
use warp_process::{Copied, Process, StateSaver, WholeCopies};

/// A saver that begins with a state.
pub trait OpenSaver: StateSaver {
    /// A saver of this state, with no copy of it.
    fn open(alloc: Global, first: Self::State) -> Result<Self, AllocError>
        ensures state { IfOk result (λ saver. Self.state saver ≡ first) }
        ensures copies { IfOk result (λ saver. Self.copies saver ≡ []) };
}

impl<S: Copied> OpenSaver for WholeCopies<S> {
    fn open(alloc: Global, first: S) -> Result<Self, AllocError> {
        Ok(WholeCopies::new(alloc, first))
    }
}

/// A process in its model's first state; what it sends then goes to the end of `out`.
fn open_process<P: Payload, K: OpenSaver, M: Simulation<Payload = P, State = K::State>>(
    alloc: Global,
    model: &M,
    number: u32,
    period: u64,
    out: &mut Vec<Message<P>>,
) -> Result<Process<P, K>, AllocError>
    ensures process { IfOk result (λ p. IsProcess P.words (M.behaviour model.now) [] (face K.state K.copies p)) }
    ensures number { IfOk result (λ p. p.number ≡ number) }
    ensures last { IfOk result (λ p. p.last ≡ None) }
    ensures events { IfOk result (λ p. p.events.items ≡ []) }
    ensures early { IfOk result (λ p. p.early.items ≡ []) }
    ensures out { OnOk result (out.new.items
        ≡ out.old.items ++ map Variants.Event (stamped number 0 ((M.behaviour model.now).firsts number))) }
{
    let mut drafts = Vec::new(alloc);
    let state = model.start(alloc, number, &mut drafts)?;
    let is_faulty = model.is_faulty(&state);
    let saver = K::open(alloc, state)?;
    Process::open(alloc, number, period, saver, is_faulty, &drafts, out)
}

impl<P: Payload, K: OpenSaver> Worker<P, K> {
    /// A worker with processes of a model, this many from `first` on. All that they send at the start
    /// is sent away, what is for its own processes too.
    pub fn open<M: Simulation<Payload = P, State = K::State>>(
        alloc: Global,
        model: &M,
        first: u32,
        count: u32,
        period: u64,
    ) -> Result<Worker<P, K>, AllocError>
        requires within { first + count ≤ M.processes model.now }
        requires fits { first + count < 2 ^ 32 }
        ensures opened { IfOk result (λ w. IsOpened P.words (M.behaviour model.now) (M.processes model.now) (worker_face K.state K.copies w)) }
        ensures first { IfOk result (λ w. w.first ≡ first) }
        ensures count { IfOk result (λ w. length w.processes.items ≡ count) }
    {
        let mut processes = Vec::new(alloc);
        let mut outbox = Vec::new(alloc);
        let queue = NextTimes::with_places(alloc, count)?;
        for place in 0..count {
            let process = open_process(alloc, model, first + place, period, &mut outbox)?;
            processes.push(process)?;
        }
        Ok(Worker {
            first,
            processes,
            inbox: Vec::new(alloc),
            outbox,
            queue,
            committed: Vec::new(alloc),
            next: None,
            failed: None,
            error: None,
            counts: Counts::NONE,
        })
    }
}
