//! What a model is.
ghost use Rattle.std.specs.Prelude.{◌≡◌, ℕ, ◌++◌, OnOk, IfOk};
ghost use Rattle.warp_base.specs.Histories.{Behaviour, LooksAhead, StartsWithin, SendsWithin};

use crate::event::{Draft, Event};
use crate::payload::Payload;
use std::alloc::{AllocError, Global};

/// A deterministic model: how many processes it has, the state in which each starts, and what an
/// event does to a state and sends.
///
/// `start` and `run` are called for states that a rollback undoes, too, so they must be total: a
/// model that can fail does so by a state that `is_faulty` tells. The simulator tells such a fault
/// only where the run in order meets it.
pub trait Simulation {
    type Payload: Payload;

    type State: Drop;

    /// What the model does, as mathematics.
    ghost behaviour: { Self → Behaviour Self.Payload Self.State };

    /// How many processes the model has; their numbers begin at 0.
    ghost processes: { Self → ℕ };

    /// How many processes the model has; their numbers begin at 0.
    fn processes(&self) -> u32
        ensures { result ≡ processes self.now };

    /// The state in which a process starts; what it sends then goes to the end of `out`.
    ///
    /// AllocError is free.
    fn start(
        &self,
        alloc: Global,
        process: u32,
        out: &mut Vec<Draft<Self::Payload>>,
    ) -> Result<Self::State, AllocError>
        ensures state { IfOk result (λ s. s ≡ (behaviour self.now).start process) }
        ensures sent { OnOk result (out.new.items
            ≡ out.old.items ++ (behaviour self.now).firsts process) };

    /// Runs an event; what it sends goes to the end of `out`.
    ///
    /// AllocError is free; the state may then be any.
    fn run(
        &self,
        alloc: Global,
        process: u32,
        state: &mut Self::State,
        event: &Event<Self::Payload>,
        out: &mut Vec<Draft<Self::Payload>>,
    ) -> Result<(), AllocError>
        ensures state { OnOk result (state.new
            ≡ (behaviour self.now).after process state.old event.now) }
        ensures sent { OnOk result (out.new.items
            ≡ out.old.items ++ (behaviour self.now).drafts process state.old event.now) };

    /// Whether a state is a fault of the model's own.
    fn is_faulty(&self, state: &Self::State) -> bool
        ensures { result ≡ (behaviour self.now).faulty state.now };

    /// Whatever an event sends is later than the event, by a tick at least.
    ghost looks_ahead: { (model : Self) → LooksAhead (behaviour model) };

    /// No other process sends at the start.
    ghost starts_within: { (model : Self) → StartsWithin (processes model) (behaviour model) };

    /// Whatever is sent is for one of the processes.
    ghost sends_within: { (model : Self) → SendsWithin (processes model) (behaviour model) };
}
