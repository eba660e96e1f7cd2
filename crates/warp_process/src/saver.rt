//! What keeps the state of a process, and dated copies of it.
ghost use Rattle.std.specs.Prelude.{◌≡◌, ◌≢◌, ℕ, ◌<◌, ◌≤◌, List, [], ◌∷◌, ◌++◌, OnOk, OnErr, IfOk};
ghost use Rattle.warp_base.specs.Events.{Each};
ghost use Rattle.warp_process.specs.Savers.{until, AreAscending, IsNewest, KeepsFrom};

use std::alloc::{AllocError, Global};
use warp_base::{Draft, Event, Simulation};

/// The state of a process, and copies of it by their dates. The date of a copy is the number of
/// events that the process had run before it.
///
/// The current state lives in the saver, which lends it to the model for one event (`run`). So a
/// saver may keep the state as it likes: [`WholeCopies`](crate::WholeCopies) keeps it as a value and
/// copies it whole; one over an object in chunks has the state in the object's heap, takes a log
/// where a copy is saved, and drops, restores and prunes logs for the other calls.
pub trait StateSaver: Drop {
    type State;

    /// The current state.
    ghost state: { Self → Self.State };

    /// The copies with their dates, the oldest first.
    ghost copies: { Self → List (ℕ × Self.State) };

    /// The current state.
    fn state(&self) -> &Self::State
        ensures { result.now ≡ state self.now };

    /// Gives the current state away, without its copies.
    fn into_state(self) -> Self::State
        ensures { result ≡ state self };

    /// Lends the current state to a model that runs an event on it.
    ///
    /// At AllocError the state may be any.
    fn run<M: Simulation<State = Self::State>>(
        &mut self,
        alloc: Global,
        model: &M,
        process: u32,
        event: &Event<M::Payload>,
        out: &mut Vec<Draft<M::Payload>>,
    ) -> Result<(), AllocError>
        ensures state { OnOk result (state self.new
            ≡ (M.behaviour model.now).after process (state self.old) event.now) }
        ensures sent { OnOk result (out.new.items
            ≡ out.old.items ++ (M.behaviour model.now).drafts process (state self.old) event.now) }
        ensures copies { copies self.new ≡ copies self.old };

    /// Keeps a copy of the current state, which is newer than all others.
    fn save(&mut self, alloc: Global, date: u64) -> Result<(), AllocError>
        requires newest { Each (λ c. c.0 < date) (copies self.old) }
        ensures ok { OnOk result (copies self.new
            ≡ copies self.old ++ (date, state self.old) ∷ []) }
        ensures err { OnErr result (copies self.new ≡ copies self.old) }
        ensures state { state self.new ≡ state self.old };

    /// The date of the newest copy.
    fn newest(&self) -> u64
        requires some { copies self.now ≢ [] }
        ensures { (s : Self.State) × IsNewest (copies self.now) result s };

    /// Returns to the newest copy, which stays; the result is its date.
    ///
    /// At AllocError the state may be any.
    fn restore(&mut self, alloc: Global) -> Result<u64, AllocError>
        requires some { copies self.old ≢ [] }
        ensures ok { IfOk result (λ date. IsNewest (copies self.old) date (state self.new)) }
        ensures copies { copies self.new ≡ copies self.old };

    /// Forgets the copies that are later than a date.
    fn forget(&mut self, date: u64)
        requires ascending { AreAscending (copies self.old) }
        ensures copies { copies self.new ≡ until date (copies self.old) }
        ensures state { state self.new ≡ state self.old };

    /// Drops the copies before the newest one that isn't later than a date; the result is its date.
    fn prune(&mut self, before: u64) -> u64
        requires ascending { AreAscending (copies self.old) }
        requires some { (date : ℕ) × (s : Self.State) × (later : List (ℕ × Self.State)) × (date ≤ before)
            × (copies self.old ≡ (date, s) ∷ later) }
        ensures copies { KeepsFrom (copies self.old) before result (copies self.new) }
        ensures state { state self.new ≡ state self.old };
}
