//! What is to be run once more, how far a process is, and its period.
ghost use Rattle.std.specs.Prelude.{◌≡◌, ℕ, ◌+◌, ◌≤◌, ◌↔◌, true, List, [], OnErr, IfOk, IfSome, IfNone, Err, Some, None, false};
ghost use Rattle.dym_base.specs.Heaps.{Live};
ghost use Rattle.dym_base.specs.declared.limits.TheConstants.{COUNT_LIMIT};
ghost use Rattle.warp_base.specs.declared.event.Event.{Event};
ghost use Rattle.warp_base.specs.Histories.{Behaviour};
ghost use Rattle.warp_process.specs.Savers.{IsNewest};
ghost use Rattle.warp_object.specs.declared.moment.Moment.{Moment};
ghost use Rattle.warp_object.specs.declared.steps.BeginError.TheVariants as beginning;

use crate::object_process::ObjectProcess;
use crate::steps::BeginError;
use dym_quota::FixedSupply;
use dym_undo_object::UndoObject;
use warp_base::{Event, Payload};

impl<P: Payload> ObjectProcess<P> {
    ghost use Rattle.warp_object.specs.Processes.{inner, date_of, IsProcessOf, IsRecorded, IsHandedOut};

    /// Hands an event out as `begin` does, but none that wasn't run before: at None the object is what the events that are run made of it,
    /// and the next one stays.
    pub fn begin_replay(
        &mut self,
        object: &mut UndoObject<FixedSupply>,
    ) -> Result<Option<Event<P>>, BeginError>
        requires recorded { IsRecorded P.words self.old }
        ensures recorded { IsRecorded P.words self.new }
        ensures kept { (b : Behaviour P Live) (past : List (Event P)) → IsProcessOf P.words b past object.old self.old
            → IsProcessOf P.words b past object.new self.new }
        ensures handed_out { IfOk result (λ answer. IfSome answer (λ event.
            (self.new.is_open ≡ true) × IsHandedOut self.new event true × (self.new.drafts.items ≡ []))) }
        ensures none { IfOk result (λ answer. IfNone answer
            ((self.new.reached ≡ Some (date_of (inner self.new))) × (self.new.is_open ≡ false))) }
        ensures reached { (r : ℕ) → self.old.reached ≡ Some r → self.new.reached ≡ Some r }
        ensures open { (result ≡ Err beginning.Open) ↔ (self.old.is_open ≡ true) }
        ensures spent { result ≡ Err beginning.Spent → COUNT_LIMIT ≤ object.new.ran }
        ensures astray { (b : Behaviour P Live) (past : List (Event P)) → IsProcessOf P.words b past object.old self.old
            → result ≡ Err beginning.Astray → ⊥ }
        ensures rest { self.new ≡ record self.old { reached = self.new.reached; is_open = self.new.is_open; drafts = self.new.drafts } }
        ensures unchanged { OnErr result ((self.new.is_open ≡ self.old.is_open) × (self.new.drafts ≡ self.old.drafts)) }
    {
        if self.is_open {
            return Err(BeginError::Open);
        }
        let reached = self.reach(object)?;
        if reached == self.process.date() {
            return Ok(None);
        }
        let Some(event) = self.process.event_at(reached) else {
            return Ok(None);
        };
        self.is_open = true;
        self.drafts.clear();
        Ok(Some(event))
    }

    /// How many events are run, from the start on, the committed ones among them.
    pub fn date(&self) -> u64
        requires { IsRecorded P.words self.now }
        ensures { result ≡ date_of (inner self.now) }
    {
        self.process.date()
    }

    /// How many events had been run at the newest log that a rollback left.
    pub fn newest_log(&self) -> u64
        requires { IsRecorded P.words self.now }
        ensures { (s : Moment) × IsNewest (inner self.now).copies result s }
    {
        self.process.newest_copy()
    }

    /// How many of the events that are run are handed out again before the next one.
    pub fn replays(&self) -> u64
        requires { IsRecorded P.words self.now }
        ensures reached { (r : ℕ) → self.now.reached ≡ Some r → result + r ≡ date_of (inner self.now) }
        ensures undone { self.now.reached ≡ None → (newest : ℕ) × (s : Moment)
            × IsNewest (inner self.now).copies newest s × (result + newest ≡ date_of (inner self.now)) }
    {
        match self.reached {
            Some(reached) => self.process.date() - reached,
            None => self.process.date() - self.process.newest_copy(),
        }
    }

    /// From now on a log is taken after so many events; 0 counts as 1.
    pub fn set_period(&mut self, period: u64)
        ensures period { self.new ≡ record self.old { period = period } }
        ensures recorded { IsRecorded P.words self.old → IsRecorded P.words self.new }
    {
        self.period = period;
    }
}
