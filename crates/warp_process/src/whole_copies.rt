//! A state that is copied whole.
ghost use Rattle.std.specs.Prelude.{◌≡◌, ℕ, ◌<◌, ◌≤◌, List, [], ◌∷◌, ◌++◌, length, take, drop, OnOk, OnErr};
ghost use Rattle.warp_base.specs.Events.{Each};
ghost use Rattle.warp_process.specs.Savers.{until, AreAscending};

use crate::saver::StateSaver;
use std::alloc::{AllocError, Global};
use warp_base::{Draft, Event, Simulation};

/// A state whose clone is the same state.
pub trait Copied: Clone {
    /// A clone is the same state.
    ghost clone_is_same: { (state copy : Self) → Self.is_clone state copy → copy ≡ state };
}

impl Copied for u64 {
    ghost clone_is_same = { λ state copy same. same };
}

/// A state as a value, each copy of which is a clone.
#[derive(Drop)]
pub struct WholeCopies<S> {
    state: S,
    /// With their dates, the oldest first.
    copies: Vec<(u64, S)>,
}

/// How many copies aren't later than a date.
fn count_until<S>(copies: &[(u64, S)], date: u64) -> usize
    requires { AreAscending copies.now }
    ensures within { result ≤ length copies.now }
    ensures until { take result copies.now ≡ until date copies.now }
    ensures later { Each (λ c. date < c.0) (drop result copies.now) }
{
    copies.partition_point(|copy| copy.0 <= date)
}

impl<S: Copied> WholeCopies<S> {
    /// A saver of a state, with no copy of it.
    pub fn new(alloc: Global, state: S) -> WholeCopies<S>
        ensures state { result.state ≡ state }
        ensures copies { result.copies.items ≡ [] }
    {
        WholeCopies {
            state,
            copies: Vec::new(alloc),
        }
    }

    /// Another state, which is given.
    pub(crate) fn set_state(&mut self, state: S)
        ensures state { self.new.state ≡ state }
        ensures copies { self.new.copies ≡ self.old.copies }
    {
        self.state = state;
    }

    /// Keeps a copy of the state under a date.
    pub(crate) fn save_given(&mut self, date: u64) -> Result<(), AllocError>
        ensures ok { OnOk result (self.new.copies.items ≡ self.old.copies.items ++ (date, self.old.state) ∷ []) }
        ensures err { OnErr result (self.new.copies.items ≡ self.old.copies.items) }
        ensures state { self.new.state ≡ self.old.state }
    {
        let copy = self.state.clone()?;
        self.copies.push((date, copy))?;
        Ok(())
    }

    /// Drops the newest copy.
    pub(crate) fn drop_newest(&mut self)
        ensures copies { (copies : List (ℕ × S)) (c : ℕ × S) → self.old.copies.items ≡ copies ++ c ∷ []
            → self.new.copies.items ≡ copies }
        ensures state { self.new.state ≡ self.old.state }
    {
        self.copies.pop();
    }
}

impl<S: Copied> StateSaver for WholeCopies<S> {
    type State = S;

    ghost state = { λ saver. saver.state };

    ghost copies = { λ saver. saver.copies.items };

    fn state(&self) -> &S {
        &self.state
    }

    fn into_state(self) -> S {
        self.state
    }

    fn run<M: Simulation<State = S>>(
        &mut self,
        alloc: Global,
        model: &M,
        process: u32,
        event: &Event<M::Payload>,
        out: &mut Vec<Draft<M::Payload>>,
    ) -> Result<(), AllocError> {
        model.run(alloc, process, &mut self.state, event, out)
    }

    fn save(&mut self, _alloc: Global, date: u64) -> Result<(), AllocError> {
        let copy = self.state.clone()?;
        self.copies.push((date, copy))?;
        Ok(())
    }

    fn newest(&self) -> u64 {
        self.copies[self.copies.len() - 1].0
    }

    fn restore(&mut self, _alloc: Global) -> Result<u64, AllocError> {
        let (date, state) = &self.copies[self.copies.len() - 1];
        self.state = state.clone()?;
        Ok(*date)
    }

    fn forget(&mut self, date: u64) {
        let kept = count_until(&self.copies, date);
        self.copies.truncate(kept);
    }

    fn prune(&mut self, before: u64) -> u64 {
        let later = count_until(&self.copies, before);
        self.copies.drain(..later - 1);
        self.copies[0].0
    }
}
