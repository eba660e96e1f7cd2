//! Running events whose effects are given: another program ran them, in place of a model.
ghost use Rattle.std.specs.Prelude.{◌≡◌, ℕ, ◌+◌, ◌-◌, ◌^◌, ◌<◌, ◌≤◌, ◌⊎◌, ◌++◌, ◌∷◌, [], List, length, map, false, OnOk, OnErr, IfOk, Err, Some, slice_get};
ghost use Rattle.warp_base.specs.declared.event.Event.{Event};
ghost use Rattle.warp_base.specs.declared.event.Draft.{Draft};
ghost use Rattle.warp_base.specs.Events.{Each};
ghost use Rattle.warp_base.specs.Histories.{Behaviour, stamped, state_after};
ghost use Rattle.warp_process.specs.Savers.{IsNewest};
ghost use Rattle.warp_process.specs.Processes.{face, done_of, IsProcess, IsSomeProcess, HasPosted};
ghost use Rattle.warp_process.specs.declared.run.RunError.TheVariants.{Memory, Counts};

use crate::process::Process;
use crate::run::RunError;
use crate::saver::StateSaver;
use crate::whole_copies::{Copied, WholeCopies};
use std::alloc::AllocError;
use warp_base::{Draft, Event, Message, Payload};

impl<P: Payload, S: Copied> Process<P, WholeCopies<S>> {
    /// The date of the oldest copy of the state.
    pub fn oldest_copy(&self) -> u64
        ensures { result ≡ self.now.first_date }
    {
        self.first_date
    }

    /// The date of the newest copy of the state.
    pub fn newest_copy(&self) -> u64
        requires { IsSomeProcess P.words (face (λ k. k.state) (λ k. k.copies.items) self.now) }
        ensures { (s : S) × IsNewest self.now.saver.copies.items result s }
    {
        self.saver.newest()
    }

    /// The event that is run, or is to be run, at a date: those from the oldest copy on are known.
    pub fn event_at(&self, date: u64) -> Option<Event<P>>
        requires { self.now.first_date ≤ date }
        ensures { result ≡ slice_get (self.now.fossils.items ++ self.now.events.items)
            (date - self.now.first_date) }
    {
        let place = (date - self.first_date) as usize;
        if place < self.fossils.len() {
            self.fossils.get(place).copied()
        } else {
            self.events.get(place - self.fossils.len()).copied()
        }
    }

    /// Takes a copy of the state, which isn't stale: it is newer than all others.
    pub fn keep_copy(&mut self) -> Result<(), AllocError>
        requires counted { self.old.first_date + length self.old.fossils.items + length self.old.marks.items < 2 ^ 64 }
        requires newest { Each (λ c. c.0 < self.old.first_date + length self.old.fossils.items
            + length self.old.marks.items) self.old.saver.copies.items }
        ensures ok { OnOk result (face (λ k. k.state) (λ k. k.copies.items) self.new
            ≡ record (face (λ k. k.state) (λ k. k.copies.items) self.old) {
              copies = self.old.saver.copies.items ++ (
                self.old.first_date + length self.old.fossils.items
                    + length self.old.marks.items,
                self.old.saver.state,
              ) ∷ [];
            }) }
        ensures err { OnErr result (face (λ k. k.state) (λ k. k.copies.items) self.new
            ≡ face (λ k. k.state) (λ k. k.copies.items) self.old) }
    {
        let date = self.date();
        self.saver.save_given(date)
    }

    /// Drops the newest copy.
    pub fn drop_copy(&mut self)
        ensures { (copies : List (ℕ × S)) (c : ℕ × S) → self.old.saver.copies.items ≡ copies ++ c ∷ []
            → face (λ k. k.state) (λ k. k.copies.items) self.new
            ≡ record (face (λ k. k.state) (λ k. k.copies.items) self.old) { copies = copies } }
    {
        self.saver.drop_newest();
    }

    /// Counts the next event as run: the state that it led to, which is no fault, and what it sent, are given. What it sent goes
    /// out. The state may have been stale before.
    ///
    /// An error leaves the process as it was, and puts nothing out.
    pub fn run_given(
        &mut self,
        state: S,
        drafts: &[Draft<P>],
        out: &mut Vec<Message<P>>,
    ) -> Result<(), RunError>
        requires more { length self.old.marks.items < length self.old.events.items }
        ensures kept { OnOk result ((b : Behaviour P S) (past : List (Event P)) (event : Event P)
            → IsProcess P.words b past (face (λ k. k.state) (λ k. k.copies.items) self.old)
            → slice_get self.old.events.items (length self.old.marks.items) ≡ Some event
            → state ≡ b.after self.old.number (state_after b self.old.number (done_of past (face (λ k. k.state) (λ k. k.copies.items) self.old))) event
            → drafts.now ≡ b.drafts self.old.number (state_after b self.old.number (done_of past (face (λ k. k.state) (λ k. k.copies.items) self.old))) event
            → b.faulty state ≡ false
            → IsProcess P.words b past (face (λ k. k.state) (λ k. k.copies.items) self.new)) }
        ensures posted { OnOk result ((time : ℕ) → Each (λ d. time < d.time) drafts.now
            → HasPosted P.words time self.old.sent.items self.new.sent.items out.old.items out.new.items) }
        ensures ran { OnOk result (length self.new.marks.items ≡ length self.old.marks.items + 1) }
        ensures fresh { OnOk result (self.new.is_stale ≡ false) }
        ensures state { OnOk result (self.new.saver.state ≡ state) }
        ensures copies { self.new.saver.copies ≡ self.old.saver.copies }
        ensures unposted { OnErr result (out.new.items ≡ out.old.items) }
        ensures unchanged { OnErr result (face (λ k. k.state) (λ k. k.copies.items) self.new ≡ face (λ k. k.state) (λ k. k.copies.items) self.old) }
        ensures rest { self.new ≡ record self.old { marks = self.new.marks; sent = self.new.sent; serial = self.new.serial; saver = self.new.saver; is_stale = self.new.is_stale } }
        ensures many { result ≡ Err Counts → (2 ^ 64 ≤ self.old.serial + length drafts.now)
            ⊎ (2 ^ 64 ≤ self.old.first_date + length self.old.fossils.items + length self.old.marks.items + 1) }
    {
        self.finish(drafts, out)?;
        self.saver.set_state(state);
        self.is_stale = false;
        Ok(())
    }
}
