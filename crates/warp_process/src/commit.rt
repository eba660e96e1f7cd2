//! Committing.
ghost use Rattle.std.specs.Prelude.{◌≡◌, ◌+◌, ◌-◌, ◌≤◌, ◌↔◌, IsTrue, suc, List, length, take, drop, vec_len, vec_capacity, OnOk, OnErr};
ghost use Rattle.warp_base.specs.declared.event.Event.{Event};
ghost use Rattle.warp_base.specs.Events.{Each, AreFrom};
ghost use Rattle.warp_base.specs.Histories.{Behaviour, state_after, sent_from, all_sent};
ghost use Rattle.warp_process.specs.Processes.{face, bound_of, IsProcess, IsSomeProcess, Stays, HasCommitted};
ghost use Rattle.warp_process.specs.Savers.{KeepsFrom};

use crate::places::{append_reserved, are_later, count_until, drop_first};
use crate::process::Process;
use crate::saver::StateSaver;
use std::alloc::AllocError;
use warp_base::{Event, Payload};

impl<P: Payload, K: StateSaver> Process<P, K> {
    /// How many events of `sent` the first events sent, of those that are run.
    fn sent_by(&self, count: usize) -> usize
        requires process { IsSomeProcess P.words (face K.state K.copies self.now) }
        requires within { count ≤ length self.now.marks.items }
        ensures within { result ≤ length self.now.sent.items }
        ensures sent { (b : Behaviour P K.State) (past : List (Event P)) → IsProcess P.words b past (face K.state K.copies self.now)
            → result ≡ length (sent_from b self.now.number (length (all_sent b self.now.number past)) (state_after b self.now.number past) (take count self.now.events.items)) }
    {
        match self.marks.get(count) {
            Some(mark) => {
                let before = self.serial - self.sent.len() as u64;
                (*mark - before) as usize
            }
            None => self.sent.len(),
        }
    }

    /// Hands the first events out, which are run, as committed up to a time; there is room for them.
    fn hand_over(&mut self, count: usize, last: u64, out: &mut Vec<Event<P>>)
        requires process { IsSomeProcess P.words (face K.state K.copies self.old) }
        requires forward { bound_of self.old.last ≤ suc last }
        requires within { count ≤ length self.old.marks.items }
        requires before { Each (λ (e : Event P). e.time ≤ last) (take count self.old.events.items) }
        requires behind { AreFrom (suc last) (drop count self.old.events.items) }
        requires early { AreFrom (suc last) self.old.early.items }
        requires fossils_room { vec_len self.old.fossils + count ≤ vec_capacity self.old.fossils }
        requires out_room { vec_len out.old + count ≤ vec_capacity out.old }
        ensures committed { HasCommitted P.words last (face K.state K.copies self.old) (face K.state K.copies self.new) out.old.items out.new.items }
        ensures date { length self.new.fossils.items + length self.new.marks.items ≡ length self.old.fossils.items + length self.old.marks.items }
        ensures rest { self.new ≡ record self.old { last = self.new.last; events = self.new.events; marks = self.new.marks; sent = self.new.sent; fossils = self.new.fossils } }
    {
        let first = self.sent_by(count);
        let committed = &self.events[..count];
        append_reserved(committed, &mut self.fossils);
        append_reserved(committed, out);
        drop_first(&mut self.events, count);
        drop_first(&mut self.marks, count);
        drop_first(&mut self.sent, first);
        self.last = Some(last);
    }

    /// Drops the copies that no rollback needs, and the fossils that no replay needs.
    fn prune(&mut self)
        requires process { IsSomeProcess P.words (face K.state K.copies self.old) }
        ensures kept { Stays P.words (face K.state K.copies self.old) (face K.state K.copies self.new) }
        ensures rest { self.new ≡ record self.old { first_date = self.new.first_date; fossils = self.new.fossils; saver = self.new.saver } }
        ensures copies { KeepsFrom (K.copies self.old.saver) (self.old.first_date + length self.old.fossils.items)
            self.new.first_date (K.copies self.new.saver) }
        ensures state { K.state self.new.saver ≡ K.state self.old.saver }
    {
        let committed = self.first_date + self.fossils.len() as u64;
        let oldest = self.saver.prune(committed);
        drop_first(&mut self.fossils, (oldest - self.first_date) as usize);
        self.first_date = oldest;
    }

    /// Whether all up to a time can be committed: no event there is still to be run, and no
    /// anti-message waits for its event.
    pub fn is_settled(&self, last: u64) -> bool
        requires process { IsSomeProcess P.words (face K.state K.copies self.now) }
        ensures { IsTrue result ↔ (AreFrom (suc last) (drop (length self.now.marks.items) self.now.events.items) × AreFrom (suc last) self.now.early.items) }
    {
        let count = count_until(&self.events, last);
        if count > self.marks.len() {
            return false;
        }
        are_later(&self.early, last)
    }

    /// Commits all events up to a time, at which the run in order is settled: they go to the end of
    /// `out`, in the order of their keys, and can't be undone any more. Copies that no rollback needs
    /// are dropped.
    ///
    /// At AllocError nothing is changed.
    pub fn commit(&mut self, last: u64, out: &mut Vec<Event<P>>) -> Result<(), AllocError>
        requires process { IsSomeProcess P.words (face K.state K.copies self.old) }
        requires forward { bound_of self.old.last ≤ suc last }
        requires ran { AreFrom (suc last) (drop (length self.old.marks.items) self.old.events.items) }
        requires early { AreFrom (suc last) self.old.early.items }
        ensures committed { OnOk result (HasCommitted P.words last (face K.state K.copies self.old) (face K.state K.copies self.new) out.old.items out.new.items) }
        ensures pruned { OnOk result (KeepsFrom (K.copies self.old.saver) (self.old.first_date + length self.old.fossils.items + (length self.old.marks.items - length self.new.marks.items)) self.new.first_date (K.copies self.new.saver)) }
        ensures state { OnOk result ((K.state self.new.saver ≡ K.state self.old.saver) × (self.new.is_stale ≡ self.old.is_stale)) }
        ensures unchanged { OnErr result (face K.state K.copies self.new ≡ face K.state K.copies self.old) }
        ensures unposted { OnErr result (out.new.items ≡ out.old.items) }
    {
        let count = count_until(&self.events, last);
        self.fossils.reserve(count)?;
        out.reserve(count)?;
        self.hand_over(count, last, out);
        self.prune();
        Ok(())
    }
}
