//! A heap of late events.
ghost use Rattle.std.specs.Prelude.{◌≡◌, ◌↔◌, ◌+◌, ◌<◌, ◌≤◌, max, false, true, Some, [], ◌∷◌, ◌++◌, length, OnOk, IfOk, IfErr};
ghost use Rattle.dym_base.specs.LateRun as LateRun;
ghost use Rattle.dym_base.specs.LateRun.{IsEventCommand, events_to, late_reply, replayed_by};
ghost use Rattle.dym_base.specs.declared.command.Version.TheVariants.{One};
ghost use Rattle.dym_base.specs.declared.limits.TheConstants.{MOST_QUOTA};
ghost use Rattle.dym_base.specs.declared.limits.TheConstants.{MOST_LATE_EVENTS};
ghost use Rattle.dym_late.specs.Answers.{IsEarly, IfEarly, IsMemory};
ghost use Rattle.dym_late.specs.Marks.{last_log_point, oldest_log_point};
ghost use Rattle.dym_late.specs.Meaning.{IsLate, fresh_late};

use crate::late_error::LateError;
use crate::placement::Placed;
use crate::timeline::Timeline;
use dym_base::{Command, Reply};
use dym_heap::Heap;
use dym_quota::Supply;
use std::alloc::{AllocError, Global};
use std::marker::Model;

/// A heap whose events come in any order of their times: it is always the one that they make in the order of
/// (time, arrival).
///
/// Contracts see the heap, the accepted events in the order of arrival, the greatest time that was committed, and whether the
/// heap is broken. Only `open` and `put` take memory. A heap of late events is broken once memory was wanting for an event: of one
/// that is, only `bound`, `broken` and `end` may be called.
pub struct LateHeap<S: Supply> {
    timeline: Timeline<S>,
    broken: bool,
}

impl<S: Supply> Model for LateHeap<S> {
    ghost use Rattle.std.specs.Coded.{codes};
    ghost use Rattle.dym_heap.specs.Meaning.{live_code, touched_code};
    ghost use Rattle.dym_late.specs.Meaning.{LateMeaning};

    ghost Value = { LateMeaning };

    ghost coded = { Prim.hlevel (codes, live_code, touched_code) };

    ghost use Rattle.dym_late.specs.Timelines.{late_events, IsWholeUnless};

    ghost view = { λ l. record {
      heap = l.timeline.heap;
      events = late_events l.timeline.events.items;
      bound = l.timeline.bound;
      broken = l.broken;
    } };

    ghost invariant = { λ l. IsWholeUnless l.broken l.timeline.bound l.timeline.events.items
        l.timeline.order.items l.timeline.heap l.timeline.chain };
}

impl<S: Supply> LateHeap<S> {
    /// An empty heap of version 1 with no event and the bound 0. Where memory is wanting, the supply comes back, with nothing
    /// held.
    pub fn open(way: &S::Way, alloc: Global, supply: S) -> Result<LateHeap<S>, (AllocError, S)>
        requires nothing_held { S.held_ids supply ≡ [] }
        requires least { 1 ≤ S.quota_of supply }
        requires most { S.quota_of supply ≤ MOST_QUOTA }
        ensures opened { IfOk result (λ l. l ≡ fresh_late (S.quota_of supply) (S.origin supply)) }
        ensures late { IfOk result IsLate }
        ensures nothing_held { IfErr result (λ e. S.held_ids e.1 ≡ []) }
        ensures quota { IfErr result (λ e. S.quota_of e.1 ≡ S.quota_of supply) }
        ensures origin { IfErr result (λ e. S.origin e.1 ≡ S.origin supply) }
    {
        match Timeline::open(way, alloc, supply) {
            Ok(timeline) => Ok(LateHeap {
                timeline,
                broken: false,
            }),
            Err(refused) => Err(refused),
        }
    }

    /// Accepts an event, unless its time is before the bound. It runs at its place in the order of the times, behind those that
    /// came before it with the same time, and what stands behind it runs again from the last log at or before its place on.
    ///
    /// Where memory is wanting, its command is gone and the heap of late events is broken.
    pub fn put(
        &mut self,
        way: &S::Way,
        alloc: Global,
        time: u64,
        command: Command,
    ) -> Result<Placed, LateError>
        requires whole { self.old.broken ≡ false }
        requires room { length self.old.events < MOST_LATE_EVENTS }
        requires command { IsEventCommand command }
        ensures early { IsEarly result ↔ time < self.old.bound }
        ensures back { IfEarly result (λ b c. (b ≡ self.old.bound) × (c ≡ command)) }
        ensures unchanged { IsEarly result → self.new ≡ self.old }
        ensures broken { self.new.broken ≡ true ↔ IsMemory result }
        ensures events { OnOk result (self.new.events
            ≡ self.old.events ++ record { time = time; command = command } ∷ []) }
        ensures placed { IfOk result (λ placed. placed.at ≡ events_to time self.old.events) }
        ensures replayed { IfOk result (λ placed.
            placed.replayed
            ≡ replayed_by (length self.old.events) (events_to time self.old.events)) }
        ensures applied { IfOk result (λ placed.
            self.new.heap.applied ≡ self.old.heap.applied + placed.replayed) }
        ensures late { OnOk result (IsLate self.new) }
        ensures bound { self.new.bound ≡ self.old.bound }
        ensures quota { self.new.heap.quota ≡ self.old.heap.quota }
        ensures origin { self.new.heap.origin ≡ self.old.heap.origin }
    {
        let bound = self.timeline.bound;
        if time < bound {
            return Err(LateError::Early { bound, command });
        }
        match self.timeline.accept(way, alloc, time, command) {
            Ok(placed) => Ok(placed),
            Err(_) => {
                self.broken = true;
                Err(LateError::Memory)
            }
        }
    }

    /// Commits a time: no event before it is accepted any more. A time that goes back changes nothing. Logs that no later event
    /// can need are dropped, and the answer is how many.
    pub fn commit(&mut self, time: u64) -> u32
        requires { self.old.broken ≡ false }
        ensures after { self.new ≡ record self.old { bound = max self.old.bound time } }
        ensures dropped { result + oldest_log_point self.old.bound self.old.events
            ≡ oldest_log_point self.new.bound self.old.events }
        ensures late { IsLate self.new }
    {
        self.timeline.commit(time)
    }

    /// How many events were accepted.
    pub fn len(&self) -> u32
        requires { self.now.broken ≡ false }
        ensures len { result ≡ length self.now.events }
        ensures late { IsLate self.now }
    {
        self.timeline.events.len() as u32
    }

    /// How many logs are kept: one at every 16 events of the order, from the newest one on that no event to come can stand before.
    pub fn logs(&self) -> u32
        requires { self.now.broken ≡ false }
        ensures kept { result + oldest_log_point self.now.bound self.now.events
            ≡ last_log_point (length self.now.events) + 1 }
    {
        self.timeline.chain.kept()
    }

    /// The greatest time that was committed, and 0 before the first commit.
    pub fn bound(&self) -> u64
        ensures { result ≡ self.now.bound }
    {
        self.timeline.bound
    }

    /// Whether memory was wanting for an event.
    pub fn broken(&self) -> bool
        ensures { result ≡ self.now.broken }
    {
        self.broken
    }

    /// How many commands were run, those that ran again each time that they did.
    pub fn replayed(&self) -> u64
        requires { self.now.broken ≡ false }
        ensures replayed { result ≡ LateRun.replayed self.now.events }
        ensures applied { result ≡ self.now.heap.applied }
    {
        self.timeline.heap.applied()
    }

    /// The reply to the event of number `k` in the order of arrival, which is that of its place in the order of the times.
    pub fn reply(&self, k: u32) -> &Reply
        requires whole { self.now.broken ≡ false }
        requires there { k < length self.now.events }
        ensures { late_reply One self.now.heap.quota self.now.events k ≡ Some result.now }
    {
        &self.timeline.events[k as usize].reply
    }

    /// The heap that the accepted events make.
    pub fn heap(&self) -> &Heap<S>
        requires { self.now.broken ≡ false }
        ensures heap { result.now ≡ self.now.heap }
        ensures late { IsLate self.now }
    {
        &self.timeline.heap
    }

    /// Gives all segments back, and answers the supply.
    pub fn end(self, way: &S::Way) -> S
        ensures nothing_held { S.held_ids result ≡ [] }
        ensures quota { S.quota_of result ≡ self.heap.quota }
        ensures origin { S.origin result ≡ self.heap.origin }
    {
        let LateHeap {
            timeline,
            broken: _,
        } = self;
        timeline.end(way)
    }
}
