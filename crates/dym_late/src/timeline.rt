//! A heap with its logs and its events.
ghost use Rattle.std.specs.Prelude.{◌≡◌, ◌+◌, ◌^◌, ◌<◌, ◌≤◌, max, None, [], ◌∷◌, ◌++◌, length, OnOk, IfOk, IfErr};
ghost use Rattle.dym_base.specs.Objects.{empty_heap};
ghost use Rattle.dym_base.specs.LateRun.{IsEventCommand, events_to, replayed_by};
ghost use Rattle.dym_base.specs.declared.command.Version.TheVariants.{One};
ghost use Rattle.dym_base.specs.declared.limits.TheConstants.{MOST_QUOTA};
ghost use Rattle.dym_heap.specs.Meaning.{IsSound};
ghost use Rattle.dym_chain.specs.Chains.{Belongs};
ghost use Rattle.dym_base.specs.declared.limits.TheConstants.{MOST_LATE_EVENTS};
ghost use Rattle.dym_late.specs.Marks.{oldest_log_point};
ghost use Rattle.dym_late.specs.Meaning.{fresh_heap};
ghost use Rattle.dym_late.specs.Timelines.{late_events, IsRun, IsWhole};

use crate::event::Event;
use crate::placement::Placed;
use crate::positions::{count_before, count_to};
use crate::steps::{drop_logs_after, log_if_due, run_event, take_log};
use dym_base::{Command, Kind, Reply};
use dym_chain::laws::heap_steps_keep_belonging;
use dym_chain::{Chain, VecKeep};
use dym_heap::Heap;
use dym_quota::Supply;
use std::alloc::{AllocError, Global};

/// A heap with its logs, the events in the order of arrival, and their numbers in the order of their times.
pub(crate) struct Timeline<S: Supply> {
    pub(crate) heap: Heap<S>,
    pub(crate) chain: Chain<VecKeep>,
    pub(crate) events: Vec<Event>,
    pub(crate) order: Vec<u32>,
    pub(crate) bound: u64,
}

impl<S: Supply> Timeline<S> {
    /// A heap with no event, and a full log of it. Where memory is wanting, the supply comes back, with nothing held.
    pub(crate) fn open(
        way: &S::Way,
        alloc: Global,
        supply: S,
    ) -> Result<Timeline<S>, (AllocError, S)>
        requires nothing_held { S.held_ids supply ≡ [] }
        requires least { 1 ≤ S.quota_of supply }
        requires most { S.quota_of supply ≤ MOST_QUOTA }
        ensures whole { IfOk result (λ t. IsWhole 0 t.events.items t.order.items t.heap t.chain) }
        ensures heap { IfOk result
            (λ t. t.heap ≡ fresh_heap (S.quota_of supply) (S.origin supply)) }
        ensures events { IfOk result (λ t. t.events.items ≡ []) }
        ensures bound { IfOk result (λ t. t.bound ≡ 0) }
        ensures nothing_held { IfErr result (λ e. S.held_ids e.1 ≡ []) }
        ensures quota { IfErr result (λ e. S.quota_of e.1 ≡ S.quota_of supply) }
        ensures origin { IfErr result (λ e. S.origin e.1 ≡ S.origin supply) }
    {
        let keep = match VecKeep::open(alloc) {
            Ok(keep) => keep,
            Err(why) => return Err((why, supply)),
        };
        let chain = match Chain::open(alloc, keep) {
            Ok(chain) => chain,
            Err((why, _keep)) => return Err((why, supply)),
        };
        match Heap::open(alloc, supply) {
            Ok(heap) => Timeline::with_log(way, alloc, heap, chain),
            Err(refused) => {
                chain.into_keep();
                Err(refused)
            }
        }
    }

    /// A heap with no event and a chain with no log, of which a full log is taken.
    fn with_log(
        way: &S::Way,
        alloc: Global,
        mut heap: Heap<S>,
        mut chain: Chain<VecKeep>,
    ) -> Result<Timeline<S>, (AllocError, S)>
        requires version { heap.version ≡ One }
        requires empty { heap.state ≡ empty_heap }
        requires applied { heap.applied ≡ 0 }
        requires sound { IsSound heap }
        requires logs { chain.logs ≡ [] }
        requires made { chain.made ≡ 0 }
        requires idle { chain.lifted ≡ None }
        requires belongs { Belongs heap.version heap.quota heap.state chain }
        ensures whole { IfOk result (λ t. IsWhole 0 t.events.items t.order.items t.heap t.chain) }
        ensures heap { IfOk result (λ t. t.heap ≡ heap) }
        ensures events { IfOk result (λ t. t.events.items ≡ []) }
        ensures bound { IfOk result (λ t. t.bound ≡ 0) }
        ensures nothing_held { IfErr result (λ e. S.held_ids e.1 ≡ []) }
        ensures quota { IfErr result (λ e. S.quota_of e.1 ≡ heap.quota) }
        ensures origin { IfErr result (λ e. S.origin e.1 ≡ heap.origin) }
    {
        match take_log(alloc, &mut heap, &mut chain, 0, Kind::Full) {
            Ok(()) => Ok(Timeline {
                heap,
                chain,
                events: Vec::new(alloc),
                order: Vec::new(alloc),
                bound: 0,
            }),
            Err(error) => {
                chain.into_keep();
                Err((error, heap.end(way)))
            }
        }
    }

    /// Puts an event into its place of the order and runs it, after it those that stand behind it.
    pub(crate) fn accept(
        &mut self,
        way: &S::Way,
        alloc: Global,
        time: u64,
        command: Command,
    ) -> Result<Placed, AllocError>
        requires whole { IsWhole self.old.bound self.old.events.items self.old.order.items
            self.old.heap self.old.chain }
        requires room { length self.old.events.items < MOST_LATE_EVENTS }
        requires time { self.old.bound ≤ time }
        requires command { IsEventCommand command }
        ensures whole { OnOk result (IsWhole self.new.bound self.new.events.items
            self.new.order.items self.new.heap self.new.chain) }
        ensures events { OnOk result (late_events self.new.events.items
            ≡ late_events self.old.events.items ++ record { time = time; command = command } ∷ []) }
        ensures placed { IfOk result (λ placed.
            placed.at ≡ events_to time (late_events self.old.events.items)) }
        ensures replayed { IfOk result (λ placed.
            placed.replayed ≡ replayed_by (length self.old.events.items) (events_to time
            (late_events self.old.events.items))) }
        ensures applied { IfOk result (λ placed.
            self.new.heap.applied ≡ self.old.heap.applied + placed.replayed) }
        ensures bound { self.new.bound ≡ self.old.bound }
        ensures quota { self.new.heap.quota ≡ self.old.heap.quota }
        ensures origin { self.new.heap.origin ≡ self.old.heap.origin }
        ensures idle { self.new.chain.lifted ≡ None }
    {
        let count = self.events.len();
        let place = count_to(&self.events, &self.order, time);
        self.order.insert(place, count as u32)?;
        self.events.push(Event {
            time,
            command,
            reply: Reply::Done,
        })?;
        let start = drop_logs_after(way, &mut self.heap, &mut self.chain, count, place);
        self.replay(way, alloc, start)?;
        Ok(Placed {
            at: place as u32,
            replayed: (count + 1 - start) as u32,
        })
    }

    /// Raises the bound to a time, and drops the logs before the last one at or before the number of events with a time before
    /// the bound. The answer is how many.
    pub(crate) fn commit(&mut self, time: u64) -> u32
        requires whole { IsWhole self.old.bound self.old.events.items self.old.order.items
            self.old.heap self.old.chain }
        ensures whole { IsWhole self.new.bound self.new.events.items self.new.order.items
            self.new.heap self.new.chain }
        ensures bound { self.new.bound ≡ max self.old.bound time }
        ensures heap { self.new.heap ≡ self.old.heap }
        ensures events { self.new.events.items ≡ self.old.events.items }
        ensures dropped { result + oldest_log_point self.old.bound (late_events self.old.events.items)
            ≡ oldest_log_point self.new.bound (late_events self.old.events.items) }
    {
        self.bound = self.bound.max(time);
        let position = count_before(&self.events, &self.order, self.bound);
        self.chain.prune(position as u64)
    }

    /// Runs the events of the order from a place on, and takes a log wherever one is due.
    pub(crate) fn replay(
        &mut self,
        way: &S::Way,
        alloc: Global,
        start: usize,
    ) -> Result<(), AllocError>
        requires run { IsRun start self.old.bound self.old.events.items self.old.order.items
            self.old.heap self.old.chain }
        requires start { start ≤ length self.old.events.items }
        requires applied { self.old.heap.applied < 2 ^ 30 }
        requires made { self.old.chain.made < 2 ^ 30 }
        ensures run { OnOk result (IsRun (length self.new.events.items) self.old.bound
            self.new.events.items self.old.order.items self.new.heap self.new.chain) }
        ensures events { late_events self.new.events.items ≡ late_events self.old.events.items }
        ensures order { self.new.order ≡ self.old.order }
        ensures bound { self.new.bound ≡ self.old.bound }
        ensures applied { OnOk result (self.new.heap.applied + start
            ≡ self.old.heap.applied + length self.old.events.items) }
        ensures made { OnOk result (self.new.chain.made + start
            ≤ self.old.chain.made + length self.old.events.items) }
        ensures quota { self.new.heap.quota ≡ self.old.heap.quota }
        ensures origin { self.new.heap.origin ≡ self.old.heap.origin }
        ensures idle { self.new.chain.lifted ≡ None }
    {
        heap_steps_keep_belonging();
        for place in start..self.order.len() {
            let event = &mut self.events[self.order[place] as usize];
            run_event(&mut self.heap, way, event);
            log_if_due(alloc, &mut self.heap, &mut self.chain, place + 1)?;
        }
        Ok(())
    }

    /// Gives all segments back, and answers the supply.
    pub(crate) fn end(self, way: &S::Way) -> S
        requires { self.chain.lifted ≡ None }
        ensures nothing_held { S.held_ids result ≡ [] }
        ensures quota { S.quota_of result ≡ self.heap.quota }
        ensures origin { S.origin result ≡ self.heap.origin }
    {
        let Timeline {
            heap,
            chain,
            events: _,
            order: _,
            bound: _,
        } = self;
        chain.into_keep();
        heap.end(way)
    }
}
