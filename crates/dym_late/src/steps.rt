//! What an accepted event does to the heap and its logs.
ghost use Rattle.std.specs.Prelude.{◌≡◌, ◌↔◌, ◌+◌, ◌<◌, ◌≤◌, IsTrue, None, Some, [], ◌∷◌, ◌++◌, length, OnOk};
ghost use Rattle.std.specs.FinSet as FinSet;
ghost use Rattle.dym_base.specs.LateRun.{IsEventCommand, log_before};
ghost use Rattle.dym_base.specs.Objects as Objects;
ghost use Rattle.dym_base.specs.Objects.{LogEntry, newest};
ghost use Rattle.dym_base.specs.declared.command.Kind.TheVariants.{Inc};
ghost use Rattle.dym_base.specs.declared.limits.TheConstants.{COUNT_LIMIT};
ghost use Rattle.dym_heap.specs.Meaning.{IsSound};
ghost use Rattle.dym_heap.specs.Replies.{step_of, stepped, counted};
ghost use Rattle.dym_chain.specs.Chains.{Belongs, object_of};
ghost use Rattle.dym_late.specs.Marks.{IsLogPoint, start_of};

use crate::event::Event;
use dym_base::Kind;
use dym_base::limits::{EVENTS_PER_LATE_LOG, MOST_LATE_EVENTS};
use dym_chain::{Chain, LogError, VecKeep};
use dym_heap::Heap;
use dym_quota::Supply;
use std::alloc::{AllocError, Global};

/// Whether a log is taken where this many events are in the heap.
pub(crate) fn is_mark(position: usize) -> bool
    ensures { IsTrue result ↔ IsLogPoint position }
{
    position % EVENTS_PER_LATE_LOG == 0 && position < MOST_LATE_EVENTS as usize
}

/// The last position at or before a place at which a log is taken.
fn mark_before(place: usize) -> usize
    ensures { result ≡ log_before place }
{
    place - place % EVENTS_PER_LATE_LOG
}

/// Runs an event's command, and keeps its reply.
pub(crate) fn run_event<S: Supply>(heap: &mut Heap<S>, way: &S::Way, event: &mut Event)
    requires applied { heap.old.applied < COUNT_LIMIT }
    requires command { IsEventCommand event.old.command }
    ensures event { event.new
        ≡ record event.old { reply = (step_of heap.old event.old.command).reply } }
    ensures after { heap.new ≡ record (stepped
        (counted heap.old) event.old.command) { held_ids = heap.new.held_ids } }
    ensures sound { IsSound heap.new }
{
    event.reply = heap.apply(way, &event.command);
}

/// Logs the heap at a position. Only memory can be wanting.
pub(crate) fn take_log<S: Supply>(
    alloc: Global,
    heap: &mut Heap<S>,
    chain: &mut Chain<VecKeep>,
    position: usize,
    kind: Kind,
) -> Result<(), AllocError>
    requires belongs { Belongs heap.old.version heap.old.quota heap.old.state chain.old }
    requires sound { IsSound heap.old }
    requires made { chain.old.made < COUNT_LIMIT }
    requires idle { chain.old.lifted ≡ None }
    requires room { length chain.old.logs < 256 }
    requires later { (log : LogEntry) → newest chain.old.logs ≡ Some log → log.time < position }
    ensures live { heap.new.state.live ≡ heap.old.state.live }
    ensures touched { OnOk result (heap.new.state.touched ≡ FinSet.empty) }
    ensures heap { heap.new ≡ record heap.old { state = heap.new.state } }
    ensures logs { OnOk result (chain.new.logs
        ≡ chain.old.logs
        ++ Objects.new_entry (object_of heap.old.state chain.old) position kind ∷ []) }
    ensures made { chain.new.made ≤ chain.old.made + 1 }
    ensures belongs { Belongs heap.new.version heap.new.quota heap.new.state chain.new }
    ensures idle { chain.new.lifted ≡ None }
    ensures sound { IsSound heap.new }
{
    match chain.log(alloc, heap, position as u64, kind) {
        Ok(_) => Ok(()),
        Err(LogError::Memory) => Err(AllocError),
        Err(LogError::Refused(_)) => unreachable!(),
    }
}

/// Logs what changed of the heap, where a log is due at this position. Only memory can be wanting.
pub(crate) fn log_if_due<S: Supply>(
    alloc: Global,
    heap: &mut Heap<S>,
    chain: &mut Chain<VecKeep>,
    position: usize,
) -> Result<(), AllocError>
    requires belongs { Belongs heap.old.version heap.old.quota heap.old.state chain.old }
    requires sound { IsSound heap.old }
    requires made { chain.old.made < COUNT_LIMIT }
    requires idle { chain.old.lifted ≡ None }
    requires room { IsLogPoint position → length chain.old.logs < 256 }
    requires later { IsLogPoint position → (log : LogEntry) → newest chain.old.logs ≡ Some log
        → log.time < position }
    ensures live { heap.new.state.live ≡ heap.old.state.live }
    ensures heap { heap.new ≡ record heap.old { state = heap.new.state } }
    ensures logs { OnOk result (IsLogPoint position
        → chain.new.logs ≡ chain.old.logs
        ++ Objects.new_entry (object_of heap.old.state chain.old) position Inc ∷ []) }
    ensures none { (IsLogPoint position → ⊥) → chain.new.logs ≡ chain.old.logs }
    ensures made { chain.new.made ≤ chain.old.made + 1 }
    ensures belongs { Belongs heap.new.version heap.new.quota heap.new.state chain.new }
    ensures idle { chain.new.lifted ≡ None }
    ensures sound { IsSound heap.new }
{
    if !is_mark(position) {
        return Ok(());
    }
    take_log(alloc, heap, chain, position, Kind::Inc)
}

/// Restores the last log at or before a position, which is there.
fn rewind<S: Supply>(way: &S::Way, heap: &mut Heap<S>, chain: &mut Chain<VecKeep>, position: usize)
    requires belongs { Belongs heap.old.version heap.old.quota heap.old.state chain.old }
    requires sound { IsSound heap.old }
    requires idle { chain.old.lifted ≡ None }
    requires reached { 0 < Objects.reached position chain.old.logs }
    ensures after { object_of heap.new.state chain.new
        ≡ (Objects.restore (object_of heap.old.state chain.old) position).object }
    ensures chain { chain.new
        ≡ record chain.old { logs = chain.new.logs; records = chain.new.records } }
    ensures heap { heap.new
        ≡ record heap.old { state = heap.new.state; held_ids = heap.new.held_ids } }
    ensures belongs { Belongs heap.new.version heap.new.quota heap.new.state chain.new }
    ensures idle { chain.new.lifted ≡ None }
    ensures sound { IsSound heap.new }
{
    if chain.restore(way, heap, position as u64).is_err() {
        unreachable!();
    }
}

/// Brings the heap and its logs back to where the event of this place of so many can run, and answers from which place on
/// events are run. An event behind all others runs where the heap is.
pub(crate) fn drop_logs_after<S: Supply>(
    way: &S::Way,
    heap: &mut Heap<S>,
    chain: &mut Chain<VecKeep>,
    count: usize,
    place: usize,
) -> usize
    requires belongs { Belongs heap.old.version heap.old.quota heap.old.state chain.old }
    requires sound { IsSound heap.old }
    requires idle { chain.old.lifted ≡ None }
    requires reached { place < count → 0 < Objects.reached (log_before place) chain.old.logs }
    ensures start { result ≡ start_of count place }
    ensures ahead { place < count → object_of heap.new.state chain.new
        ≡ (Objects.restore (object_of heap.old.state chain.old) (log_before place)).object }
    ensures last { count ≤ place → (heap.new.state ≡ heap.old.state)
        × (chain.new.logs ≡ chain.old.logs) }
    ensures chain { chain.new
        ≡ record chain.old { logs = chain.new.logs; records = chain.new.records } }
    ensures heap { heap.new
        ≡ record heap.old { state = heap.new.state; held_ids = heap.new.held_ids } }
    ensures belongs { Belongs heap.new.version heap.new.quota heap.new.state chain.new }
    ensures idle { chain.new.lifted ≡ None }
    ensures sound { IsSound heap.new }
{
    if place >= count {
        return count;
    }
    let position = mark_before(place);
    rewind(way, heap, chain, position);
    position
}
