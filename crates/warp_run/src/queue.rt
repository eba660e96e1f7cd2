//! The events that are to be run, in the order of their keys.
ghost use Rattle.std.specs.Prelude.{◌≡◌, ℕ, ◌<◌, ◌≤◌, List, [], ◌∷◌, map, OnOk, OnErr, IfSome, IfNone, refl};
ghost use Rattle.std.specs.BinaryHeap.{heap_items, IsHeap};
ghost use Rattle.std.specs.Cmp.{partial_equiv_from_equiv, eq_by_cmp_equiv, po};
ghost use Rattle.std.specs.Ordering.{as_partial_cmp, eq_by_cmp};
ghost use Rattle.warp_base.specs.declared.event.Event.{Event};
ghost use Rattle.warp_base.specs.Events.{Each};
ghost use Rattle.warp_base.specs.Sequential.{queued};
ghost use Rattle.warp_run.specs.Urgency.{urgency, urgency_of-total};
ghost use Rattle.warp_run.specs.Queues.{sorted};

use std::alloc::{AllocError, Global};
use std::cmp::Ordering;
use std::collections::BinaryHeap;
use std::marker::Model;
use warp_base::{Event, Payload};

/// An event in a heap, which gives the greatest first: the earlier event is the greater one.
#[derive(Drop)]
struct Urgent<P: Payload>(Event<P>);

impl<P: Payload> PartialEq for Urgent<P> {
    ghost eq = { eq_by_cmp (λ x y. urgency P.words x.0 y.0) };

    ghost laws = { partial_equiv_from_equiv (eq_by_cmp_equiv (urgency_of-total P.words (λ x. x.0))) };

    fn eq(&self, other: &Urgent<P>) -> bool {
        self.0.is_at_or_before(&other.0) && other.0.is_at_or_before(&self.0)
    }
}

impl<P: Payload> Eq for Urgent<P> {
    ghost laws = { eq_by_cmp_equiv (urgency_of-total P.words (λ x. x.0)) };
}

impl<P: Payload> PartialOrd for Urgent<P> {
    ghost partial_cmp = { as_partial_cmp (λ x y. urgency P.words x.0 y.0) };

    ghost laws = { po (urgency_of-total P.words (λ x. x.0)) (λ x y. refl) };

    fn partial_cmp(&self, other: &Urgent<P>) -> Option<Ordering> {
        Some(self.cmp(other))
    }
}

impl<P: Payload> Ord for Urgent<P> {
    ghost cmp = { λ x y. urgency P.words x.0 y.0 };

    ghost total = { urgency_of-total P.words (λ x. x.0) };

    ghost matches_partial_cmp = { λ x y. refl };

    ghost matches_eq = { λ x y. refl };

    fn cmp(&self, other: &Urgent<P>) -> Ordering {
        if !self.0.is_at_or_before(&other.0) {
            Ordering::Less
        } else if other.0.is_at_or_before(&self.0) {
            Ordering::Equal
        } else {
            Ordering::Greater
        }
    }
}

/// A queue of events, of which the first is taken each time. What a push costs, and what a pop,
/// grows with the logarithm of their number.
#[derive(Drop)]
pub struct EventQueue<P: Payload> {
    heap: BinaryHeap<Urgent<P>>,
}

/// The events in the order of their keys.
impl<P: Payload> Model for EventQueue<P> {
    ghost Value = { List (Event P) };

    ghost view = { λ q. sorted P.words (map (λ x. x.0) (heap_items q.heap)) };

    ghost invariant = { λ q. IsHeap (λ x y. urgency P.words x.0 y.0) (heap_items q.heap) };
}

impl<P: Payload> EventQueue<P> {
    /// A queue of no events.
    pub fn new(alloc: Global) -> EventQueue<P>
        ensures { result ≡ [] }
    {
        EventQueue {
            heap: BinaryHeap::new(alloc),
        }
    }

    /// Puts an event into its place.
    ///
    /// AllocError leaves the queue as it was.
    pub fn push(&mut self, event: Event<P>) -> Result<(), AllocError>
        ensures ok { OnOk result (self.new ≡ queued P.words event self.old) }
        ensures err { OnErr result (self.new ≡ self.old) }
    {
        self.heap.push(Urgent(event))?;
        Ok(())
    }

    /// Takes the first event out of the queue, unless it is later than `end`: then the queue stays.
    pub fn pop_until(&mut self, end: u64) -> Option<Event<P>>
        ensures first { IfSome result (λ e. (self.old ≡ e ∷ self.new) × (e.time ≤ end)) }
        ensures none { IfNone result ((self.new ≡ self.old) × Each (λ e. end < e.time) self.old) }
    {
        if self.heap.peek()?.0.time > end {
            return None;
        }
        let Urgent(event) = self.heap.pop()?;
        Some(event)
    }
}
