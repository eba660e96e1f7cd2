//! A queue of segments that berths share.
use crate::rule::{SegmentLine, SegmentPass};
use dym_region::{RawSegment, Segment};
use std::alloc::Global;
use std::marker::Model;
use std::sync::Arc;

/// What is left of a queue of segments once its berths were handed out: what `close` needs to have all segments back.
///
/// Contracts see its name, which is the origin of its berths, the identities that were put into it, and those that were laid
/// aside.
#[derive(Drop)]
pub struct QuotaQueue {
    pub(crate) line: Arc<SegmentLine, Global>,
    pub(crate) keeper: SegmentPass,
    pub(crate) aside: Vec<RawSegment>,
    pub(crate) count: usize,
}

impl Model for QuotaQueue {
    ghost use Rattle.std.specs.Prelude.{◌≡◌, ◌+◌, ◌<◌, ◌≤◌, [], ◌++◌, length, map, vec_len, vec_capacity};
    ghost use Rattle.std.specs.Arc.{arc_value};
    ghost use Rattle.crossbeam_queue.specs.Passes.{IsPassOf};
    ghost use Rattle.dym_region.specs.Identity.{AreDistinct};
    ghost use Rattle.dym_quota.specs.QueueShape.{QueueShape, queue_name, known_by};

    ghost Value = { QueueShape };

    ghost view = { λ q. record {
      name = queue_name q.keeper;
      stocked = (known_by q.keeper).stock;
      aside = map ⟦<RawSegment as Segment>⟧.id q.aside.items;
      room = vec_capacity q.aside;
    } };

    // The keeper has no quota of its own, the list has room for all that was stocked, and no identity was handed in twice.
    ghost invariant = { λ q. IsPassOf (arc_value q.line) q.keeper
        × ((known_by q.keeper).held ≡ []) × ((known_by q.keeper).quota ≡ 0)
        × (length (known_by q.keeper).stock ≡ q.count) × (0 < q.count)
        × (vec_len q.aside + q.count ≤ vec_capacity q.aside)
        × AreDistinct
        ((known_by q.keeper).stock ++ map ⟦<RawSegment as Segment>⟧.id q.aside.items) };
}
