//! A right to a part of a queue's segments.
ghost use Rattle.std.specs.Prelude.{None, ◌≡◌, ◌<◌, ◌≤◌, ◌++◌, [], ◌∷◌, length};
ghost use Rattle.std.specs.Arc.{arc_value};
ghost use Rattle.crossbeam_queue.specs.Passes.{view, IsPassOf, ruled_capacity};
ghost use Rattle.dym_quota.specs.HeldIds.{IsHeld, GivesBack};

use crate::rule::{SegmentLine, SegmentPass};
use crate::steps::{give, take};
use crate::supply::Supply;
use dym_region::RawSegment;
use std::alloc::Global;
use std::marker::PhantomData;
use std::sync::{Arc, Wait};

/// A supply of segments that stand in one queue, which other berths take from too.
///
/// It may hold as many as its quota. `take` gives the segment at the queue's front, and `give` puts one at its back;
/// either may wait for another thread that is within a call. Neither takes memory, and below its quota a berth always
/// gets a segment. Contracts see its quota, what it holds, and its queue's name as its origin.
#[derive(Drop)]
pub struct Berth<R> {
    pub(crate) line: Arc<SegmentLine, Global>,
    pub(crate) pass: SegmentPass,
    pub(crate) quota: u32,
    pub(crate) held: u32,
    pub(crate) marker: PhantomData<R>,
    ghost of_line: { IsPassOf (arc_value line) pass },
    ghost room: { length (view pass).stock ≤ ruled_capacity (arc_value line) },
    ghost some_quota: { 0 < quota },
    ghost counts_quota: { (view pass).quota ≡ quota },
    ghost counts_held: { length (view pass).held ≡ held },
}

impl<R: Wait> Supply for Berth<R> {
    type Seg = RawSegment;

    type Way = R;

    ghost use Rattle.dym_base.specs.Origins.{shared};
    ghost use Rattle.dym_quota.specs.QueueShape.{queue_name, known_by};

    ghost quota_of = { λ b. b.quota };

    ghost held_ids = { λ b. (known_by b.pass).held };

    ghost origin = { λ b. shared (queue_name b.pass) };

    ghost binding = { λ _ _. None };

    ghost binding_apart = { λ _ _. tt };

    fn quota(&self) -> u32 {
        self.quota
    }

    fn held(&self) -> u32 {
        self.held
    }

    fn take(&mut self, way: &R, _class: u32, _ordinal: u32) -> RawSegment {
        let segment = take(way, &self.line, &mut self.pass);
        self.held += 1;
        segment
    }

    fn give(&mut self, way: &R, segment: RawSegment) {
        give(way, &self.line, &mut self.pass, segment);
        self.held -= 1;
    }
}
