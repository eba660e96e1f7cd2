//! How a queue of segments is closed: the berths become one pass again, which takes all segments out.
ghost use Rattle.std.specs.Prelude.{◌≡◌, ◌+◌, ◌<◌, ◌≤◌, [], ◌++◌, length, map, sum_by, vec_len, vec_capacity, All, IsPermutation};
ghost use Rattle.crossbeam_queue.specs.Passes.{view, IsPassOf};
ghost use Rattle.dym_base.specs.Origins.{shared};
ghost use Rattle.dym_region.specs.Identity.{AreDistinct};
ghost use Rattle.dym_quota.specs.Berths.{IsIdleBerth};
ghost use Rattle.dym_quota.specs.QueueShape.{queue_name};

use crate::berth::Berth;
use crate::quota_queue::QuotaQueue;
use crate::rule::{SegmentLine, SegmentPass};
use crate::steps::{join, learn_all, take};
use crate::supply::Supply;
use dym_region::{RawSegment, Segment};
use std::sync::Wait;

impl QuotaQueue {
    /// All segments that `open` was handed, in any order and in the same list. The berths are all those that `open` gave, and
    /// hold nothing. No memory is taken.
    pub fn close<R: Wait>(self, way: &R, berths: Vec<Berth<R>>) -> Vec<RawSegment>
        requires origin { All (λ b. ⟦<Berth<R> as Supply>⟧.origin b ≡ shared self.name)
            berths.items }
        requires quotas { sum_by ⟦<Berth<R> as Supply>⟧.quota_of berths.items
            ≡ length self.stocked }
        requires nothing_held { All (λ b. ⟦<Berth<R> as Supply>⟧.held_ids b ≡ []) berths.items }
        ensures all { IsPermutation (self.stocked ++ self.aside)
            (map ⟦<RawSegment as Segment>⟧.id result.items) }
        ensures distinct { AreDistinct (map ⟦<RawSegment as Segment>⟧.id result.items) }
        ensures room { vec_capacity result ≡ self.room }
    {
        let QuotaQueue {
            line,
            mut keeper,
            mut aside,
            count,
        } = self;
        join_all(&line, &mut keeper, berths);
        take_all(way, &line, &mut keeper, &mut aside, count);
        learn_all(&line, &mut keeper);
        aside
    }
}

/// Puts the berths' passes into the keeper.
fn join_all<R>(line: &SegmentLine, keeper: &mut SegmentPass, mut berths: Vec<Berth<R>>)
    requires queue { IsPassOf line.now keeper.old }
    requires stocked { 0 < length (view keeper.old).stock }
    requires nothing_held { (view keeper.old).held ≡ [] }
    requires idle { All (IsIdleBerth (queue_name keeper.old)) berths.items }
    ensures queue { IsPassOf line.now keeper.new }
    ensures quota { (view keeper.new).quota
        ≡ (view keeper.old).quota + sum_by (λ b. b.quota) berths.items }
    ensures holds_nothing { (view keeper.new).held ≡ [] }
    ensures stock { (view keeper.new).stock ≡ (view keeper.old).stock }
{
    while let Some(berth) = berths.pop() {
        join(line, keeper, berth.into_pass());
    }
}

/// Takes `count` segments out of the queue into a list with room for them.
fn take_all<R: Wait>(
    way: &R,
    line: &SegmentLine,
    keeper: &mut SegmentPass,
    segments: &mut Vec<RawSegment>,
    count: usize,
)
    requires queue { IsPassOf line.now keeper.old }
    requires nothing_held { (view keeper.old).held ≡ [] }
    requires quota { count ≤ (view keeper.old).quota }
    requires room { vec_len segments.old + count ≤ vec_capacity segments.old }
    ensures queue { IsPassOf line.now keeper.new }
    ensures all { length (view keeper.new).held ≡ count }
    ensures taken { map ⟦<RawSegment as Segment>⟧.id segments.new.items
        ≡ map ⟦<RawSegment as Segment>⟧.id segments.old.items ++ (view keeper.new).held }
    ensures quota { (view keeper.new).quota ≡ (view keeper.old).quota }
    ensures stock { (view keeper.new).stock ≡ (view keeper.old).stock }
    ensures capacity { vec_capacity segments.new ≡ vec_capacity segments.old }
{
    for _k in 0..count {
        let segment = take(way, line, keeper);
        segments.push_reserved(segment);
    }
}

impl<R> Berth<R> {
    /// The berth's pass alone.
    fn into_pass(self) -> SegmentPass
        ensures pass { result ≡ self.pass }
        ensures some_quota { 0 < self.quota }
        ensures counts { (view self.pass).quota ≡ self.quota }
    {
        let Berth {
            line: _,
            pass,
            quota: _,
            held: _,
            marker: _,
        } = self;
        pass
    }
}
