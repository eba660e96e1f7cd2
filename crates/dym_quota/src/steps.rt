//! The steps of a pass. None has another answer: what the rule tells the pass rules it out.
ghost use Rattle.std.specs.Prelude.{◌≡◌, ◌≢◌, ◌+◌, ◌-◌, ◌<◌, ◌≤◌, true, false, [], ◌++◌, length, All, IsPermutation};
ghost use Rattle.crossbeam_queue.specs.Passes.{view, IsPassOf, ruled_capacity};
ghost use Rattle.dym_quota.specs.HeldIds.{IsHeld};
ghost use Rattle.dym_quota.specs.SegmentSteps.{IsStocking, IsPop, IsPush, IsSplit, IsJoin};

use crate::rule::{
    Amount, Gives, HoldsAll, JoinedPasses, SegmentLine, SegmentPass, SplitQuota, Stocks, Takes,
};
use dym_region::{RawSegment, Segment};
use std::marker::Brand;
use std::sync::Wait;

/// Puts a new segment to the queue's back.
pub(crate) fn stock<R: Wait>(
    way: &R,
    line: &SegmentLine,
    pass: &mut SegmentPass,
    segment: RawSegment,
)
    requires queue { IsPassOf line.now pass.old }
    requires opens { (view pass.old).opens ≡ true }
    requires fresh { All (λ x. x ≢ ⟦<RawSegment as Segment>⟧.id segment) (view pass.old).stock }
    requires room { length (view pass.old).stock < ruled_capacity line.now }
    ensures queue { IsPassOf line.now pass.new }
    ensures stocked { IsStocking (⟦<RawSegment as Segment>⟧.id segment)
        (view pass.old) (view pass.new) }
{
    let Ok(()) = line.push_as::<Stocks, R>(way, pass, segment) else {
        unreachable!()
    };
}

/// The segment at the queue's front.
pub(crate) fn take<R: Wait>(way: &R, line: &SegmentLine, pass: &mut SegmentPass) -> RawSegment
    requires queue { IsPassOf line.now pass.old }
    requires below { length (view pass.old).held < (view pass.old).quota }
    ensures queue { IsPassOf line.now pass.new }
    ensures taken { IsPop (⟦<RawSegment as Segment>⟧.id result) (view pass.old) (view pass.new) }
{
    let Some(segment) = line.pop_as::<Takes, R>(way, pass) else {
        unreachable!()
    };
    segment
}

/// Puts a segment that the pass holds to the queue's back.
pub(crate) fn give<R: Wait>(
    way: &R,
    line: &SegmentLine,
    pass: &mut SegmentPass,
    segment: RawSegment,
)
    requires queue { IsPassOf line.now pass.old }
    requires held { IsHeld (view pass.old).held (⟦<RawSegment as Segment>⟧.id segment) }
    requires room { length (view pass.old).stock ≤ ruled_capacity line.now }
    ensures queue { IsPassOf line.now pass.new }
    ensures given { IsPush (⟦<RawSegment as Segment>⟧.id segment) (view pass.old) (view pass.new) }
{
    let Ok(()) = line.push_as::<Gives, R>(way, pass, segment) else {
        unreachable!()
    };
}

/// A new pass that holds nothing, with a part of the quota.
pub(crate) fn part(line: &SegmentLine, pass: &mut SegmentPass, quota: u32) -> SegmentPass
    requires queue { IsPassOf line.now pass.old }
    requires enough { length (view pass.old).held + quota ≤ (view pass.old).quota }
    ensures queue { IsPassOf line.now pass.new }
    ensures part_queue { IsPassOf line.now result }
    ensures rest { view pass.new ≡ record {
      quota = (view pass.old).quota - quota;
      held = (view pass.old).held;
      stock = (view pass.old).stock;
      opens = false;
    } }
    ensures part { view result ≡ record {
      quota = quota;
      held = [];
      stock = (view pass.old).stock;
      opens = false;
    } }
{
    part_by::<Brand>(line, pass, quota)
}

fn part_by<N: Amount>(line: &SegmentLine, pass: &mut SegmentPass, quota: u32) -> SegmentPass
    requires queue { IsPassOf line.now pass.old }
    requires amount { quota ≡ N.amount }
    requires enough { length (view pass.old).held + quota ≤ (view pass.old).quota }
    ensures queue { IsPassOf line.now pass.new }
    ensures part_queue { IsPassOf line.now result }
    ensures rest { view pass.new ≡ record {
      quota = (view pass.old).quota - quota;
      held = (view pass.old).held;
      stock = (view pass.old).stock;
      opens = false;
    } }
    ensures part { view result ≡ record {
      quota = quota;
      held = [];
      stock = (view pass.old).stock;
      opens = false;
    } }
{
    line.another::<SplitQuota<N>>(pass)
}

/// Puts another pass into this one.
pub(crate) fn join(line: &SegmentLine, pass: &mut SegmentPass, other: SegmentPass)
    requires queue { IsPassOf line.now pass.old }
    requires other_queue { IsPassOf line.now other }
    requires stocked { 0 < length (view pass.old).stock }
    requires some_quota { 0 < (view other).quota }
    ensures queue { IsPassOf line.now pass.new }
    ensures both { view pass.new ≡ record {
      quota = (view pass.old).quota + (view other).quota;
      held = (view pass.old).held ++ (view other).held;
      stock = (view pass.old).stock;
      opens = false;
    } }
{
    line.absorb::<JoinedPasses>(pass, other);
}

/// A pass that has the whole quota and holds as many segments as were stocked holds each of them.
pub(crate) fn learn_all(line: &SegmentLine, pass: &mut SegmentPass)
    requires queue { IsPassOf line.now pass.old }
    requires some_quota { 0 < (view pass.old).quota }
    requires whole { (view pass.old).quota ≡ length (view pass.old).stock }
    requires all { length (view pass.old).held ≡ length (view pass.old).stock }
    ensures held { IsPermutation (view pass.old).stock (view pass.old).held }
{
    line.learn_as::<HoldsAll>(pass);
}
