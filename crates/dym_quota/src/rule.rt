//! The rule of the queue of segments, and the kinds of step that are taken under it.
ghost use Rattle.std.specs.Prelude.{ℕ};

use crate::pass_view::PassView;
use crossbeam_queue::protocol::{Join, Lesson, Outcome, Protocol, Split};
use crossbeam_queue::{Pass, RuledArrayQueue};
use dym_region::{RawSegment, Segment};
use std::marker::{Brand, PhantomData};

/// A queue of segments under the segment rule.
pub type SegmentLine = RuledArrayQueue<RawSegment, PassView, SegmentQueueRule>;

/// The right to take steps on one queue, and what its holder knows. It has no bytes.
pub type SegmentPass = Pass<RawSegment, PassView>;

/// The segment rule.
pub struct SegmentQueueRule;

impl Protocol<RawSegment, PassView> for SegmentQueueRule {
    ghost use Rattle.std.specs.Prelude.{map};
    ghost use Rattle.dym_quota.specs.SegmentRule.{SegmentRule, first_pass};

    ghost holds = { λ items views. SegmentRule (map ⟦<RawSegment as Segment>⟧.id items) views };

    ghost first = { first_pass };
}

/// Puts a new segment into the queue.
pub struct Stocks;

impl Outcome<RawSegment, PassView> for Stocks {
    ghost use Rattle.dym_quota.specs.SegmentSteps.{IsStocking};

    ghost then = { λ v x w. IsStocking (⟦<RawSegment as Segment>⟧.id x) v w };
}

impl Lesson<RawSegment, PassView> for Stocks {
    ghost use Rattle.std.specs.Prelude.{◌≤◌, length};

    ghost fact = { λ v items. length items ≤ length v.stock };
}

/// Takes the segment at the front.
pub struct Takes;

impl Outcome<RawSegment, PassView> for Takes {
    ghost use Rattle.dym_quota.specs.SegmentSteps.{IsPop};

    ghost then = { λ v x w. IsPop (⟦<RawSegment as Segment>⟧.id x) v w };
}

impl Lesson<RawSegment, PassView> for Takes {
    ghost use Rattle.std.specs.Prelude.{◌<◌, length};

    ghost fact = { λ v items. 0 < length items };
}

/// Puts a segment that was taken to the back.
pub struct Gives;

impl Outcome<RawSegment, PassView> for Gives {
    ghost use Rattle.dym_quota.specs.SegmentSteps.{IsPush};

    ghost then = { λ v x w. IsPush (⟦<RawSegment as Segment>⟧.id x) v w };
}

impl Lesson<RawSegment, PassView> for Gives {
    ghost use Rattle.std.specs.Prelude.{◌<◌, length};

    ghost fact = { λ v items. length items < length v.stock };
}

/// What the holder of the whole quota knows.
pub struct HoldsAll;

impl Lesson<RawSegment, PassView> for HoldsAll {
    ghost use Rattle.std.specs.Prelude.{◌++◌, map, IsPermutation};

    ghost fact = { λ v items. IsPermutation v.stock
        (map ⟦<RawSegment as Segment>⟧.id items ++ v.held) };
}

/// A number that contracts pick at a call.
pub trait Amount {
    ghost amount: { ℕ };
}

impl Amount for Brand {
    ghost amount = { 0 };
}

/// Gives a part of a quota to a new pass.
pub struct SplitQuota<N> {
    marker: PhantomData<N>,
}

impl<N: Amount> Split<PassView> for SplitQuota<N> {
    ghost use Rattle.std.specs.Prelude.{false, [], ◌-◌};

    ghost left = { λ v. record {
      quota = v.quota - N.amount;
      held = v.held;
      stock = v.stock;
      opens = false;
    } };

    ghost right = { λ v. record { quota = N.amount; held = []; stock = v.stock; opens = false } };
}

/// Puts two passes together.
pub struct JoinedPasses;

impl Join<PassView> for JoinedPasses {
    ghost use Rattle.std.specs.Prelude.{false, ◌++◌, ◌+◌};
    ghost use Rattle.dym_quota.specs.SegmentRule.{spent};

    ghost both = { λ v w. record {
      quota = v.quota + w.quota;
      held = v.held ++ w.held;
      stock = v.stock;
      opens = false;
    } };

    ghost spent = { spent };
}
