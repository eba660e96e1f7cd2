//! What every supply of segments can do.
ghost use Rattle.std.specs.Prelude.{◌≡◌, ℕ, ◌<◌, List, length, Option};
ghost use Rattle.dym_base.specs.Origins.{Origin};
ghost use Rattle.dym_quota.specs.Bound.{IsFreeFor, IsBoundTo, AreApart};
ghost use Rattle.dym_quota.specs.HeldIds.{IsHeld, GivesBack};
ghost use Rattle.dym_region.specs.declared.segment.SegmentId.{SegmentId};

use dym_base::limits::CLASSES;
use dym_region::Segment;

/// A quota of segments, and the right to have that many out at a time.
///
/// Contracts see its quota, the identities of the segments that were taken and not yet given back, and where the
/// segments come from. No call takes memory.
pub trait Supply {
    /// The segments.
    type Seg: Segment;

    /// What a caller hands in with which the supply may wait for a segment.
    type Way;

    ghost quota_of: { Self → ℕ };

    ghost held_ids: { Self → List SegmentId };

    ghost origin: { Self → Origin };

    // Which segment an area gets, by its class from 0 on and its ordinal, where a supply of this origin and quota binds them.
    ghost binding: { Origin → ℕ → Option (ℕ → ℕ → SegmentId) };

    ghost binding_apart: { (origin : Origin) (quota : ℕ) → AreApart (binding origin quota) quota };

    /// The most segments that may be out at a time.
    fn quota(&self) -> u32
        ensures { result ≡ quota_of self.now };

    /// How many segments are out.
    fn held(&self) -> u32
        ensures { result ≡ length (held_ids self.now) };

    /// A segment, of any content, for area `ordinal` of a class, by its number from 0 on. Where areas are bound it is the area's.
    fn take(&mut self, way: &Self::Way, class: u32, ordinal: u32) -> Self::Seg
        requires room { length (held_ids self.old) < quota_of self.old }
        requires class { class < CLASSES }
        requires ordinal { ordinal < quota_of self.old }
        requires free { IsFreeFor (binding (origin self.old) (quota_of self.old)) (held_ids self.old)
            class ordinal }
        ensures taken { GivesBack (held_ids self.new) (held_ids self.old) (Self.Seg.id result) }
        ensures is_bound { IsBoundTo (binding (origin self.old) (quota_of self.old)) class ordinal
            (Self.Seg.id result) }
        ensures quota { quota_of self.new ≡ quota_of self.old }
        ensures origin { origin self.new ≡ origin self.old };

    /// Takes back a segment that is out.
    fn give(&mut self, way: &Self::Way, seg: Self::Seg)
        requires { IsHeld (held_ids self.old) (Self.Seg.id seg) }
        ensures given { GivesBack (held_ids self.old) (held_ids self.new) (Self.Seg.id seg) }
        ensures quota { quota_of self.new ≡ quota_of self.old }
        ensures origin { origin self.new ≡ origin self.old };
}
