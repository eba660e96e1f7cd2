//! What objects come to.
ghost use Rattle.std.specs.Prelude.{◌≡◌, ◌+◌, ◌^◌, ◌<◌, ◌≤◌, List, length, count_by};
ghost use Rattle.dym_base.specs.declared.limits.TheConstants.{MOST_QUOTA};
ghost use Rattle.dym_base.specs.declared.reply.Reply.{Reply};
ghost use Rattle.dym_heap.specs.Meaning.{IsSound};
ghost use Rattle.dym_report.specs.Summary.{is_refusal, tally_with, no_tally, both_tallies, totals_with};

use crate::object_report::live_chunks;
use crate::totals::Totals;
use dym_heap::Heap;
use dym_quota::Supply;

/// What one object comes to, or several together.
#[derive(Clone, Copy, Debug, PartialEq, Eq)]
pub struct Tally {
    /// The replies that are no refusals.
    pub ok: u32,
    /// The replies that are refusals.
    pub refused: u32,
    /// The live chunks.
    pub chunks: u64,
    /// The segments held.
    pub segments: u64,
    /// The kept logs.
    pub kept: u64,
    /// The records that the kept logs take.
    pub slots: u64,
}

impl Tally {
    /// Of an object that gave so many replies, of which so many are refusals, and that has this heap and keeps so many logs in so many
    /// records.
    pub fn of<S: Supply>(replies: u32, refused: u32, heap: &Heap<S>, kept: u32, slots: u32) -> Tally
        requires few { refused ≤ replies }
        requires sound { IsSound heap.now }
        ensures counted { (given : List Reply) → length given ≡ replies
            → count_by is_refusal given ≡ refused
            → result ≡ tally_with given heap.now.state.live kept slots }
        ensures replies { result.ok + result.refused ≡ replies }
        ensures chunks { result.chunks ≤ 2 ^ 37 }
        ensures segments { result.segments ≤ MOST_QUOTA }
        ensures kept { result.kept ≡ kept }
        ensures slots { result.slots ≡ slots }
        ensures small { (result.kept ≤ 2 ^ 32) × (result.slots ≤ 2 ^ 32) }
    {
        Tally {
            ok: replies - refused,
            refused,
            chunks: live_chunks(heap),
            segments: u64::from(heap.held()),
            kept: u64::from(kept),
            slots: u64::from(slots),
        }
    }

    /// Of no object.
    pub fn none() -> Tally
        ensures { result ≡ no_tally }
    {
        Tally {
            ok: 0,
            refused: 0,
            chunks: 0,
            segments: 0,
            kept: 0,
            slots: 0,
        }
    }

    /// Of two sets of objects together.
    pub fn and(self, other: Tally) -> Tally
        requires ok { self.ok + other.ok < 2 ^ 32 }
        requires refused { self.refused + other.refused < 2 ^ 32 }
        requires chunks { self.chunks + other.chunks < 2 ^ 64 }
        requires segments { self.segments + other.segments < 2 ^ 64 }
        requires kept { self.kept + other.kept < 2 ^ 64 }
        requires slots { self.slots + other.slots < 2 ^ 64 }
        ensures { result ≡ both_tallies self other }
    {
        Tally {
            ok: self.ok + other.ok,
            refused: self.refused + other.refused,
            chunks: self.chunks + other.chunks,
            segments: self.segments + other.segments,
            kept: self.kept + other.kept,
            slots: self.slots + other.slots,
        }
    }

    /// The numbers of a summary of so many objects that come to it together.
    pub fn totals(self, objects: u32) -> Totals
        requires { self.ok + self.refused < 2 ^ 32 }
        ensures { result ≡ totals_with objects self }
    {
        Totals {
            objects,
            commands: self.ok + self.refused,
            ok: self.ok,
            refused: self.refused,
            chunks: self.chunks,
            segments: self.segments,
            kept: self.kept,
            slots: self.slots,
        }
    }
}
