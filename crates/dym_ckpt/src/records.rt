//! The records of a file.
ghost use Rattle.std.specs.Prelude.{◌≡◌, ℕ, ◌-◌, ◌^◌, ◌<◌, ◌≤◌, true, false, List, [], ◌∷◌, ◌++◌, length, None, IfSome, IsSomeAnd, IfOk, OnOk, IfErr};
ghost use Rattle.dym_base.specs.Files.{framed};
ghost use Rattle.dym_base.specs.LawfulLists.{IsRecordOf, IsLawfulList, MayFollow, depth_after};
ghost use Rattle.dym_base.specs.declared.limits.TheConstants.{MOST_DEPTH, MOST_RECORDS};
ghost use Rattle.dym_base.specs.declared.command.Version.{Version};
ghost use Rattle.dym_pack.specs.ParsedAreas.{OfLog};
ghost use Rattle.dym_pack.specs.declared.record_parser.RecordFail.TheVariants.{Bad};
ghost use Rattle.dym_chain.specs.Keeps.{bytes_of};
ghost use Rattle.dym_ckpt.specs.Lists.{FitsPlace, IsListed, FitsBehind, FollowsLast, NeverFollowsLast, NeverFits, CantBeNext};

use crate::header::number_in;
use crate::record_order::may_follow;
use dym_base::limits::MOST_DEPTH;
use dym_base::{Kind, Version};
use dym_chain::{LogKeep, VecKeep};
use dym_pack::{Record, RecordFail};
use std::alloc::{AllocError, Global};

/// What a file says of its records: their version, the quota that they are within, and the depth of the oldest kept log.
#[derive(Clone, Copy)]
pub(crate) struct RecordLimits {
    pub(crate) version: Version,
    pub(crate) quota: u32,
    pub(crate) depth: u8,
}

/// The records that were read so far, and how many stand between the last one and the last full one.
#[derive(Drop)]
pub(crate) struct RecordList {
    pub(crate) keep: VecKeep,
    pub(crate) depth: u8,
}

impl RecordList {
    /// No record yet.
    pub(crate) fn open(alloc: Global) -> Result<RecordList, AllocError>
        ensures record_list { IfOk result (λ record_list. (v : Version) (d : ℕ)
            → IsListed v d record_list) }
        ensures none { IfOk result (λ record_list. record_list.keep.records ≡ []) }
    {
        Ok(RecordList {
            keep: VecKeep::open(alloc)?,
            depth: 0,
        })
    }

    /// The records.
    pub(crate) fn into_keep(self) -> VecKeep
        ensures { result ≡ self.keep }
    {
        self.keep
    }

    /// Appends the record of these bytes. Bad exactly where they are none within the quota, or where it may not stand behind those
    /// that were read.
    pub(crate) fn add(
        &mut self,
        alloc: Global,
        limits: RecordLimits,
        bytes: &[u8],
    ) -> Result<(), RecordFail>
        requires record_list { IsListed limits.version limits.depth self.old }
        requires few { length self.old.keep.records < MOST_RECORDS }
        ensures record_list { OnOk result (IsListed limits.version limits.depth self.new) }
        ensures added { OnOk result (bytes_of self.new.keep.records
            ≡ bytes_of self.old.keep.records ++ bytes.now ∷ []) }
        ensures good { OnOk result (IsRecordOf limits.version limits.quota bytes.now) }
        ensures bad { IfErr result (λ why.
            why ≡ Bad → CantBeNext limits.version limits.quota limits.depth
            (bytes_of self.old.keep.records) bytes.now) }
    {
        let rec = Record::of_bytes(alloc, bytes, limits.version, limits.quota)?;
        if !may_be_next(&mut self.keep, limits.depth, self.depth, &rec) {
            return Err(RecordFail::Bad);
        }
        self.depth = depth_after(self.depth, rec.kind());
        self.keep.put(rec);
        Ok(())
    }
}

/// The bytes that stand behind their length, and what is behind them.
pub(crate) fn framed_in(bytes: &[u8]) -> Option<(&[u8], &[u8])>
    ensures is { IfSome result (λ read. bytes.now ≡ framed read.0.now ++ read.1.now) }
    ensures only { (piece left : List ℕ) → length piece < 2 ^ 32 → bytes.now ≡ framed piece ++ left
        → IsSomeAnd result (λ r. (r.0.now ≡ piece) × (r.1.now ≡ left)) }
{
    let (len, rest) = number_in(bytes)?;
    rest.split_at_checked(len as usize)
}

/// Whether a record may stand behind those of a keep, the last of which has this depth.
fn may_be_next(keep: &mut VecKeep, oldest: u8, depth: u8, rec: &Record) -> bool
    requires { keep.old.lifted ≡ None }
    ensures same { keep.new ≡ keep.old }
    ensures fits { result ≡ true → FitsBehind oldest depth keep.old.records rec.now }
    ensures follows { result ≡ true → 0 < length keep.old.records
        → FollowsLast keep.old.records rec.now }
    ensures never { result ≡ false → NeverFits oldest depth keep.old.records rec.now }
{
    let place = keep.len();
    if !fits_at(place, oldest, depth, rec.kind()) {
        return false;
    }
    if place == 0 {
        return true;
    }
    may_follow_last(keep, rec)
}

/// Whether a record may stand behind the last one of a keep.
fn may_follow_last(keep: &mut VecKeep, rec: &Record) -> bool
    requires idle { keep.old.lifted ≡ None }
    requires some { 0 < length keep.old.records }
    ensures same { keep.new ≡ keep.old }
    ensures may { result ≡ true → FollowsLast keep.old.records rec.now }
    ensures never { result ≡ false → NeverFollowsLast keep.old.records rec.now }
{
    let place = keep.len() - 1;
    let before = keep.lift(place);
    let may = may_follow(&before, rec);
    keep.lower(place, before);
    may
}

/// Whether a record of a kind may stand at a place, behind a record of this depth.
fn fits_at(place: u32, oldest: u8, depth: u8, kind: Kind) -> bool
    ensures fits { result ≡ true → FitsPlace oldest place depth kind }
    ensures never { result ≡ false → FitsPlace oldest place depth kind → ⊥ }
{
    match kind {
        Kind::Full => place == 0 || u32::from(oldest) < place,
        Kind::Inc => place != 0 && depth < MOST_DEPTH,
    }
}

/// The depth of a record of a kind behind one of this depth.
fn depth_after(depth: u8, kind: Kind) -> u8
    requires { depth_after depth kind ≤ MOST_DEPTH }
    ensures { result ≡ depth_after depth kind }
{
    match kind {
        Kind::Full => 0,
        Kind::Inc => depth + 1,
    }
}
