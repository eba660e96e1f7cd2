//! A record from bytes that anyone may have made.
ghost use Rattle.std.specs.Prelude.{◌≡◌, ℕ, ◌+◌, ◌*◌, ◌^◌, ◌<◌, ◌≤◌, true, false, [], ◌++◌, length, drop, Some, IfSome, IsSome, IfOk, OnOk, IfErr};
ghost use Rattle.dym_base.specs.Packed.{kind_byte};
ghost use Rattle.dym_base.specs.LawfulLists.{IsRecordOf};
ghost use Rattle.dym_base.specs.declared.limits.TheConstants.{MOST_QUOTA};
ghost use Rattle.dym_base.specs.declared.command.Kind.{Kind};
ghost use Rattle.dym_pack.specs.Contents.{head_bytes, Follows, AreLeft, HaveOffsets};
ghost use Rattle.dym_pack.specs.declared.record_parser.RecordFail.TheVariants.{Bad};
ghost use Rattle.smallvec.specs.SmallVec.{HasRoomFor};

use crate::indexed_bytes::IndexedBytes;
use crate::layout::{HEADER_BYTES, byte_of_kind};
use crate::packer::FEW_STARTS;
use crate::parsed_area::{area_in, rest_from};
use crate::record::Record;
use crate::walk::length_at;
use dym_base::limits::{LEAST_EXPONENT, MOST_QUOTA};
use dym_base::{Kind, Version};
use smallvec::SmallVec;
use std::alloc::Global;

/// The least bytes that an area takes: its class, its ordinal and a bitmap of one byte.
const LEAST_AREA_BYTES: usize = 6;

/// Why bytes gave no record: they are none, or memory is wanting.
#[derive(Debug, Clone, Copy, PartialEq, Eq)]
pub enum RecordFail {
    Bad,
    Memory,
}

impl Record {
    /// The record of these bytes. Bad exactly where they are no record of this version within this quota, which counts as
    /// 1,024 where it is above that.
    ///
    /// It goes over the bytes once and copies them. The memory that it takes is a small multiple of theirs, whatever numbers
    /// stand in them.
    pub fn of_bytes(
        alloc: Global,
        bytes: &[u8],
        version: Version,
        quota: u32,
    ) -> Result<Record, RecordFail>
        ensures same { IfOk result (λ rec. rec ≡ bytes.now) }
        ensures good { OnOk result (IsRecordOf version quota bytes.now) }
        ensures bad { IfErr result (λ why. why ≡ Bad → IsRecordOf version quota bytes.now → ⊥) }
    {
        match header_in(bytes, version, quota) {
            Some((kind, count)) => record_in(alloc, bytes, version, kind, count),
            None => Err(RecordFail::Bad),
        }
    }
}

/// The record of bytes with this header. Bad exactly where what stands behind it isn't its areas.
fn record_in(
    alloc: Global,
    bytes: &[u8],
    version: Version,
    kind: Kind,
    count: u32,
) -> Result<Record, RecordFail>
    requires head { (time : ℕ) × (time < 2 ^ 64)
        × (bytes.now ≡ head_bytes version kind time count ++ drop 13 bytes.now) }
    requires long { 13 ≤ length bytes.now }
    requires few { count ≤ MOST_QUOTA }
    ensures same { IfOk result (λ rec. rec ≡ bytes.now) }
    ensures good { OnOk result (IsRecordOf version count bytes.now) }
    ensures bad { IfErr result (λ why.
        why ≡ Bad → AreLeft version kind (drop 13 bytes.now) count LEAST_EXPONENT 0 true → ⊥) }
{
    let Ok(mut starts) = SmallVec::with_capacity(alloc, count as usize + 1) else {
        return Err(RecordFail::Memory);
    };
    if offsets_in(bytes, version, kind, count, &mut starts).is_none() {
        return Err(RecordFail::Bad);
    }
    match IndexedBytes::copied(alloc, bytes, starts.as_slice()) {
        Ok(placed) => Ok(Record { placed }),
        Err(_) => Err(RecordFail::Memory),
    }
}

/// The kind and the number of areas that a record's header tells, and None where it isn't one of this version within this
/// quota, or where the bytes behind it are too few for so many areas.
fn header_in(bytes: &[u8], version: Version, quota: u32) -> Option<(Kind, u32)>
    ensures is { IfSome result (λ head.
        (time : ℕ) × (time < 2 ^ 64)
        × (bytes.now ≡ head_bytes version head.0 time head.1 ++ drop 13 bytes.now)
        × (head.1 ≤ quota) × (head.1 ≤ MOST_QUOTA) × (13 ≤ length bytes.now)) }
    ensures only { (kind : Kind) (time count : ℕ) → time < 2 ^ 64 → count ≤ quota
        → count ≤ MOST_QUOTA → 13 + 6 * count ≤ length bytes.now
        → bytes.now ≡ head_bytes version kind time count ++ drop 13 bytes.now
        → result ≡ Some (kind, count) }
{
    if bytes.len() < HEADER_BYTES {
        return None;
    }
    let kind = kind_in(bytes[0], version)?;
    let count = length_at(bytes, 9);
    let room = (bytes.len() - HEADER_BYTES) / LEAST_AREA_BYTES;
    if quota < count || MOST_QUOTA < count || room < count as usize {
        return None;
    }
    Some((kind, count))
}

/// The kind that the first byte of a record of this version tells.
fn kind_in(byte: u8, version: Version) -> Option<Kind>
    ensures is { IfSome result (λ kind. byte ≡ kind_byte version kind) }
    ensures only { (kind : Kind) → byte ≡ kind_byte version kind → result ≡ Some kind }
{
    if byte == byte_of_kind(version, Kind::Full) {
        Some(Kind::Full)
    } else if byte == byte_of_kind(version, Kind::Inc) {
        Some(Kind::Inc)
    } else {
        None
    }
}

/// Puts down where each of the `count` areas behind the header begins, and where the last one ends. Whether they are there, and
/// nothing else.
fn offsets_in(
    bytes: &[u8],
    version: Version,
    kind: Kind,
    count: u32,
    starts: &mut SmallVec<usize, FEW_STARTS>,
) -> Option<()>
    requires head { 13 ≤ length bytes.now }
    requires few { count ≤ MOST_QUOTA }
    requires empty { starts.old.items ≡ [] }
    requires room { HasRoomFor starts.old (count + 1) }
    ensures is { IsSome result → HaveOffsets version kind bytes.now count starts.new.items }
    ensures only { AreLeft version kind (drop 13 bytes.now) count LEAST_EXPONENT 0 true → IsSome result }
{
    let mut at = HEADER_BYTES;
    let mut exp = LEAST_EXPONENT;
    let mut next = 0;
    let mut used = true;
    for _k in 0..count {
        starts.push_reserved(at);
        let area = area_in(rest_from(bytes, at), version, kind)?;
        if !follows(exp, next, used, area.exp, area.ordinal) {
            return None;
        }
        at += area.len;
        exp = area.exp;
        next = area.ordinal + 1;
        used = area.used;
    }
    if at != bytes.len() || !used {
        return None;
    }
    starts.push_reserved(at);
    Some(())
}

/// Whether an area may stand behind one of a class, whose class goes on with ordinal `next`, and which has a used chunk or not.
fn follows(exp: u8, next: u32, used: bool, area_exp: u8, ordinal: u32) -> bool
    ensures follows { result ≡ true → Follows exp next used area_exp ordinal }
    ensures fails { result ≡ false → Follows exp next used area_exp ordinal → ⊥ }
{
    if area_exp == exp {
        ordinal == next
    } else {
        exp < area_exp && used && ordinal == 0
    }
}
