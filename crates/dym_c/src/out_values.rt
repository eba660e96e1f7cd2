//! What exports tell beside their status.
ghost use Rattle.std.specs.Prelude.{◌≡◌};
ghost use Rattle.dym_c.specs.OutValues.{found_out, kind_number, kind_of};

use crate::handle::{DymHandle, c_chunk};
use dym_base::Kind;
use dym_heap::Found;

/// What eight bytes of a chunk name: 0 nothing, 1 the live chunk, 2 no live chunk but the number.
#[repr(C)]
#[derive(Clone, Copy)]
pub struct DymFound {
    pub kind: u32,
    pub chunk: DymHandle,
    pub number: u64,
}

/// How many logs are kept, and how many records a chain of them has.
#[repr(C)]
#[derive(Clone, Copy)]
pub struct DymSlots {
    pub kept: u32,
    pub slots: u32,
}

/// An object's version, its quota, and how many segments it holds.
#[repr(C)]
#[derive(Clone, Copy)]
pub struct DymHeap {
    pub version: u32,
    pub quota: u32,
    pub held: u32,
}

/// How many bytes live chunks have, how many are kept of what they were, and how many of the held segments are in no live chunk.
#[repr(C)]
#[derive(Clone, Copy)]
pub struct DymBytes {
    pub live: u64,
    pub kept: u64,
    pub idle: u64,
}

/// What was found, for C.
pub(crate) fn c_found(found: Found) -> DymFound
    ensures { result ≡ found_out found }
{
    match found {
        Found::Nil => DymFound {
            kind: 0,
            chunk: DymHandle::NIL,
            number: 0,
        },
        Found::Live(h) => DymFound {
            kind: 1,
            chunk: c_chunk(h),
            number: h.number(),
        },
        Found::Loose(number) => DymFound {
            kind: 2,
            chunk: DymHandle::NIL,
            number,
        },
    }
}

/// The number of a kind, for C: 0 for a full log, 1 for an incremental one.
pub(crate) fn c_kind(kind: Kind) -> u32
    ensures { result ≡ kind_number kind }
{
    match kind {
        Kind::Full => 0,
        Kind::Inc => 1,
    }
}

/// The kind that C names by its number.
pub(crate) fn kind_of_c(kind: u32) -> Option<Kind>
    ensures { result ≡ kind_of kind }
{
    match kind {
        0 => Some(Kind::Full),
        1 => Some(Kind::Inc),
        _ => None,
    }
}
