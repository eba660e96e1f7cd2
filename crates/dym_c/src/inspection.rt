//! What can be seen of an object without a command.
ghost use Rattle.std.specs.Prelude.{◌≡◌};
ghost use Rattle.dym_base.specs.Files.{version_number};
ghost use Rattle.dym_c.specs.Handles.{chunk_of, chunk_or_nil_of};
ghost use Rattle.dym_c.specs.Inspections.{size_status, size_after, IsNext, heap_after, open_status, IsLogKind, IsLogTime, IsTold};

use crate::handle::{DymHandle, c_chunk, chunk_of_c, chunk_or_nil_of_c};
use crate::heap_copy::MOST_CHUNKS;
use crate::object::DymObject;
use crate::out_values::{DymBytes, DymHeap};
use crate::status::{BAD, DONE, STATE, refusal_number};
use dym_base::limits::SEGMENT_BYTES;
use dym_base::{Refusal, Version};
use dym_heap::Heap;
use dym_quota::FixedSupply;

/// The version, the quota and the held segments of an object.
#[unsafe(no_mangle)]
pub extern "C" fn dym_inspect(object: &mut DymObject, heap: &mut DymHeap) -> u32
    ensures status { result ≡ open_status object.old.value }
    ensures out_value { heap.new ≡ heap_after object.old.value heap.old }
    ensures same { object.new.value ≡ object.old.value }
{
    let Some(inside) = object.inside() else {
        return STATE;
    };
    let seen = inside.object.heap();
    *heap = DymHeap {
        version: c_version(seen.version()),
        quota: seen.quota(),
        held: seen.held(),
    };
    DONE
}

/// The number of a version, for C.
fn c_version(version: Version) -> u32
    ensures { result ≡ version_number version }
{
    match version {
        Version::One => 1,
        Version::Two => 2,
    }
}

/// The time of the kept log at a place, the oldest at place 0.
#[unsafe(no_mangle)]
pub extern "C" fn dym_log_time(object: &mut DymObject, place: u32, time: &mut u64) -> u32
    ensures told { IsLogTime object.old.value place result time.old time.new }
    ensures same { object.new.value ≡ object.old.value }
{
    let Some(inside) = object.inside() else {
        return STATE;
    };
    if inside.object.kept() <= place {
        return refusal_number(Refusal::NoLog);
    }
    *time = inside.object.entry(place).time;
    DONE
}

/// The kind of the kept log at a place, the oldest at place 0: 0 for a full log, 1 for an incremental one.
#[unsafe(no_mangle)]
pub extern "C" fn dym_log_kind(object: &mut DymObject, place: u32, kind: &mut u32) -> u32
    ensures told { IsLogKind object.old.value place result kind.old kind.new }
    ensures same { object.new.value ≡ object.old.value }
{
    let Some(inside) = object.inside() else {
        return STATE;
    };
    if inside.object.kept() <= place {
        return refusal_number(Refusal::NoLog);
    }
    *kind = match inside.object.entry(place).depth {
        0 => 0,
        _ => 1,
    };
    DONE
}

/// How many chunks were changed since the newest log, freed and made ones too. How many, no clause tells.
#[unsafe(no_mangle)]
pub extern "C" fn dym_changed(object: &mut DymObject, count: &mut u64) -> u32
    ensures told { IsTold object.old.value result count.old count.new }
    ensures same { object.new.value ≡ object.old.value }
{
    let Some(inside) = object.inside() else {
        return STATE;
    };
    *count = inside.object.changed();
    DONE
}

/// How many bytes an object has in use. How many, no clause tells.
#[unsafe(no_mangle)]
pub extern "C" fn dym_usage(object: &mut DymObject, bytes: &mut DymBytes) -> u32
    ensures told { IsTold object.old.value result bytes.old bytes.new }
    ensures same { object.new.value ≡ object.old.value }
{
    let Some(inside) = object.inside() else {
        return STATE;
    };
    let heap = inside.object.heap();
    let live = live_bytes(heap);
    let held = u64::from(heap.held()).saturating_mul(u64::from(SEGMENT_BYTES));
    *bytes = DymBytes {
        live,
        kept: inside.object.kept_bytes(),
        idle: held.saturating_sub(live),
    };
    DONE
}

/// How many bytes all live chunks of a heap have.
fn live_bytes(heap: &Heap<FixedSupply>) -> u64 {
    let mut total: u64 = 0;
    let mut last = None;
    for _ in 0..heap.quota() as usize * MOST_CHUNKS {
        let Some(h) = heap.next_live(last) else {
            break;
        };
        total = total.saturating_add(u64::from(heap.size_of(h).unwrap_or(0)));
        last = Some(h);
    }
    total
}

/// A chunk's length in bytes.
#[unsafe(no_mangle)]
pub extern "C" fn dym_size(object: &mut DymObject, h: DymHandle, len: &mut u32) -> u32
    ensures status { result ≡ size_status object.old.value (chunk_of h) }
    ensures out_value { len.new ≡ size_after object.old.value (chunk_of h) len.old }
    ensures same { object.new.value ≡ object.old.value }
{
    let Some(chunk) = chunk_of_c(h) else {
        return BAD;
    };
    let Some(inside) = object.inside() else {
        return STATE;
    };
    let size = inside.object.heap().size_of(chunk);
    match size {
        Some(size) => {
            *len = size;
            DONE
        }
        None => refusal_number(Refusal::Dead),
    }
}

/// The least live chunk above a handle, or the least of all above nil; nil where there is none.
#[unsafe(no_mangle)]
pub extern "C" fn dym_next(object: &mut DymObject, after: DymHandle, next: &mut DymHandle) -> u32
    ensures next { IsNext object.old.value (chunk_or_nil_of after) result next.old next.new }
    ensures same { object.new.value ≡ object.old.value }
{
    let Some(place) = chunk_or_nil_of_c(after) else {
        return BAD;
    };
    let Some(inside) = object.inside() else {
        return STATE;
    };
    let found = inside.object.heap().next_live(place);
    *next = match found {
        Some(h) => c_chunk(h),
        None => DymHandle::NIL,
    };
    DONE
}
