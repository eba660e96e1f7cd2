//! Packing.
ghost use Rattle.std.specs.Prelude.{◌≡◌, ℕ, ◌+◌, ◌<◌, ◌≤◌, length, IfOk};
ghost use Rattle.dym_base.specs.Heaps.{held};
ghost use Rattle.dym_base.specs.Packed.{packed};
ghost use Rattle.dym_pack.specs.Areas.{IsPackable, area_at, logged};
ghost use Rattle.dym_pack.specs.Offsets.{area_bytes};

use crate::area_bytes::{area_len, put_area};
use crate::areas::Areas;
use crate::indexed_bytes::{IndexedBytes, with_room};
use crate::layout::{HEADER_BYTES, put_header};
use crate::record::Record;
use dym_base::Kind;
use smallvec::SmallVec;
use std::alloc::{AllocError, Global};

/// How many places are gathered with no allocation: as many as fifteen areas have, with the end of the last.
pub(crate) const FEW_STARTS: usize = 16;

/// The length of the record that packing areas gives, at whatever time.
pub fn packed_len<A: Areas>(areas: &A, kind: Kind) -> u64
    requires packable { IsPackable (A.meaning areas.now) }
    ensures { (time : ℕ) → result ≡ length (packed (logged (A.meaning areas.now) kind time)) }
{
    let mut len = HEADER_BYTES as u64;
    for k in 0..areas.area_count() {
        len += u64::from(area_len(areas, kind, k));
    }
    len
}

/// The record of areas at a time. Only memory can be wanting.
pub fn pack<A: Areas>(alloc: Global, areas: &A, kind: Kind, time: u64) -> Result<Record, AllocError>
    requires packable { IsPackable (A.meaning areas.now) }
    ensures { IfOk result (λ r. r ≡ packed (logged (A.meaning areas.now) kind time)) }
{
    let count = areas.area_count();
    let offsets = count as usize + 1;
    let mut bytes = with_room(alloc, packed_len(areas, kind) as usize, offsets)?;
    let mut starts = SmallVec::<usize, FEW_STARTS>::with_capacity(alloc, offsets)?;
    put_header(areas.version(), kind, time, count, &mut bytes)?;
    for k in 0..count {
        starts.push_reserved(bytes.len());
        put_area(areas, kind, k, &mut bytes)?;
    }
    starts.push_reserved(bytes.len());
    let placed = IndexedBytes::of(bytes, starts.as_slice())?;
    Ok(Record { placed })
}
