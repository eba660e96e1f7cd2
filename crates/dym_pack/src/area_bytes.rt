//! One area of a record: its length, and its bytes.
ghost use Rattle.std.specs.Prelude.{◌≡◌, ℕ, ◌+◌, ◌*◌, ◌/◌, ◌<◌, ◌≤◌, Bool, ◌&&◌, nat_lt, max, ◌++◌, length, OnOk};
ghost use Rattle.dym_base.specs.Packed.{bitmap, packed_chunk};
ghost use Rattle.dym_base.specs.Heaps.{held};
ghost use Rattle.dym_base.specs.declared.command.Version.TheVariants.{One, Two};
ghost use Rattle.dym_base.specs.declared.limits.TheConstants.{SEGMENT_BYTES};
ghost use Rattle.dym_bits.specs.Bits.{bit_in};
ghost use Rattle.dym_pack.specs.Areas.{IsPackable, area_at, chunks_of, logged};
ghost use Rattle.dym_pack.specs.ParsedAreas.{IsPackedBits, body_from};
ghost use Rattle.dym_pack.specs.Offsets.{area_bytes, area_head};

use crate::areas::Areas;
use crate::layout::{NAME_BYTES, map_bytes, name_of};
use crate::walk::LENGTH_BYTES;
use dym_base::{Class, Kind, Version};
use dym_bits::Bits;
use std::alloc::AllocError;

/// Which chunks of an area a log of this kind packs.
fn bits_to_pack<A: Areas>(areas: &A, kind: Kind, k: u32) -> &Bits
    requires { k < held (A.meaning areas.now).live }
    ensures { IsPackedBits (logged (A.meaning areas.now) kind 0) k result.now }
{
    match kind {
        Kind::Full => areas.used_bits(k),
        Kind::Inc => areas.dirty_bits(k),
    }
}

/// How many chunks an area has.
fn chunk_count<A: Areas>(areas: &A, k: u32) -> u32
    requires { k < held (A.meaning areas.now).live }
    ensures { result ≡ chunks_of (A.meaning areas.now).live k }
{
    areas.area_class(k).per_area()
}

/// How many bytes an area takes.
pub(crate) fn area_len<A: Areas>(areas: &A, kind: Kind, k: u32) -> u32
    requires packable { IsPackable (A.meaning areas.now) }
    requires area { k < held (A.meaning areas.now).live }
    ensures value { result ≡ length (area_bytes (logged (A.meaning areas.now) kind 0)
        (area_at (A.meaning areas.now).live k)) }
    ensures few { result ≤ 131072 }
{
    let class = areas.area_class(k);
    head_len(areas, kind, k, class) + body_len(areas, kind, k, class)
}

/// How many bytes stand before the packed chunks of an area.
fn head_len<A: Areas>(areas: &A, kind: Kind, k: u32, class: Class) -> u32
    requires area { k < held (A.meaning areas.now).live }
    requires exp { class.exp ≡ (area_at (A.meaning areas.now).live k).exponent }
    ensures value { result ≡ length (area_head (logged (A.meaning areas.now) kind 0) k) }
    ensures few { result ≤ 517 }
{
    let map = map_bytes(class);
    match kind {
        Kind::Full => NAME_BYTES as u32 + map,
        Kind::Inc => NAME_BYTES as u32 + 2 * map,
    }
}

/// How many bytes the packed chunks of an area take.
fn body_len<A: Areas>(areas: &A, kind: Kind, k: u32, class: Class) -> u32
    requires packable { IsPackable (A.meaning areas.now) }
    requires area { k < held (A.meaning areas.now).live }
    requires exp { class.exp ≡ (area_at (A.meaning areas.now).live k).exponent }
    ensures value { result ≡ length (body_from (logged (A.meaning areas.now) kind 0) k 0) }
    ensures few { result ≤ 73728 }
{
    let bits = bits_to_pack(areas, kind, k);
    match areas.version() {
        Version::One => bits.count_below(class.per_area()) * class.size(),
        Version::Two => chunks_len(areas, kind, k, bits),
    }
}

/// How many bytes the packed chunks of an area take in version 2.
fn chunks_len<A: Areas>(areas: &A, kind: Kind, k: u32, bits: &Bits) -> u32
    requires packable { IsPackable (A.meaning areas.now) }
    requires area { k < held (A.meaning areas.now).live }
    requires version { (A.meaning areas.now).version ≡ Two }
    requires bits { IsPackedBits (logged (A.meaning areas.now) kind 0) k bits.now }
    ensures { result ≡ length (body_from (logged (A.meaning areas.now) kind 0) k 0) }
{
    let chunks = chunk_count(areas, k);
    let mut len = 0;
    let mut from = 0;
    while let Some(i) = bits.next_set_within(from, chunks) {
        len += LENGTH_BYTES as u32 + areas.chunk_len(k, i);
        from = i + 1;
    }
    len
}

/// Appends an area.
pub(crate) fn put_area<A: Areas>(
    areas: &A,
    kind: Kind,
    k: u32,
    out: &mut Vec<u8>,
) -> Result<(), AllocError>
    requires packable { IsPackable (A.meaning areas.now) }
    requires area { k < held (A.meaning areas.now).live }
    ensures { OnOk result (out.new.items
        ≡ out.old.items ++ area_bytes (logged (A.meaning areas.now) kind 0) (area_at
        (A.meaning areas.now).live k)) }
{
    put_head(areas, kind, k, out)?;
    put_body(areas, kind, k, out)
}

/// Appends the packed chunks of an area.
fn put_body<A: Areas>(areas: &A, kind: Kind, k: u32, out: &mut Vec<u8>) -> Result<(), AllocError>
    requires packable { IsPackable (A.meaning areas.now) }
    requires area { k < held (A.meaning areas.now).live }
    ensures { OnOk result (out.new.items
        ≡ out.old.items ++ body_from (logged (A.meaning areas.now) kind 0) k 0) }
{
    let bits = bits_to_pack(areas, kind, k);
    match areas.version() {
        Version::One => put_runs(areas, kind, k, bits, out),
        Version::Two => put_chunks(areas, kind, k, bits, out),
    }
}

/// Appends what stands before the packed chunks of an area.
fn put_head<A: Areas>(areas: &A, kind: Kind, k: u32, out: &mut Vec<u8>) -> Result<(), AllocError>
    requires { k < held (A.meaning areas.now).live }
    ensures { OnOk result (out.new.items
        ≡ out.old.items ++ area_head (logged (A.meaning areas.now) kind 0) k) }
{
    let class = areas.area_class(k);
    let map = map_bytes(class) as usize;
    out.extend_from_slice(&name_of(class.exp, areas.area_ordinal(k)))?;
    put_bits(areas.used_bits(k), map, out)?;
    match kind {
        Kind::Full => Ok(()),
        Kind::Inc => put_bits(areas.dirty_bits(k), map, out),
    }
}

/// Appends a bitmap of `map` bytes.
fn put_bits(bits: &Bits, map: usize, out: &mut Vec<u8>) -> Result<(), AllocError>
    requires { map ≤ 256 }
    ensures { (n : ℕ) (is_set : ℕ → Bool) → map ≡ max 1 (n / 8)
        → ((i : ℕ) → bit_in bits.now i ≡ (nat_lt i n && is_set i))
        → OnOk result (out.new.items ≡ out.old.items ++ bitmap n is_set) }
{
    out.extend_from_slice(&bits.bytes()[..map])
}

/// Appends the packed chunks of an area in version 1, each run of them at once.
fn put_runs<A: Areas>(
    areas: &A,
    kind: Kind,
    k: u32,
    bits: &Bits,
    out: &mut Vec<u8>,
) -> Result<(), AllocError>
    requires packable { IsPackable (A.meaning areas.now) }
    requires area { k < held (A.meaning areas.now).live }
    requires version { (A.meaning areas.now).version ≡ One }
    requires bits { IsPackedBits (logged (A.meaning areas.now) kind 0) k bits.now }
    ensures { OnOk result (out.new.items
        ≡ out.old.items ++ body_from (logged (A.meaning areas.now) kind 0) k 0) }
{
    let chunks = chunk_count(areas, k);
    let mut from = 0;
    while let Some(first) = bits.next_set_within(from, chunks) {
        let end = bits.run_end(first);
        out.extend_from_slice(areas.run_bytes(k, first, end - first))?;
        from = end;
    }
    Ok(())
}

/// Appends the packed chunks of an area in version 2, each after its length.
fn put_chunks<A: Areas>(
    areas: &A,
    kind: Kind,
    k: u32,
    bits: &Bits,
    out: &mut Vec<u8>,
) -> Result<(), AllocError>
    requires packable { IsPackable (A.meaning areas.now) }
    requires area { k < held (A.meaning areas.now).live }
    requires version { (A.meaning areas.now).version ≡ Two }
    requires bits { IsPackedBits (logged (A.meaning areas.now) kind 0) k bits.now }
    ensures { OnOk result (out.new.items
        ≡ out.old.items ++ body_from (logged (A.meaning areas.now) kind 0) k 0) }
{
    let chunks = chunk_count(areas, k);
    let mut from = 0;
    while let Some(i) = bits.next_set_within(from, chunks) {
        put_chunk(areas.chunk_bytes(k, i), out)?;
        from = i + 1;
    }
    Ok(())
}

/// Appends a chunk after its length.
fn put_chunk(bytes: &[u8], out: &mut Vec<u8>) -> Result<(), AllocError>
    requires { length bytes.now ≤ SEGMENT_BYTES }
    ensures { OnOk result (out.new.items ≡ out.old.items ++ packed_chunk Two bytes.now) }
{
    let len = bytes.len() as u32;
    out.extend_from_slice(&len.to_le_bytes())?;
    out.extend_from_slice(bytes)
}
