//! One area of bytes that anyone may have made.
ghost use Rattle.std.specs.Prelude.{◌≡◌, ℕ, ◌*◌, ◌/◌, ◌^◌, ◌<◌, ◌≤◌, Bool, false, List, ◌++◌, max, length, drop, Some, IfSome, IsSome, MatchOption};
ghost use Rattle.dym_base.specs.Numbers.{per, IsClass};
ghost use Rattle.dym_base.specs.Packed.{bitmap};
ghost use Rattle.dym_base.specs.declared.command.Version.TheVariants.{One, Two};
ghost use Rattle.dym_base.specs.declared.command.Kind.TheVariants.{Full, Inc};
ghost use Rattle.dym_bits.specs.Bits.{bit_in};
ghost use Rattle.dym_pack.specs.Offsets.{name_bytes};
ghost use Rattle.dym_pack.specs.Contents.{IsMaps, IsBody, IsSeen};
ghost use Rattle.dym_pack.specs.declared.parsed_area.ParsedMaps.{ParsedMaps};
ghost use Rattle.dym_pack.specs.declared.parsed_area.ParsedArea.{ParsedArea};

use crate::layout::{NAME_BYTES, map_bytes};
use crate::walk::{LENGTH_BYTES, length_at};
use dym_base::{Class, Kind, Version};
use dym_bits::Bits;

/// The bitmaps of an area: whether a chunk is used, how many are packed, and how many bytes the bitmaps take.
#[derive(Drop)]
pub(crate) struct ParsedMaps {
    pub(crate) used: bool,
    pub(crate) packed: u32,
    pub(crate) len: usize,
}

/// An area: its class exponent, its ordinal, whether a chunk is used, and how many bytes it takes.
#[derive(Drop)]
pub(crate) struct ParsedArea {
    pub(crate) exp: u8,
    pub(crate) ordinal: u32,
    pub(crate) used: bool,
    pub(crate) len: usize,
}

/// The area that the bytes begin with, and None where they begin with none.
pub(crate) fn area_in(bytes: &[u8], version: Version, kind: Kind) -> Option<ParsedArea>
    ensures is { IfSome result (λ parsed. IsSeen version kind bytes.now parsed) }
    ensures only { (parsed : ParsedArea) → IsSeen version kind bytes.now parsed
        → result ≡ Some parsed }
{
    let (class, ordinal) = name_in(bytes)?;
    let maps = maps_in(rest_from(bytes, NAME_BYTES), kind, class)?;
    let head = NAME_BYTES + maps.len;
    let body = body_in(rest_from(bytes, head), version, class, maps.packed)?;
    Some(ParsedArea {
        exp: class.exp,
        ordinal,
        used: maps.used,
        len: head + body,
    })
}

/// The bytes from a place on.
pub(crate) fn rest_from(bytes: &[u8], at: usize) -> &[u8]
    requires { at ≤ length bytes.now }
    ensures { result.now ≡ drop at bytes.now }
{
    &bytes[at..]
}

/// The class and the ordinal that the bytes begin with.
fn name_in(bytes: &[u8]) -> Option<(Class, u32)>
    ensures is { IfSome result (λ name. bytes.now ≡ name_bytes name.0.exp name.1 ++ drop 5 bytes.now) }
    ensures only { (e o : ℕ) (rest : List ℕ) → IsClass e → o < 2 ^ 32
        → bytes.now ≡ name_bytes e o ++ rest
        → MatchOption result ⊥ (λ name. (name.0.exp ≡ e) × (name.1 ≡ o)) }
{
    if bytes.len() < NAME_BYTES {
        return None;
    }
    let class = Class::of_exponent(bytes[0])?;
    Some((class, length_at(bytes, 1)))
}

/// The bitmaps that the bytes begin with.
fn maps_in(bytes: &[u8], kind: Kind, class: Class) -> Option<ParsedMaps>
    ensures is { IfSome result (λ parsed. IsMaps kind class.exp bytes.now parsed) }
    ensures only { (parsed : ParsedMaps) → IsMaps kind class.exp bytes.now parsed → result ≡ Some parsed }
{
    let map = map_bytes(class) as usize;
    match kind {
        Kind::Full => full_maps(bytes, class, map),
        Kind::Inc => inc_maps(bytes, class, map),
    }
}

/// The use bits of an area of a full record.
fn full_maps(bytes: &[u8], class: Class, map: usize) -> Option<ParsedMaps>
    requires map { map ≡ max 1 (per class.exp / 8) }
    ensures is { IfSome result (λ parsed. IsMaps Full class.exp bytes.now parsed) }
    ensures only { (parsed : ParsedMaps) → IsMaps Full class.exp bytes.now parsed → result ≡ Some parsed }
{
    if bytes.len() < map {
        return None;
    }
    let chunks = class.per_area();
    let used = bits_in(&bytes[..map], chunks)?;
    let packed = used.count_below(chunks);
    Some(ParsedMaps {
        used: 0 < packed,
        packed,
        len: map,
    })
}

/// The use bits and the touched bits of an area of an incremental record.
fn inc_maps(bytes: &[u8], class: Class, map: usize) -> Option<ParsedMaps>
    requires map { map ≡ max 1 (per class.exp / 8) }
    ensures is { IfSome result (λ parsed. IsMaps Inc class.exp bytes.now parsed) }
    ensures only { (parsed : ParsedMaps) → IsMaps Inc class.exp bytes.now parsed → result ≡ Some parsed }
{
    if bytes.len() < 2 * map {
        return None;
    }
    let chunks = class.per_area();
    let used = bits_in(&bytes[..map], chunks)?;
    let touched = bits_in(&rest_from(bytes, map)[..map], chunks)?;
    if !touched.is_within(&used) {
        return None;
    }
    Some(ParsedMaps {
        used: 0 < used.count_below(chunks),
        packed: touched.count_below(chunks),
        len: 2 * map,
    })
}

/// The bits of a bitmap, and None where one past the last chunk is set.
fn bits_in(map: &[u8], chunks: u32) -> Option<Bits>
    requires most { chunks ≤ 2048 }
    requires room { chunks ≤ 8 * max 1 (chunks / 8) }
    requires long { length map.now ≡ max 1 (chunks / 8) }
    ensures is { IfSome result (λ bits. map.now ≡ bitmap chunks (bit_in bits)) }
    ensures clear { IfSome result (λ bits. (i : ℕ) → chunks ≤ i → bit_in bits i ≡ false) }
    ensures only { (f : ℕ → Bool) → map.now ≡ bitmap chunks f → IsSome result }
{
    let mut bits = Bits::new();
    bits.set_bytes(map);
    match bits.next_set(chunks) {
        Some(_) => None,
        None => Some(bits),
    }
}

/// How many bytes the `count` packed chunks of a class take that the bytes begin with.
fn body_in(bytes: &[u8], version: Version, class: Class, count: u32) -> Option<usize>
    requires { count ≤ 2048 }
    ensures is { IfSome result (λ len. IsBody version class.exp count bytes.now len) }
    ensures only { (len : ℕ) → IsBody version class.exp count bytes.now len → result ≡ Some len }
    ensures within { IfSome result (λ len. len ≤ length bytes.now) }
{
    match version {
        Version::One => equal_chunks(bytes, class, count),
        Version::Two => chunks_in(bytes, class, count),
    }
}

/// How many bytes they take in version 1, where each chunk has all bytes of its class.
fn equal_chunks(bytes: &[u8], class: Class, count: u32) -> Option<usize>
    requires { count ≤ 2048 }
    ensures is { IfSome result (λ len. IsBody One class.exp count bytes.now len) }
    ensures only { (len : ℕ) → IsBody One class.exp count bytes.now len → result ≡ Some len }
{
    let len = count as usize * class.size() as usize;
    if len <= bytes.len() { Some(len) } else { None }
}

/// How many bytes they take in version 2, where each chunk stands after its length.
fn chunks_in(bytes: &[u8], class: Class, count: u32) -> Option<usize>
    requires few { count ≤ 2048 }
    ensures is { IfSome result (λ len. IsBody Two class.exp count bytes.now len) }
    ensures only { (len : ℕ) → IsBody Two class.exp count bytes.now len → result ≡ Some len }
{
    let mut at = 0;
    for _i in 0..count {
        at += chunk_in(rest_from(bytes, at), class)?;
    }
    Some(at)
}

/// How many bytes the packed chunk of a class takes that the bytes begin with, with its length.
fn chunk_in(bytes: &[u8], class: Class) -> Option<usize>
    ensures is { IfSome result (λ len. IsBody Two class.exp 1 bytes.now len) }
    ensures only { (len : ℕ) → IsBody Two class.exp 1 bytes.now len → result ≡ Some len }
    ensures within { IfSome result (λ len. len ≤ length bytes.now) }
{
    if bytes.len() < LENGTH_BYTES {
        return None;
    }
    let len = length_at(bytes, 0);
    let found = Class::of_len(u64::from(len))?;
    let end = LENGTH_BYTES + len as usize;
    if found.exp != class.exp || bytes.len() < end {
        return None;
    }
    Some(end)
}
