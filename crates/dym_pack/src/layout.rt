//! The fixed parts of a record.
ghost use Rattle.std.specs.Prelude.{◌≡◌, ◌==◌, slice_index, ◌+◌, ◌/◌, ◌%◌, ◌<◌, ◌≤◌, ◌∷◌, ◌++◌, max, length, OnOk};
ghost use Rattle.std.specs.Int.{w32, w64, bit_at, to_le_bytes};
ghost use Rattle.dym_base.specs.Numbers.{per};
ghost use Rattle.dym_base.specs.Packed.{kind_byte};
ghost use Rattle.dym_pack.specs.Offsets.{name_bytes};
ghost use Rattle.dym_base.specs.declared.command.Version.{Version};
ghost use Rattle.dym_base.specs.declared.command.Kind.{Kind};

use dym_base::{Class, Kind, Version};
use std::alloc::AllocError;

/// The kind, the time and the number of areas.
pub(crate) const HEADER_BYTES: usize = 13;

/// The class and the ordinal of an area.
pub(crate) const NAME_BYTES: usize = 5;

/// The byte that begins a record.
pub(crate) fn byte_of_kind(version: Version, kind: Kind) -> u8
    ensures { result ≡ kind_byte version kind }
{
    match (version, kind) {
        (Version::One, Kind::Full) => b'F',
        (Version::One, Kind::Inc) => b'I',
        (Version::Two, Kind::Full) => b'f',
        (Version::Two, Kind::Inc) => b'i',
    }
}

/// The bytes of a bitmap of the chunks of a class.
pub(crate) fn map_bytes(class: Class) -> u32
    ensures value { result ≡ max 1 (per class.exp / 8) }
    ensures few { result ≤ 256 }
{
    (class.per_area() / 8).max(1)
}

/// Appends what stands before the areas.
pub(crate) fn put_header(
    version: Version,
    kind: Kind,
    time: u64,
    count: u32,
    out: &mut Vec<u8>,
) -> Result<(), AllocError>
    ensures { OnOk result (out.new.items ≡ out.old.items
        ++ (kind_byte version kind ∷ to_le_bytes w64 time ++ to_le_bytes w32 count)) }
{
    out.push(byte_of_kind(version, kind))?;
    out.extend_from_slice(&time.to_le_bytes())?;
    out.extend_from_slice(&count.to_le_bytes())
}

/// The class and the ordinal of an area.
pub(crate) fn name_of(exp: u8, ordinal: u32) -> [u8; NAME_BYTES]
    ensures { result ≡ name_bytes exp ordinal }
{
    let mut out = [0; NAME_BYTES];
    out[0] = exp;
    out[1..NAME_BYTES].copy_from_slice(&ordinal.to_le_bytes());
    out
}

/// The version that the first byte of a record tells.
pub(crate) fn version_of(byte: u8) -> Version
    ensures { (version : Version) (kind : Kind) → byte ≡ kind_byte version kind → result ≡ version }
{
    match byte {
        b'f' | b'i' => Version::Two,
        _ => Version::One,
    }
}

/// The kind that the first byte of a record tells.
pub(crate) fn kind_of(byte: u8) -> Kind
    ensures { (version : Version) (kind : Kind) → byte ≡ kind_byte version kind → result ≡ kind }
{
    match byte {
        b'I' | b'i' => Kind::Inc,
        _ => Kind::Full,
    }
}

/// Whether bit `i` of a bitmap's bytes is set.
pub(crate) fn is_bit(bytes: &[u8], i: u32) -> bool
    requires { i / 8 < length bytes.now }
    ensures { result ≡ (bit_at (slice_index bytes.now (i / 8)) (i % 8) == 1) }
{
    (bytes[(i / 8) as usize] >> (i % 8)) & 1 == 1
}
