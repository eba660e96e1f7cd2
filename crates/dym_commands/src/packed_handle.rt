//! Handles without gaps, so that a command with two of them fits in 16 bytes.
ghost use Rattle.std.specs.Prelude.{◌≡◌};
ghost use Rattle.dym_commands.specs.Handles.{handle_of, handle_or_nil_of};

use dym_base::Handle;

/// A handle without a gap between its parts, so that it stands at any place.
#[derive(Clone, Copy)]
pub struct PackedHandle {
    exp: u8,
    index: [u8; 4],
}

/// A handle without gaps.
#[inline(always)]
pub fn pack(h: Handle) -> PackedHandle
    ensures { handle_of result ≡ h }
{
    PackedHandle {
        exp: h.exp,
        index: h.index.to_le_bytes(),
    }
}

/// The handle.
#[inline(always)]
pub fn unpack(h: PackedHandle) -> Handle
    ensures { result ≡ handle_of h }
{
    Handle {
        exp: h.exp,
        index: u32::from_le_bytes(h.index),
    }
}

/// A handle without gaps, or nil.
#[inline(always)]
pub fn pack_or_nil(h: Option<Handle>) -> Option<PackedHandle>
    ensures { handle_or_nil_of result ≡ h }
{
    Some(pack(h?))
}

/// The handle, or nil.
#[inline(always)]
pub fn unpack_or_nil(h: Option<PackedHandle>) -> Option<Handle>
    ensures { result ≡ handle_or_nil_of h }
{
    Some(unpack(h?))
}
