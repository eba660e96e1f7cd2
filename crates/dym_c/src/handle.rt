//! Handles as C has them.
ghost use Rattle.std.specs.Prelude.{◌≡◌};
ghost use Rattle.dym_c.specs.Handles.{chunk_of, chunk_or_nil_of, c_handle, c_handle_or_nil};

use dym_base::Handle;
use dym_base::limits::{GREATEST_EXPONENT, LEAST_EXPONENT};

/// The name of a chunk, or nil, which is zero in both numbers.
#[repr(C)]
#[derive(Clone, Copy)]
pub struct DymHandle {
    pub exp: u8,
    pub index: u32,
}

impl DymHandle {
    /// No chunk.
    pub const NIL: DymHandle = DymHandle { exp: 0, index: 0 };
}

/// A chunk's handle, for C.
pub(crate) fn c_chunk(h: Handle) -> DymHandle
    ensures { result ≡ c_handle h }
{
    DymHandle {
        exp: h.exp,
        index: h.index,
    }
}

/// A chunk's handle or nil, for C.
pub(crate) fn c_chunk_or_nil(h: Option<Handle>) -> DymHandle
    ensures { result ≡ c_handle_or_nil h }
{
    match h {
        Some(h) => c_chunk(h),
        None => DymHandle::NIL,
    }
}

/// The chunk that C names, and None where the exponent is that of no class.
pub(crate) fn chunk_of_c(h: DymHandle) -> Option<Handle>
    ensures { result ≡ chunk_of h }
{
    if LEAST_EXPONENT <= h.exp && h.exp <= GREATEST_EXPONENT {
        Some(Handle {
            exp: h.exp,
            index: h.index,
        })
    } else {
        None
    }
}

/// The chunk or nil that C names, and None where it names neither.
pub(crate) fn chunk_or_nil_of_c(h: DymHandle) -> Option<Option<Handle>>
    ensures { result ≡ chunk_or_nil_of h }
{
    if h.exp == 0 && h.index == 0 {
        return Some(None);
    }
    chunk_of_c(h).map(Some)
}
