//! Bytes and some places in them, in one allocation.
ghost use Rattle.std.specs.Prelude.{◌≡◌, ℕ, ◌+◌, ◌<◌, ◌≤◌, List, [], ◌∷◌, ◌++◌, length, slice_index_or, IfOk, OnOk};
ghost use Rattle.dym_pack.specs.Layouts.{laid, word_of};

use std::alloc::{AllocError, Global};
use std::marker::Model;

/// The bytes of a place.
const PLACE_BYTES: usize = 8;

/// Bytes, and behind them some places in them. The last place is where the bytes end.
#[derive(Drop)]
pub(crate) struct IndexedBytes {
    all: Vec<u8>,
}

impl Model for IndexedBytes {
    ghost use Rattle.dym_pack.specs.Layouts.{HasOffsets, bytes_of, offsets_of, IsLaid};

    ghost Value = { HasOffsets };

    ghost view = { λ p. record { bytes = bytes_of p.all.items; offsets = offsets_of p.all.items } };

    ghost invariant = { λ p. IsLaid p.all.items };
}

impl IndexedBytes {
    /// Bytes with these places. It takes no memory where their vector has room for the places.
    pub(crate) fn of(mut bytes: Vec<u8>, offsets: &[usize]) -> Result<IndexedBytes, AllocError>
        requires end { (before : List ℕ) × (offsets.now ≡ before ++ length bytes.items ∷ []) }
        ensures { IfOk result (λ p. p ≡ record { bytes = bytes.items; offsets = offsets.now }) }
    {
        put_offsets(offsets, &mut bytes)?;
        Ok(IndexedBytes { all: bytes })
    }

    /// A copy of bytes with these places.
    pub(crate) fn copied(
        alloc: Global,
        bytes: &[u8],
        offsets: &[usize],
    ) -> Result<IndexedBytes, AllocError>
        requires end { (before : List ℕ) × (offsets.now ≡ before ++ length bytes.now ∷ []) }
        ensures { IfOk result (λ p. p ≡ record { bytes = bytes.now; offsets = offsets.now }) }
    {
        let mut copy = with_room(alloc, bytes.len(), offsets.len())?;
        copy.extend_from_slice(bytes)?;
        IndexedBytes::of(copy, offsets)
    }

    /// The bytes.
    pub(crate) fn bytes(&self) -> &[u8]
        ensures { result.now ≡ self.now.bytes }
    {
        &self.all[..self.end()]
    }

    /// How many places there are.
    pub(crate) fn offset_count(&self) -> usize
        ensures { result ≡ length self.now.offsets }
    {
        (self.all.len() - self.end()) / PLACE_BYTES
    }

    /// Place `k`.
    pub(crate) fn offset(&self, k: usize) -> usize
        requires { k < length self.now.offsets }
        ensures { result ≡ slice_index_or self.now.offsets k 0 }
    {
        word_at(&self.all, self.end() + PLACE_BYTES * k) as usize
    }

    /// Where the bytes end.
    fn end(&self) -> usize
        ensures { result ≡ length self.now.bytes }
    {
        word_at(&self.all, self.all.len() - PLACE_BYTES) as usize
    }
}

/// An empty vector with room for so many bytes and for places in them.
pub(crate) fn with_room(alloc: Global, len: usize, offsets: usize) -> Result<Vec<u8>, AllocError>
    ensures { IfOk result (λ bytes. bytes.items ≡ []) }
{
    Vec::with_capacity(
        alloc,
        len.saturating_add(offsets.saturating_mul(PLACE_BYTES)),
    )
}

/// Appends places.
fn put_offsets(offsets: &[usize], out: &mut Vec<u8>) -> Result<(), AllocError>
    ensures { OnOk result (out.new.items ≡ laid out.old.items offsets.now) }
{
    for k in 0..offsets.len() {
        out.extend_from_slice(&(offsets[k] as u64).to_le_bytes())?;
    }
    Ok(())
}

/// The number of eight bytes that begins at `at`.
pub(crate) fn word_at(bytes: &[u8], at: usize) -> u64
    requires { at + 8 ≤ length bytes.now }
    ensures { result ≡ word_of bytes.now at }
{
    let eight = &bytes[at..at + PLACE_BYTES];
    u64::from_le_bytes([
        eight[0], eight[1], eight[2], eight[3], eight[4], eight[5], eight[6], eight[7],
    ])
}
