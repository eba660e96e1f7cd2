//! Chunks that are copied one after the other into one list of bytes.
ghost use Rattle.std.specs.Prelude.{◌≡◌, ◌+◌, ◌*◌, ◌^◌, ◌<◌, ◌≤◌, [], ◌∷◌, ◌++◌, length, sum, OnOk};
ghost use Rattle.dym_base.specs.declared.limits.TheConstants.{SEGMENT_BYTES};

use std::alloc::{AllocError, Global};

/// Where a chunk stands in the bytes, under its handle's number.
#[derive(Clone, Copy)]
pub(crate) struct ChunkRange {
    pub(crate) number: u64,
    pub(crate) at: usize,
    pub(crate) len: usize,
}

/// Chunks by their handles' numbers, their bytes one after the other, and the sum of all bytes.
#[derive(Drop)]
pub(crate) struct ChunkCopies {
    pub(crate) chunk_ranges: Vec<ChunkRange>,
    pub(crate) bytes: Vec<u8>,
    pub(crate) total: u64,
}

impl ChunkCopies {
    ghost use Rattle.std.specs.Prelude.{ℕ, ◌≡◌, ◌+◌, ◌^◌, ◌<◌, ◌≤◌, [], ◌∷◌, ◌++◌, length, sum, OnOk, None, Some, MatchOption, vec_len};
    ghost use Rattle.std.specs.FinMap.{get};
    ghost use Rattle.std.specs.List.{HoldsAt};
    ghost use Rattle.dym_view.specs.Copies.{entries_of, copy_of, IsTable, IsWhole};

    /// No chunk.
    pub(crate) fn new(alloc: Global) -> ChunkCopies
        ensures table { IsTable result }
        ensures empty { entries_of result ≡ [] }
        ensures count { vec_len result.chunk_ranges ≡ 0 }
        ensures total { result.total ≡ 0 }
    {
        ChunkCopies {
            chunk_ranges: Vec::new(alloc),
            bytes: Vec::new(alloc),
            total: 0,
        }
    }

    /// Copies one more chunk.
    pub(crate) fn push(&mut self, number: u64, bytes: &[u8]) -> Result<(), AllocError>
        requires table { IsTable self.old }
        requires small { length bytes.now ≤ SEGMENT_BYTES }
        requires room { self.old.total < 2 ^ 62 }
        ensures table { OnOk result (IsTable self.new) }
        ensures entries { OnOk result (entries_of self.new
            ≡ entries_of self.old ++ (number, bytes.now) ∷ []) }
        ensures count { OnOk result (vec_len self.new.chunk_ranges
            ≡ vec_len self.old.chunk_ranges + 1) }
        ensures total { OnOk result (self.new.total ≤ self.old.total + 2 ^ 24) }
    {
        let at = self.bytes.len();
        self.bytes.extend_from_slice(bytes)?;
        self.chunk_ranges.push(ChunkRange {
            number,
            at,
            len: bytes.len(),
        })?;
        self.total += sum_of(bytes);
        Ok(())
    }

    /// The bytes of a chunk, and None where it wasn't copied.
    pub(crate) fn chunk(&self, number: u64) -> Option<&[u8]>
        requires { IsWhole self.now }
        ensures { MatchOption result (get (copy_of self.now) number ≡ None)
            (λ bytes. get (copy_of self.now) number ≡ Some bytes.now) }
    {
        match self.place(number) {
            Some(place) => Some(self.bytes_at(place)),
            None => None,
        }
    }

    /// The place of a chunk among the spots.
    fn place(&self, number: u64) -> Option<usize>
        requires { IsWhole self.now }
        ensures { MatchOption result (get (copy_of self.now) number ≡ None)
            (λ place. (place < vec_len self.now.chunk_ranges)
            × HoldsAt (λ chunk_range. chunk_range.number ≡ number)
            self.now.chunk_ranges.items place) }
    {
        match self
            .chunk_ranges
            .binary_search_by_key(&number, |chunk_range| chunk_range.number)
        {
            Ok(place) => Some(place),
            Err(_) => None,
        }
    }

    /// The bytes of the chunk in a place.
    fn bytes_at(&self, place: usize) -> &[u8]
        requires whole { IsWhole self.now }
        requires place { place < vec_len self.now.chunk_ranges }
        ensures { (number : ℕ)
            → HoldsAt (λ chunk_range. chunk_range.number ≡ number) self.now.chunk_ranges.items place
            → get (copy_of self.now) number ≡ Some result.now }
    {
        let chunk_range = self.chunk_ranges[place];
        &self.bytes[chunk_range.at..chunk_range.at + chunk_range.len]
    }
}

/// The sum of bytes as numbers.
fn sum_of(bytes: &[u8]) -> u64
    requires { length bytes.now ≤ SEGMENT_BYTES }
    ensures sum { result ≡ sum bytes.now }
    ensures few { result ≤ 2 ^ 24 }
{
    let mut total = 0;
    for byte in bytes {
        total += u64::from(*byte);
    }
    total
}
