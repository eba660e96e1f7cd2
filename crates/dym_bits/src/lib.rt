//! Bitmaps of 2,048 bits, one for each chunk that a segment can have.
//!
//! Below stands `dym_base` alone, for the number of chunks; above stand the areas, whose use and
//! dirty bits these are, and the packed records, which hold them as bytes. Its one contract: a
//! `Bits` is a list of 2,048 truth values with its bytes, each call is an operation of that list,
//! and each search answers the least or the greatest index of its kind, or None exactly where there
//! is none.
#![tactic(auto)]

mod bitmap;
mod bytes;
mod scan;

pub use bitmap::Bits;
pub use bytes::BITMAP_BYTES;
