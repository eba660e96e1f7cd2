//! Areas: one segment each, cut into equal chunks, with use and dirty bits.
//!
//! Below stand the segments of `dym_region`, whose bytes the chunks are, the bitmaps of `dym_bits`,
//! and the size classes of `dym_base`; above stands the heap, which keeps the areas of all classes.
//! Its one contract: an area is a plain record of its class, its place in the class, its use and
//! dirty bits and its segment's bytes, whatever the segment's type, and each call replaces what it
//! says of that record and nothing else.
#![tactic(auto)]

mod chunks;
mod ends;
mod summary;

pub use chunks::Area;
