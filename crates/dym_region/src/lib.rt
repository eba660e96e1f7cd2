//! Segments: 65,536 bytes each, with one owner. A segment lies in a vector of its own, or is cut
//! from one large block that all segments of a region share.
//!
//! Below stand `dym_base`'s limits and std's allocators; above, the areas cut segments into chunks,
//! and the quotas hand them out. Its one contract is the trait `Segment`: a list of 65,536 bytes
//! that `read`, `write` and `zero` treat as a list, how many of them are real, and an identity that
//! no call changes. Its memory is touched only as far as its bytes were used.
#![tactic(auto)]

mod block;
mod raw_segment;
mod region;
mod segment;
mod used_bytes;
mod vec_segment;

pub use raw_segment::RawSegment;
pub use region::Region;
pub use segment::{Segment, SegmentId};
pub use vec_segment::VecSegment;
