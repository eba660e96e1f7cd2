//! What a pass of the queue knows.
use dym_region::SegmentId;
use std::collections::LinkedList;

/// What the holder of a pass may take, what it holds and what it knows. Contracts alone see it: no value of it is made.
pub struct PassView {
    /// How many segments it may hold.
    pub quota: u64,
    /// The identities of those that it holds.
    pub held: LinkedList<SegmentId>,
    /// The identities that were stocked so far.
    pub stock: LinkedList<SegmentId>,
    /// Whether it is the one that stocks the queue.
    pub opens: bool,
}
