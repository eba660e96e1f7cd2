//! What a worker knows of a share.
use std::collections::LinkedList;

/// What its holder knows of one share of the jobs. Contracts alone see it: no value of it is made.
pub struct ShareView<O> {
    /// The number and the origin of each job of the share.
    pub list: LinkedList<(u32, O)>,
    /// The number and the origin of each job that the holder has taken.
    pub hand: LinkedList<(u32, O)>,
    /// The holder's part of the whole.
    pub part: u64,
}
