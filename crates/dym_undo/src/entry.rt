//! A kept log, as callers see it.

/// The time of a kept log, and how many logs stand between it and the last full one.
#[derive(Clone, Copy, Debug, PartialEq, Eq)]
pub struct Entry {
    pub time: u64,
    pub depth: u8,
}
