//! How objects run side by side.

/// How many workers take the objects' turns, how many segments all heaps have together, and the most commands of a turn.
#[derive(Clone, Copy, Debug, PartialEq, Eq)]
pub struct Shape {
    /// The workers, from 1 to 64.
    pub workers: u32,
    /// The segments of 65,536 bytes that objects which run at the same time hold at most, from 1 to 16,384.
    pub segments: u32,
    /// The most commands, from 1 to 65,536, of a turn. Between two turns of an object another worker may take it.
    pub quantum: u32,
}
