//! What a viewer answers.

/// The last commit that a viewer knows: its number, its time, how many chunks its copy has, and the sum of their bytes.
#[derive(Clone, Copy, Debug, PartialEq, Eq)]
pub struct Glance {
    pub number: u64,
    pub time: u64,
    pub chunks: u32,
    pub total: u64,
}

/// What a read gave. Each number is that of the commit that was read.
#[derive(Clone, Copy, Debug, PartialEq, Eq)]
pub enum Seen {
    /// No commit is known.
    Nothing,
    /// The copy hasn't the chunk, or the bytes go past its end.
    Missing { number: u64 },
    /// The bytes were read.
    Bytes { number: u64 },
}
