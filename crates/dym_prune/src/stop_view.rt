//! What the two ends of a stop know, as plain data.

/// What an end of a stop knows. Contracts alone see it, and no value of it is made.
pub struct StopView {
    /// This end is the one that asks.
    pub asks: bool,
    /// It has asked.
    pub asked: bool,
    /// It has heard that the stop was asked for.
    pub heard: bool,
    /// How often it listened and found that nobody had asked.
    pub misses: u64,
}
