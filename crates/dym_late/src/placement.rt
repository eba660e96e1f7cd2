//! Where an event was placed.

/// Where an event was placed, and what this cost.
#[derive(Clone, Copy, Debug, PartialEq, Eq)]
pub struct Placed {
    /// How many events stand before it in the order of the times.
    pub at: u32,
    /// How many commands were run: its own, and those that had to run again.
    pub replayed: u32,
}
