//! What became of a line of late events.

/// What became of a line of late events. The text that a line gets is known once all of its object's events are in.
#[derive(Clone, Copy)]
pub enum LateOutcome {
    /// The event was accepted as the one of this number, in the order of arrival.
    Accepted { number: u32 },
    /// The event was before the last commit, which is this.
    Early { bound: u64 },
    /// The line was a commit.
    Committed,
}
