//! Accepted events.

use dym_base::{Command, Reply};

/// An event that was accepted, with its reply in the order of the times.
#[derive(Drop)]
pub(crate) struct Event {
    pub(crate) time: u64,
    pub(crate) command: Command,
    pub(crate) reply: Reply,
}
