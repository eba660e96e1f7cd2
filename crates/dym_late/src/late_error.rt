//! Why no event was accepted.

use dym_base::Command;

/// Why no event was accepted.
#[derive(Drop, PartialEq)]
pub enum LateError {
    /// Its time is before the bound. Its command comes back, and nothing changed.
    Early { bound: u64, command: Command },
    /// Memory was wanting. The command is gone, and the heap of late events is broken.
    Memory,
}
