//! The head of a change.

use dym_base::Handle;

/// A chunk that was changed, and how many bytes it had, if it was live.
#[derive(Clone, Copy)]
pub struct Head {
    pub handle: Handle,
    pub len: Option<u32>,
}
