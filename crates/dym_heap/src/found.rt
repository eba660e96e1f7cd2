//! What a chunk's bytes name.

use dym_base::Handle;

/// What a number in a chunk's bytes names.
#[derive(Clone, Copy, Debug, PartialEq, Eq)]
pub enum Found {
    /// Nothing: the number is 0.
    Nil,
    /// This chunk, which is live.
    Live(Handle),
    /// No live chunk: the number itself.
    Loose(u64),
}
