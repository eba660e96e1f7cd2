//! One simulation object over an undo log: its heap, the log of what its chunks were, and how many commands it ran.
//!
//! Below stand the heap with the supply that its segments come from, and the undo log; above stands
//! the library for C. The files of such objects are made of the undo log alone (`dym_undo_files`).
//! Its one contract: each method for a command answers as one step of the definition replies, and
//! leaves the object of that step (`IsStep`). What a chunk was is kept before a call changes it, so
//! that a log costs what changed. Over a region each chunk has an address, which no command changes
//! (`laws::commands_move_no_chunk`): to touch a chunk is the command that writes what stands there.
#![tactic(auto)]

mod addresses;
mod heap_calls;
mod keeps;
pub mod laws;
mod log_calls;
mod touches;
mod undo_object;

pub use undo_object::UndoObject;
