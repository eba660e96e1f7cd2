//! Logs of one object that cost what changed: what a chunk was is kept at its first change after a log, and a restore puts
//! that back.
//!
//! Below stands the heap, of which the log asks what the trait `UndoHeap` says. Its one contract: an
//! undo log and its heap are an object, and a log, a restore and a prune are the steps of that
//! object that `Objects` defines.
#![tactic(auto)]

mod entry;
mod ghost_logs;
mod head;
mod heap_undo;
mod kept_changes;
mod log_error;
mod passes;
mod positions;
mod rooms;
mod stamps;
mod undo_heap;
mod undo_log;

pub use entry::Entry;
pub use head::Head;
pub use log_error::LogError;
pub use undo_heap::UndoHeap;
pub use undo_log::UndoLog;
