//! Checkpoint files of undo logs: the kept logs taken again as a chain of records, and an undo log
//! from the bytes of any file.
//!
//! Below stand the undo log, and the chain with its files; above stands the library for C. Its one
//! contract: what is saved is the definition's file of the logs taken again, so that it depends on
//! nothing but what each log brings back and when; what is loaded are the logs that the definition
//! says that the bytes are.
#![tactic(auto)]

mod brought_heap;
mod chunk_bytes;
pub mod laws;
mod loaded_logs;
mod scratch_heap;
mod taken_again;

pub use loaded_logs::undo_of_file;
pub use taken_again::file_of_undo;
