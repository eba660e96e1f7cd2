//! Checkpoint files: an object's kept logs as bytes, and a heap with its chain of logs from bytes
//! that anyone may have made.
//!
//! Below stand `dym_io`, to whose sinks a file goes, `dym_pack`, whose records stand in it, and
//! `dym_heap` with `dym_chain`, of which a file is made and which are made of it; above stand the
//! top call and the object for C. Its one contract: what is saved is the definition's file, or a
//! front of it where the sink failed, and what is loaded is what the definition says that the bytes
//! are; where they are no file, the answer is the first part that fails.
#![tactic(auto)]

mod bit_cover;
mod file_in_memory;
mod file_reader;
mod file_writer;
mod header;
pub mod laws;
mod record_order;
mod records;

pub use file_in_memory::file_bytes;
pub use file_reader::{FileContent, FileFail, Loaded, load_file, read_file};
pub use file_writer::{save, saved_len};
