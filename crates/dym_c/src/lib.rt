//! The object and the logical process for C: a static library, whose exports `include/dymelor.h` and `include/dymelor_process.h`
//! declare.
//!
//! Below stand `dym_undo_object`, `dym_undo_files` and `warp_object`, whose calls these are; above stands a program
//! in C, and no crate can. Its one contract: each export does to what C keeps what the call does
//! that it makes, and answers a status (`status_of`, `IsAfter`, `reply_of` of an object; `specs/ProcessExports.antt` of a process).
//! Every number that C hands in is tested; only that pointers are what the header says is left to C. An object is kept
//! as a box's bare pointer, and so is a process (`Kept`): what goes in as a box comes out as a box with the same value (`Held`),
//! and a call borrows what is inside where it lies (`DymObject::inside`).
#![tactic(auto)]

mod box_pointer;
mod chunk_calls;
mod events;
mod files;
mod handle;
mod heap_calls;
mod heap_copy;
mod inspection;
mod kept;
pub mod laws;
mod lifetime;
mod log_calls;
mod long_buffers;
mod object;
mod object_content;
mod out_values;
mod process;
mod process_calls;
mod process_content;
mod process_lifetime;
mod process_results;
mod status;
mod untold_chunks;
mod version;

pub use events::{DymData, DymEvent, DymMessage};
pub use handle::DymHandle;
pub use object::DymObject;
pub use object_content::ObjectContent;
pub use out_values::{DymBytes, DymFound, DymHeap, DymSlots};
pub use process::{DymProcess, KeptProcess};
pub use process_content::ProcessContent;
pub use process_lifetime::DymProcessConfig;
pub use process_results::DymProgress;
