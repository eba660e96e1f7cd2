//! A logical process of a Time Warp run: it takes events and anti-messages in any order, runs events
//! ahead of what is certain, and rolls back where a straggler shows that it was wrong (aggressive
//! cancellation).
//!
//! Below stands `warp_base`; above stand the workers that run processes. Its one contract: whatever
//! it takes, and whatever it runs, a process stands as if the events that it has taken, and that
//! weren't taken back, had been run in the order of their keys (`IsProcess`), and what went out is
//! the difference of what was sent and what is sent now (`HasPosted`).
#![tactic(auto)]

mod commit;
mod given;
pub mod laws;
mod places;
mod posts;
mod process;
mod run;
mod saver;
mod whole_copies;

pub use process::{Process, TakeError};
pub use run::RunError;
pub use saver::StateSaver;
pub use whole_copies::{Copied, WholeCopies};
