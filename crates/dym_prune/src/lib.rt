//! The pruner: it sweeps log tables until it is told to stop, in a thread of its own beside the
//! objects that log.
//!
//! Below stand `dym_slots`, whose sweepers it drives, and the shared words of `atomic_table`; above
//! stand waves of workers. Its one contract: only sweeps, each table at least once, and it ends
//! only where its ear has heard that the stop was asked for.
#![tactic(auto)]

mod stop;
pub mod stop_view;
mod sweep_loop;

pub use stop::{Asker, Ear, Stop};
pub use sweep_loop::pruner;
