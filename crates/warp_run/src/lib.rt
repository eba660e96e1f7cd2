//! Runs of a model: in order by one queue of events, and by workers that run ahead of what is
//! certain (Time Warp), each in a thread of its own.
//!
//! Below stand `warp_base`, which says what a model and its run in order are, `warp_worker`, whose
//! workers have the processes, and `warp_threads`, in whose rounds they work; above stands the
//! program `timewarp`. Its one contract: what [`run_in_order`] and [`simulate`] return is the
//! end of the run in order, whatever the workers, or a fault of the model's own that this run meets.
#![tactic(auto)]

mod by_workers;
mod exchange;
mod finished;
mod in_order;
mod observer;
mod options;
mod progress;
mod queue;
mod rounds;
mod times;
mod window;

pub use by_workers::{simulate, simulate_observed};
pub use finished::{Failure, Finished};
pub use in_order::run_in_order;
pub use observer::{Observer, RoundReport, Unobserved};
pub use options::Options;
pub use warp_worker::Counts;
