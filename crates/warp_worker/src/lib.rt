//! A worker of a Time Warp run: some processes of a model, which one thread advances for a round at
//! a time.
//!
//! Below stands `warp_process`, and of `warp_threads` the trait `Lane`; above stands the run of all
//! workers. Its one contract: whatever messages a round brings, after it all events at its bound are
//! run, and what the worker's processes hold, have sent and send away is accounted for, event by
//! event (`HasAdvanced`).
#![tactic(auto)]

mod committing;
mod counts;
mod deliver;
mod ending;
mod opening;
mod order;
mod queue;
mod round;
mod running;
mod told;
mod worker;

pub use counts::Counts;
pub use ending::Ended;
pub use opening::OpenSaver;
pub use order::Order;
pub use worker::Worker;
