//! What a Time Warp simulation is about: events, messages, models, the histories of processes, and
//! the run in order with which every other run is compared.
//!
//! Below stands no crate of the repository; above stand the logical process (`warp_process`) and all
//! that runs processes. Its one contract, the laws in [`laws`]: below a bound at which nothing is left
//! to do, each process has exactly the history that the run in order gives it, whatever led there.
#![tactic(auto)]

mod event;
pub mod laws;
mod payload;
mod simulation;

pub use event::{Draft, Event, Message};
pub use payload::Payload;
pub use simulation::Simulation;
