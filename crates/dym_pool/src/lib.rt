//! A pool of workers: jobs are dealt to shares, and each worker runs those of its own share and
//! then steals from the others. It runs a turn of a job at a time, and all jobs come back in order.
//!
//! Below stand crates of the toolchain alone; above stand the waves, whose objects are jobs. Its
//! one contract: every job is back once, in its place, with its number and its origin, and with
//! nothing left to do (`EveryJobBack`), or the jobs are as they were.
#![tactic(auto)]

mod boxed_job;
mod boxes;
mod distribution;
mod gate;
mod job;
mod own_share;
mod own_steps;
mod pool;
mod result_slots;
mod ring;
mod rule;
mod steal_share;
mod steal_share_steps;
mod steps;
mod turns;
mod view;
mod worker;
mod workers;

pub use gate::{FreeGate, Gate};
pub use job::Job;
pub use pool::run_jobs;
