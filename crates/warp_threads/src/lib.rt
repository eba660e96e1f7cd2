//! Threads that stay for a whole run and work in rounds: in each round the caller lends every
//! thread a lane with an order for it, works on the other lanes, and gets all of them back.
//!
//! Below stand crates of the toolchain alone; above stands the simulator, whose workers are lanes.
//! Its one contract: after a round each lane is the lane that it was, advanced by its order
//! (`AllAdvanced`), whichever thread did it and whether or not a thread could be made.
#![tactic(auto)]

mod borrower;
mod exchange;
mod lane;
mod lender;
mod packet;
mod run;
mod workers;

pub use lane::Lane;
pub use run::{Driver, with_workers};
pub use workers::Workers;
