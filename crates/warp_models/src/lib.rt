//! Models to simulate: PHOLD, the benchmark of the field; the cells of a mobile network; and M/M/1
//! queues in a ring, the model that the documents walk through.
//!
//! Below stand `warp_base`, which says what a model is, and `warp_process`, which asks that states
//! can be copied; above stands the program `timewarp`. Its
//! one contract: each model does what its definition in `specs/` says, and keeps the laws of a
//! model: what it sends is later than its cause, and is for one of its processes.
#![tactic(auto)]

mod cell_state;
mod cells;
mod checksums;
mod copies;
mod drafts;
mod phold;
mod queues;
mod random;

pub use cell_state::{Call, CellState};
pub use cells::{CellOptions, Cells};
pub use checksums::{Summed, checksum};
pub use phold::{Phold, PholdOptions, PholdState};
pub use queues::{Ring, RingOptions, Station};
