//! The logs of one object: taken at simulation times, restored, and pruned.
//!
//! Below stand `dym_pack`, whose records hold the logs, `dym_slots`, in whose slots they may stand,
//! and `dym_heap`, which is logged and restored; above stands the object. Its one contract: a chain
//! is a list of dated whole copies over any keep of records, and each call is one step of that
//! list; the records from the last full one up to that of a log stand for its copy. `Belongs` is
//! what a chain and its heap have in common, `KeptLogs` tells each record while it is out, and
//! `Chain::adopt` makes a chain from records that are a lawful list, whose logs are those that they
//! say.
#![tactic(auto)]

mod chain;
mod differences;
mod entry;
mod entry_reader;
mod ghost_copies;
mod kept_logs;
pub mod laws;
mod log_error;
mod log_keep;
mod positions;
mod queue_front;
mod record_replay;
mod slot_keep;
mod vec_keep;

pub use chain::Chain;
pub use entry::Entry;
pub use kept_logs::KeptLogs;
pub use log_error::LogError;
pub use log_keep::LogKeep;
pub use slot_keep::SlotKeep;
pub use vec_keep::VecKeep;
