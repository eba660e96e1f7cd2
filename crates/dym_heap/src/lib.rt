//! The heap of one simulation object: chunks of twelve classes in areas, named by handles that
//! survive a rollback.
//!
//! Below stand the areas, and the supply that their segments come from; above stand the chain of
//! logs and the object. Its one contract: a heap is a map from handles to bytes, read from the use
//! bits, lengths and segments of its areas, and each call is one step of that map; `step` runs a
//! command that is a value, and `apply` counts it too. A heap lends its areas to be packed; shaped
//! to a record it has the record's handles, and a load writes each packed chunk that is live.
#![tactic(auto)]

mod address;
mod area_order;
mod areas;
mod byte_sum;
mod chunk;
mod chunk_load;
mod chunk_location;
mod chunk_undo;
mod command_run;
mod found;
mod fresh_chunk;
mod heap;
pub mod laws;
mod lengths;
mod live_walk;
mod record_fetch;
mod record_load;
mod record_shape;
pub mod replies;
mod shelf;
mod sized_area;

pub use found::Found;
pub use heap::Heap;
