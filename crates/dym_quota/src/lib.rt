//! Supplies of segments: a quota, and the segments that were taken within it. An `OwnSupply` has
//! segments of its own; a `Berth` takes from a queue that it shares with other berths, in any
//! number of threads.
//!
//! Below stand the segments of `dym_region`; above stands the heap, which takes a segment for each
//! new area and gives it back when the area goes. Its one contract: below its quota a supply always
//! answers a segment, and its list of identities tells which are out; its quota can change while
//! none is. A `QuotaQueue` is opened with a list of segments, as many as the berths' quotas sum to,
//! and closed with the same ones; `waves` answers the longest run of objects whose quotas fit.
#![tactic(auto)]

mod berth;
mod fixed_supply;
mod longest_run;
mod own_supply;
mod pass_view;
mod queue_setup;
mod queue_teardown;
mod quota_queue;
mod rule;
mod steps;
mod supply;

pub use berth::Berth;
pub use fixed_supply::FixedSupply;
pub use longest_run::waves;
pub use own_supply::OwnSupply;
pub use quota_queue::QuotaQueue;
pub use supply::Supply;
