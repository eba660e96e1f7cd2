//! Late events: those of one heap arrive in any order of their times. A straggler rolls the heap
//! back to a log before its place, and the events behind it run again.
//!
//! Below stand the heap with its supply, and the chain with the keep of its records; above stands
//! whatever hands in events. Its one contract: after each event that is accepted the heap is the
//! one that all accepted events make in the order of (time, arrival), each has its reply of that
//! order, and how many commands were run for it is exact; which events are too early is exact too.
#![tactic(auto)]

mod event;
mod late_error;
mod late_heap;
pub mod laws;
mod placement;
mod positions;
mod steps;
mod timeline;

pub use late_error::LateError;
pub use late_heap::LateHeap;
pub use placement::Placed;
