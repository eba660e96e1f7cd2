//! A logical process whose events another program runs, on an object in chunks over an undo log.
//!
//! Control is turned round: no model is called. `begin` hands an event out, the program changes the
//! object as its model does and tells what the event sends, and `end` goes on. The date of a log of
//! the object is the number of events that were run before it, so that a rollback is the object's own
//! restore; events behind that log are handed out once more, and what they send is dropped.
//!
//! Below stand `warp_process` and `dym_undo_object`; above stands `dym_c`. Its one contract: for
//! every behaviour, if what the program did to the object and what it sent is what the behaviour does,
//! then the process is that of the behaviour (`IsProcessOf`). Whether a program is deterministic is for
//! the program to see to.
#![tactic(auto)]

mod messages;
mod moment;
mod object_process;
mod replays;
mod steps;

pub use messages::{CommitError, TakeError};
pub use object_process::{ObjectProcess, OpenError};
pub use steps::{BeginError, EndError, HandedOut, SendError};
