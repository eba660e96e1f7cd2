//! Committed views: a reader in a thread of its own sees the oldest kept log of an object while the
//! object runs on.
//!
//! Below stand the heap and the chain, whose oldest log a commit copies (`commit_of`); above stand
//! works that publish. Its one contract: a history of commits with rising times only
//! grows at its end; a viewer knows a beginning of it, which only grows too and never goes back
//! behind what it was told, and what `look` and `read` answer is a function of that.
#![tactic(auto)]

mod chunk_copies;
mod commit;
mod commit_copy;
mod glance;
mod history_rule;
mod known_history;
mod oldest_heap;
mod publication;
mod publisher;
mod told;
mod view_setup;
mod viewer;

pub use commit::Commit;
pub use commit_copy::commit_of;
pub use glance::{Glance, Seen};
pub use publisher::{Publisher, open_view};
pub use told::Told;
pub use viewer::Viewer;
