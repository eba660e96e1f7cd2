//! What every crate speaks of: handles, classes, commands, replies, limits, and the definitions
//! that contracts cite. These stand in `specs/`: a heap as a finite map from handles to bytes, one
//! step of it, logs as whole copies, and a run.
//!
//! Below stands no crate of the repository; above stand nearly all. Its one contract: a handle and
//! its number, and a length and its class, are what the definitions say: `number` and `of_number`
//! undo each other, and `Class::of_len` is the least class that fits.
#![tactic(auto)]

pub mod bad_kind;
pub mod blob;
pub mod class;
pub mod command;
pub mod handle;
pub mod laws;
pub mod limits;
pub mod name;
pub mod reply;

pub use bad_kind::BadKind;
pub use blob::Blob;
pub use class::Class;
pub use command::{Command, Kind, Version};
pub use handle::Handle;
pub use name::{Name, is_name};
pub use reply::{Refusal, Reply};
