//! The commands of one object, kept in little memory until they run, and the replies to them.
//!
//! Below stands `dym_base`; above stand the reader of scripts, which pushes what each line asks,
//! and whatever runs an object's commands. Its one contract: `Commands` is the list of what was
//! pushed and appended, and `run` has a `Runner` run each as the command that it is; how many bytes
//! its reads ask for is told. `Replies` is the list of the replies that were pushed, and how many
//! more have room, which is taken before the run. Nothing above sees how either is kept.
#![tactic(auto)]

mod command_block;
mod commands;
mod digits;
mod hex_bytes;
mod packed_handle;
mod replies;
mod request;
mod runner;
mod stored_command;

pub use commands::Commands;
pub use hex_bytes::HexBytes;
pub use replies::Replies;
pub use request::Request;
pub use runner::Runner;
