//! One simulation object: its heap, the chain of its logs, and how many commands it ran.
//!
//! Below stand the heap with the supply that its segments come from, the chain with the keep of its
//! records, and `dym_commands`, which tells a runner what each stored command is; above stands
//! whatever runs an object's commands. Its one contract: each method
//! for a command answers as one step of the definition replies, and leaves the object of that step
//! (`IsStep`); `run` does the same for a command that is a value. An object that lends its records
//! (`LentObject`) is a `KeptLogs`. A `Turn` runs stored commands on an object, with one place for all
//! of their replies.
#![tactic(auto)]

mod command_run;
mod heap_calls;
pub mod laws;
mod lent_object;
mod log_calls;
mod object;
mod turn;

pub use lent_object::LentObject;
pub use object::Object;
pub use turn::Turn;
