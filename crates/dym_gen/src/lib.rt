//! Scripts that the program makes itself, by a seed.
//!
//! Below stand `dym_io`, which puts the text together and takes it, and `dym_script`, which defines
//! what a good script is; above stands the top call. Its one contract: the text that is written is
//! the definition's, or a front of it where the sink failed. Its laws: lines and texts have a
//! bound, and each made script is a good one, with as many objects and commands as were asked for.
//! It takes no memory.
#![tactic(auto)]

mod command;
mod command_place;
mod draws;
mod grammar_laws;
mod laws;
mod script;
mod word;

pub use grammar_laws::made_scripts_are_good;
pub use laws::{lines_are_short, scripts_are_short};
pub use script::gen_script;
