//! The reader of scripts: it turns bytes into declarations and commands, or names the first bad
//! line.
//!
//! Below stand `dym_base` and `dym_commands`; above stand whatever runs what was read, and the
//! generator. Its one contract: what is read is what the grammar in `specs/` gives for the same
//! bytes, also where they come piece by piece (`Pieces`), and a `Keeper`, to which each declaration
//! and what each line asks is handed, keeps what it needs of just these: `PartCollector` each
//! object's own commands, `Counter` nothing. A script in memory is read side by side by threads, to
//! the same commands of each object (`read_parallel`), or as whole lines (`read_script`).
//! Scripts of late events have a grammar and a reader of their own over the same words,
//! `read_late`.
//!
//! What a line asks has two readers. The exact one finds the `Verb` of its word in the table of
//! commands (`specs/Table.antt`), and then what the words behind it ask, or what is wrong with them
//! first. The quick one, `quick_rest`, is for lines in the usual spelling: where it answers, the
//! line asks that, and of what it gives up it says nothing.
#![tactic(auto)]

mod counter;
mod keeper;
mod late_reader;
pub mod late_script;
mod late_words;
mod laws;
mod line_fail;
mod line_list;
mod line_tests;
mod lines;
mod name_cache;
mod object_commands;
mod operands;
mod parallel_reader;
mod parts;
mod pieces;
mod quick;
mod read_ahead;
mod reader;
pub mod script;
mod verb;

pub use counter::Counter;
pub use keeper::Keeper;
pub use late_reader::read_late;
pub use late_script::{LateAct, LateLine, LateScript};
pub use laws::{first_fault, no_more_are_accepted};
pub use line_list::read_script;
pub use object_commands::own_commands;
pub use parallel_reader::read_parallel;
pub use parts::{Part, PartCollector};
pub use pieces::{Pieces, WholeScript};
pub use quick::quick_rest;
pub use script::{Decl, Line, Script, ScriptFail};
pub use verb::Verb;
