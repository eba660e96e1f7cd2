//! The judge of a trace: a text that lists the steps of a log table, one event a line.
//!
//! Below stand `dym_base` and `dym_slots`, which defines the table's machine and proves what its
//! steps keep; above stands the program's order `trace`. Its one contract: the answer is the
//! verdict, the first line that is no event or no step, or that there is none.
#![tactic(auto)]

mod answer;
mod cut;
mod event_reader;
mod list;
mod machine;
mod verdict;

pub use answer::TraceAnswer;
pub use verdict::{check_trace, one_reading, one_verdict};
