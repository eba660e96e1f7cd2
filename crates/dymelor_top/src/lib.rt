//! The top calls: an order of words, a source and a sink in, the defined answer out.
//!
//! Below stand the crates that read, run and print; above stands `main` alone. Its one contract is
//! the headline: whatever the words, the input, the source and the sink, the bytes written are a
//! prefix of the defined answer, and all of it at status 0, 1 or 2.
#![tactic(auto)]

mod answer;
mod blocks;
mod finish;
mod generator_text;
mod late_order;
mod late_outcome;
mod late_parts;
mod late_run;
mod laws;
mod load_order;
mod plain_order;
mod read_input;
mod save_order;
mod segment_store;
mod still_call;
mod stop;
mod summary;
mod waves;
mod whole_call;

pub use laws::one_answer;
pub use still_call::dymelor_still;
pub use whole_call::dymelor;
