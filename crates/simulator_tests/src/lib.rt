//! Tests of the simulator's crates, each by its public calls, of what no clause says or of what is worked out by hand: events in the order of
//! their keys, messages in every order, rounds over threads, the models, and how far workers run ahead.
//!
//! It stands on all of these and nothing stands on it: a crate with tests of its own is proved twice. `cross_crate_tests` has those of the
//! memory, and the program `timewarp` its own.
#![tactic(auto)]

#[cfg(test)]
mod cell_tests;
#[cfg(test)]
mod event_tests;
#[cfg(test)]
mod lane_tests;
#[cfg(test)]
mod object_process_tests;
#[cfg(test)]
mod phold_tests;
#[cfg(test)]
mod process_tests;
#[cfg(test)]
mod queue_tests;
#[cfg(test)]
mod random_tests;
#[cfg(test)]
mod window_tests;
