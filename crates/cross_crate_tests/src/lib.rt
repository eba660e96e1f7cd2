//! Tests of what several crates do together, and of what no clause says of one: that memory is there, that a source and a sink that fail
//! are told of, that chunks of a heap come back, that an object is as it was where an allocation failed, and that parts work side by side in threads.
//!
//! It stands on all of these and nothing stands on it: a crate with tests of its own is proved twice, so that those of the memory stand here,
//! and those of the simulator in `simulator_tests`. What the built program shows by
//! rows (`checks/lib/rows`), or a program in C (`checks/c`), is not shown here again.
#![tactic(auto)]

#[cfg(test)]
mod area_tests;
#[cfg(test)]
mod event_loop_tests;
#[cfg(test)]
mod heap_tests;
#[cfg(test)]
mod io_tests;
#[cfg(test)]
mod late_tests;
#[cfg(test)]
mod object_tests;
#[cfg(test)]
mod order_tests;
#[cfg(test)]
mod pool_tests;
#[cfg(test)]
mod pruner_tests;
#[cfg(test)]
mod script_tests;
#[cfg(test)]
mod slot_tests;
#[cfg(test)]
mod undo_file_tests;
#[cfg(test)]
mod undo_object_tests;
#[cfg(test)]
mod undo_tests;
#[cfg(test)]
mod view_tests;
#[cfg(test)]
mod watch;
#[cfg(test)]
mod word_tests;
