//! What the definitions come to. Each law is the contract of a function that does nothing.
ghost use Rattle.std.specs.Prelude.{ℕ};
ghost use Rattle.warp_base.specs.Laws.{OneHistory, SequentialIsSound, SequentialEnds, OverStays, SettledIsFinal, BoundIsSafe, StatesAreReal, NothingBeyond};

use crate::payload::Payload;

/// Below a bound there is one consistent family of histories, whatever led to it.
pub fn histories_are_one<P: Payload, S>()
    ensures { OneHistory P.words S }
{}

/// At each step of the run in order, the states and what was sent are those of the histories that
/// it has run; once it is over, these are consistent up to its end.
pub fn sequential_run_is_sound<P: Payload, S>()
    ensures { SequentialIsSound P.words S }
{}

/// Where a consistent family of histories exists up to an end, the run in order is over after
/// finitely many steps.
pub fn sequential_run_ends<P: Payload, S>()
    ensures { SequentialEnds P.words S }
{}

/// A run in order that is over stays so: further steps change nothing.
pub fn over_stays_over<P: Payload, S>()
    ensures { OverStays P.words S }
{}

/// What is settled below a bound is final: no later state that is settled below a later bound
/// has another history below the first one.
pub fn settled_is_final<P: Payload, S>()
    ensures { SettledIsFinal P.words S }
{}

/// The bound is safe: below it, the committed past and the standing events are the run in order,
/// up to the tick before the bound, and the states after them are that run's.
pub fn bound_is_safe<P: Payload, S>()
    ensures { BoundIsSafe P.words S }
{}

/// Each state after events that stand below a bound at which all is settled is a state of the run
/// in order: a fault that is told of such a state is one that the run in order meets.
pub fn settled_states_are_real<P: Payload, S>()
    ensures { StatesAreReal P.words S }
{}

/// No process sends to a process that the model doesn't have.
pub fn nothing_is_sent_beyond<P: Payload, S>()
    ensures { NothingBeyond P.words S }
{}
