//! What a simulation returns.
ghost use Rattle.std.specs.Prelude.{◌≡◌, ◌⊎◌};
ghost use Rattle.warp_process.specs.declared.run.RunError.TheVariants.{Counts};
ghost use Rattle.warp_run.specs.declared.finished.Failure.TheVariants.{OutOfMemory, TooManyEvents};

use std::alloc::{AllocError, AllocFailed};
use warp_process::RunError;
use warp_worker::Counts;

/// What a simulation comes to.
#[derive(Debug, Drop)]
pub struct Finished<S> {
    /// The state of each process at the end.
    pub states: Vec<S>,
    /// How many events were run and stand.
    pub committed: u64,
    /// How many events were run, and how many of these were undone. It is told, not proved.
    pub counts: Counts,
    /// In how many rounds workers ran them; 0 in order. It is told, not proved.
    pub rounds: u64,
}

/// Why a simulation has no end to return.
#[derive(Clone, Copy, Debug)]
pub enum Failure {
    /// There is no memory for it.
    OutOfMemory,
    /// The model came to a state that is a fault of its own, in this process. In order it is the first
    /// such state; by workers it is one to which the run in order comes too, and maybe a later one.
    Fault { process: u32 },
    /// In order: the run has 2^64 - 1 events or more, or a process sends 2^64. By workers such a
    /// count may be of events some of which would be undone: then the run in order has half as many at
    /// least, or a process that sends so many with what one event more would send.
    TooManyEvents,
}

impl From<AllocError> for Failure {
    ghost from_gives = { λ _ f. f ≡ OutOfMemory };

    fn from(_error: AllocError) -> Failure {
        Failure::OutOfMemory
    }
}

impl<T: Drop> From<AllocFailed<T>> for Failure {
    ghost from_gives = { λ _ f. f ≡ OutOfMemory };

    fn from(_error: AllocFailed<T>) -> Failure {
        Failure::OutOfMemory
    }
}

impl From<RunError> for Failure {
    ghost from_gives = { λ e f. (f ≡ OutOfMemory) ⊎ ((f ≡ TooManyEvents) × (e ≡ Counts)) };

    fn from(error: RunError) -> Failure {
        match error {
            RunError::Memory => Failure::OutOfMemory,
            RunError::Counts => Failure::TooManyEvents,
        }
    }
}
