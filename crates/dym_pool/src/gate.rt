//! Where a test can hold a worker.

/// What a worker passes before each turn. It means nothing to a job: a test's gate holds workers, to see them run side
/// by side.
pub trait Gate: Sync {
    /// Before a turn of a job by the worker of that number.
    fn enter(&self, worker: u32, job: u32);

    /// Before the first turn of so many jobs.
    fn wave(&self, jobs: u32);
}

/// The gate of the program, which holds no one.
#[derive(Drop)]
pub struct FreeGate;

impl Gate for FreeGate {
    fn enter(&self, _worker: u32, _job: u32) {}

    fn wave(&self, _jobs: u32) {}
}
