//! What is told of a run by workers while it goes on.
use warp_worker::Counts;

/// Where a run by workers stands after a round. Its numbers are told, not proved.
#[derive(Clone, Copy, Debug)]
pub struct RoundReport {
    /// The time before which nothing can change any more.
    pub bound: u64,
    /// How many rounds were run.
    pub rounds: u64,
    /// How many events the rounds have committed.
    pub committed: u64,
    /// How many events were run, and how many of these were undone.
    pub counts: Counts,
}

impl RoundReport {
    /// Before the first round.
    pub(crate) const START: RoundReport = RoundReport {
        bound: 0,
        rounds: 0,
        committed: 0,
        counts: Counts::NONE,
    };
}

/// Who is told where a run stands.
pub trait Observer: Drop {
    /// Whether the times of the processes are told too. Where they aren't, nobody collects them.
    fn asks_times(&self) -> bool;

    /// Is told after each round but the last.
    fn observe(&mut self, report: &RoundReport);

    /// Is told before the first round and after each one, where it asks for it, the time before which
    /// nothing can change any more, and for each process, by its number, the time of its last event
    /// that stands, or 0. After the last round the first one is the end of the run. They are told, not
    /// proved.
    fn observe_times(&mut self, bound: u64, times: &[u64]);
}

impl<O: Observer> Observer for &mut O {
    fn asks_times(&self) -> bool {
        Observer::asks_times(&**self)
    }

    fn observe(&mut self, report: &RoundReport) {
        Observer::observe(&mut **self, report)
    }

    fn observe_times(&mut self, bound: u64, times: &[u64]) {
        Observer::observe_times(&mut **self, bound, times)
    }
}

/// Nobody.
#[derive(Clone, Copy, Debug)]
pub struct Unobserved;

impl Observer for Unobserved {
    fn asks_times(&self) -> bool {
        false
    }

    fn observe(&mut self, _report: &RoundReport) {}

    fn observe_times(&mut self, _bound: u64, _times: &[u64]) {}
}
