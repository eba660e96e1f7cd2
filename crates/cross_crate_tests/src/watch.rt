//! A gate that shows that workers run side by side and steal.
use dym_pool::Gate;
use std::sync::atomic::{AtomicU64, Ordering};
use std::thread;

/// How many times a held worker looks whether it may go on.
const PATIENCE: u64 = 20_000_000;

/// Holds each other worker in its first job until worker 1 has entered the awaited job, and worker 1 until so many others are held. It
/// counts turns and waves.
#[derive(Drop)]
pub(crate) struct Watch {
    others: u64,
    awaited: u32,
    held: AtomicU64,
    entered: AtomicU64,
    turns: AtomicU64,
    waves: AtomicU64,
}

impl Watch {
    /// Holds no one where `others` is 0.
    pub(crate) fn new(others: u64, awaited: u32) -> Watch {
        Watch {
            others,
            awaited,
            held: AtomicU64::new(0),
            entered: AtomicU64::new(0),
            turns: AtomicU64::new(0),
            waves: AtomicU64::new(0),
        }
    }

    /// Whether worker 1 entered the awaited job, and how many turns and waves there were.
    pub(crate) fn seen(&self) -> [u64; 3] {
        [
            self.entered.load(Ordering::SeqCst),
            self.turns.load(Ordering::SeqCst),
            self.waves.load(Ordering::SeqCst),
        ]
    }
}

/// Waits until a count is reached, but not for ever.
fn wait_for(count: &AtomicU64, least: u64) {
    for _ in 0..PATIENCE {
        if count.load(Ordering::SeqCst) >= least {
            return;
        }
        thread::yield_now();
    }
}

impl Gate for Watch {
    fn enter(&self, worker: u32, job: u32) {
        self.turns.fetch_add(1, Ordering::SeqCst);
        if self.others == 0 {
            return;
        }
        if worker == 1 {
            wait_for(&self.held, self.others);
            if job == self.awaited {
                self.entered.store(1, Ordering::SeqCst);
            }
        } else if worker == job {
            self.held.fetch_add(1, Ordering::SeqCst);
            wait_for(&self.entered, 1);
        }
    }

    fn wave(&self, _jobs: u32) {
        self.waves.fetch_add(1, Ordering::SeqCst);
    }
}
