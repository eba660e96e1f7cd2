//! To what times the processes of a run have come.
use std::alloc::{AllocError, Global};
use warp_base::Payload;
use warp_process::StateSaver;
use warp_worker::Worker;

/// The times of all processes, by their numbers; 0 where there is none.
#[derive(Drop)]
pub(crate) struct Times {
    /// Of the last event that is committed.
    committed: Vec<u64>,
    /// Of the last event that stands.
    last: Vec<u64>,
}

impl Times {
    /// Of processes that have run nothing.
    pub(crate) fn new(alloc: Global, processes: u32) -> Result<Times, AllocError> {
        Ok(Times {
            committed: Vec::from_elem(alloc, 0, processes as usize)?,
            last: Vec::from_elem(alloc, 0, processes as usize)?,
        })
    }

    /// Takes a round into account, after which these are the workers.
    pub(crate) fn note<P: Payload, K: StateSaver>(&mut self, workers: &[Worker<P, K>]) {
        for worker in workers {
            for event in worker.committed() {
                if let Some(time) = self.committed.get_mut(event.receiver as usize) {
                    *time = event.time;
                }
            }
            worker.note_times(&self.committed, &mut self.last);
        }
    }

    /// The time of each process's last event that stands.
    pub(crate) fn last(&self) -> &[u64] {
        &self.last
    }
}
