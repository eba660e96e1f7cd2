//! What no clause says of jobs: that memory is given, that the gate is told of each turn once, that workers run at once, and that they steal.
ghost use Rattle.std.specs.Prelude.{◌≡◌, ◌<◌, ◌≤◌, ℕ, IfOk, length, slice_index_or, vec_len};
ghost use Rattle.dym_pool.specs.Jobs.{Numbered};

use crate::watch::Watch;
use dym_pool::{Job, run_jobs};
use std::alloc::{AllocError, Global};
use std::test::Fail;

/// Where a count came from.
struct Began {
    number: u32,
}

/// A job that counts its turns down.
#[derive(Drop)]
struct Count {
    number: u32,
    left: u32,
}

impl<R> Job<R> for Count {
    type Origin = Began;

    ghost number_of = { λ j. j.number };

    ghost left_of = { λ j. j.left };

    ghost origin_of = { λ j. record { number = j.number } };

    fn number(&self) -> u32 {
        self.number
    }

    fn left(&self) -> u32 {
        self.left
    }

    fn turn(&mut self, _rt: &R) {
        self.left -= 1;
    }
}

/// So many jobs, each of so many turns.
fn counts(alloc: Global, jobs: u32, turns: u32) -> Result<Vec<Count>, AllocError>
    ensures { IfOk result (λ counts. Numbered (λ j. j.number) counts.items) }
{
    let mut counts = Vec::with_capacity(alloc, jobs as usize)?;
    for number in 0..jobs {
        counts.push_reserved(Count {
            number,
            left: turns,
        });
    }
    Ok(counts)
}

/// Two workers each in a job of its own; a worker that steals past a neighbour with no job left; and lists of all lengths. A row is how many
/// jobs, turns of each, workers, and other workers that are held until worker 1 has entered which job.
#[test]
fn jobs_run_side_by_side_and_are_stolen(rt: HostRuntime) -> Result<(), Fail> {
    for [jobs, turns, workers, others, awaited] in [
        [2, 1, 2, 1, 1],
        [4, 2, 3, 2, 3],
        [0, 3, 2, 0, 0],
        [1, 1, 1, 0, 0],
        [5, 0, 2, 0, 0],
        [64, 2, 64, 0, 0],
        [4_097, 2, 3, 0, 0],
    ] {
        let watch = Watch::new(u64::from(others), awaited);
        let given = counts(rt.alloc(), jobs, turns)?;
        assert!(rt; run_jobs(&rt, rt.alloc(), given, workers, &watch).is_ok());
        let stolen = u64::from(others.min(1));
        assert!(rt;
            watch.seen() == [stolen, u64::from(jobs) * u64::from(turns), 0],
            "{jobs} jobs"
        );
    }
    Ok(())
}
