//! How far workers run ahead (`warp_run`), as the bounds of their rounds show it. No clause says so.
use std::alloc::Global;
use std::sync::Wait;
use std::test::Fail;
use std::thread::Threads;
use warp_models::{Phold, PholdOptions};
use warp_run::{Observer, Options, RoundReport, simulate_observed};

/// How many rounds are looked at, at most.
const MOST: usize = 40;

/// The bound after each of the first rounds.
#[derive(Drop)]
struct Bounds {
    bounds: [u64; MOST],
    rounds: usize,
    undone: u64,
}

impl Bounds {
    const NONE: Bounds = Bounds {
        bounds: [0; MOST],
        rounds: 0,
        undone: 0,
    };

    /// The window of a round that was not the first: there are events at every tick, so that the bound rises by a tick more.
    fn window(&self, round: usize) -> Option<u64> {
        if round == 0 || round >= self.rounds || round >= MOST {
            return None;
        }
        self.bounds[round]
            .checked_sub(self.bounds[round - 1])?
            .checked_sub(1)
    }
}

impl Observer for Bounds {
    fn asks_times(&self) -> bool {
        false
    }

    fn observe(&mut self, report: &RoundReport) {
        if self.rounds < MOST {
            self.bounds[self.rounds] = report.bound;
            self.rounds += 1;
        }
        self.undone = report.counts.undone;
    }

    fn observe_times(&mut self, _bound: u64, _times: &[u64]) {}
}

/// What is seen of a run up to a time: two processes, each with eight jobs and a worker, and hops of a tick or two, of 1,000 of which so many
/// go to the other process.
fn bounds_of<R: Threads + Wait + Sync>(
    rt: &R,
    alloc: Global,
    end: u64,
    remote: u32,
    window: Option<u64>,
) -> Result<Bounds, Fail> {
    let phold = Phold::new(PholdOptions {
        processes: 2,
        jobs: 8,
        remote,
        lookahead: 0,
        mean: 1,
        numbers: 0,
        changed: 0,
        work: 0,
        seed: 1,
    });
    let phold = phold.ok_or("no sense")?;
    let options = Options {
        end,
        workers: 2,
        window,
        period: 1,
    };
    let mut bounds = Bounds::NONE;
    if simulate_observed(rt, alloc, &phold, &options, &mut bounds).is_err() {
        return Err("a failure".into());
    }
    Ok(bounds)
}

// Where nothing is undone, the window is half larger after each eight rounds.
#[test]
fn a_window_grows_where_nothing_is_undone(rt: HostRuntime) -> Result<(), Fail> {
    let bounds = bounds_of(&rt, rt.alloc(), 300, 0, None)?;
    assert_eq!(rt; bounds.undone, 0);
    for round in 1..MOST {
        let window = [1, 2, 4, 7, 11][round / 8];
        assert_eq!(rt; bounds.window(round), Some(window), "round {round}");
    }
    Ok(())
}

// Where hops go to the other process, much is undone once workers run some ticks ahead, and a window that is chosen stays small. One that only
// grew would have four ticks and more from the 17th of some eighty rounds on, and most of what four ticks undo would be undone.
#[test]
fn a_window_stays_small_where_much_is_undone(rt: HostRuntime) -> Result<(), Fail> {
    let chosen = bounds_of(&rt, rt.alloc(), 80, 1000, None)?;
    let told = bounds_of(&rt, rt.alloc(), 80, 1000, Some(4))?;
    assert!(rt; chosen.undone > 0 && chosen.undone < told.undone / 8);
    Ok(())
}

#[test]
fn a_window_that_is_told_stays(rt: HostRuntime) -> Result<(), Fail> {
    let bounds = bounds_of(&rt, rt.alloc(), 450, 0, Some(9))?;
    for round in 1..MOST {
        assert_eq!(rt; bounds.window(round), Some(9), "round {round}");
    }
    Ok(())
}
