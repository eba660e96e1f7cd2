//! A run of a model, and what the program tells of it.
ghost use Rattle.std.specs.Prelude.{◌≡◌, IfOk, IfErr};
ghost use Rattle.timewarp.specs.Reports.{TellsEnd, Tells, FailsAs, Fails};
ghost use Rattle.warp_models.specs.Checksums.{checksum_of};
ghost use Rattle.warp_run.specs.Ends.{FaultsAt, FaultsFirstAt, IsTooLong, IsHalfTooLong};
ghost use Rattle.warp_run.specs.Failures.{MatchFailure};

use crate::words::{Choice, Order, Way};
use std::alloc::Global;
use std::sync::Wait;
use std::thread::Threads;
use warp_base::{Payload, Simulation};
use warp_models::{Summed, checksum};
use warp_process::Copied;
use warp_run::{Counts, Failure, Finished, Observer, Options, run_in_order, simulate_observed};

/// What the program tells of a run.
#[derive(Clone, Copy, Debug, PartialEq, Eq)]
pub struct Report {
    /// How many events were run and stand.
    pub committed: u64,
    /// A checksum of all states at the end.
    pub checksum: u64,
    /// How many events were run, and how many of these were undone.
    pub counts: Counts,
    /// In how many rounds workers ran them; 0 in order.
    pub rounds: u64,
}

impl Report {
    /// What is told of the end of a run.
    fn of<S: Summed>(finished: &Finished<S>) -> Report
        ensures committed { result.committed ≡ finished.now.committed }
        ensures checksum { result.checksum ≡ checksum_of S.sum finished.now.states.items }
    {
        Report {
            committed: finished.committed,
            checksum: checksum(&finished.states),
            counts: finished.counts,
            rounds: finished.rounds,
        }
    }
}

/// Simulates a model in order, up to the end.
fn simulate_in_order<M: Simulation>(alloc: Global, model: &M, end: u64) -> Result<Report, Failure>
where
    M::State: Summed,
    ensures ok { IfOk result (λ r. TellsEnd M.Payload.words (M.behaviour model.now)
        (M.processes model.now) M.State.sum end r.committed r.checksum) }
    ensures failure { IfErr result (MatchFailure
        (FaultsFirstAt M.Payload.words (M.behaviour model.now) (M.processes model.now) end)
        (IsTooLong M.Payload.words (M.behaviour model.now) (M.processes model.now) end)) }
{
    match run_in_order(alloc, model, end) {
        Ok(finished) => Ok(Report::of(&finished)),
        Err(failure) => Err(failure),
    }
}

/// Simulates a model by workers, up to the end.
fn simulate_ahead<M, R, O>(
    rt: &R,
    alloc: Global,
    model: &M,
    options: &Options,
    observer: O,
) -> Result<Report, Failure>
where
    M: Simulation + Sync,
    M::Payload: Send,
    M::State: Copied + Summed + Send,
    R: Threads + Wait + Sync,
    O: Observer,
    ensures ok { IfOk result (λ r. TellsEnd M.Payload.words (M.behaviour model.now)
        (M.processes model.now) M.State.sum options.now.end r.committed r.checksum) }
    ensures failure { IfErr result (MatchFailure
        (FaultsAt M.Payload.words (M.behaviour model.now) (M.processes model.now) options.now.end)
        (IsHalfTooLong M.Payload.words (M.behaviour model.now) (M.processes model.now) options.now.end)) }
{
    match simulate_observed(rt, alloc, model, options, observer) {
        Ok(finished) => Ok(Report::of(&finished)),
        Err(failure) => Err(failure),
    }
}

/// Simulates a model in the way that is told, up to the end.
fn simulate_model<M, R, O>(
    rt: &R,
    alloc: Global,
    model: &M,
    way: Way,
    end: u64,
    observer: O,
) -> Result<Report, Failure>
where
    M: Simulation + Sync,
    M::Payload: Send,
    M::State: Copied + Summed + Send,
    R: Threads + Wait + Sync,
    O: Observer,
    ensures ok { IfOk result (λ r. TellsEnd M.Payload.words (M.behaviour model.now)
        (M.processes model.now) M.State.sum end r.committed r.checksum) }
    ensures failure { IfErr result (FailsAs way M.Payload.words (M.behaviour model.now)
        (M.processes model.now) end) }
{
    match way {
        Way::InOrder => simulate_in_order(alloc, model, end),
        Way::Ahead {
            workers,
            window,
            period,
        } => {
            let options = Options {
                end,
                workers,
                window,
                period,
            };
            simulate_ahead(rt, alloc, model, &options, observer)
        }
    }
}

/// Simulates what the words ask for, and tells the observer of a run by workers where it stands.
pub fn simulate<R: Threads + Wait + Sync, O: Observer>(
    rt: &R,
    alloc: Global,
    order: &Order<'_>,
    observer: O,
) -> Result<Report, Failure>
    ensures ok { IfOk result (λ r. Tells order.now.choice order.now.end r.committed r.checksum) }
    ensures failure { IfErr result (Fails order.now.choice order.now.way order.now.end) }
{
    match &order.choice {
        Choice::Phold(model) => simulate_model(rt, alloc, model, order.way, order.end, observer),
        Choice::Cells(model) => simulate_model(rt, alloc, model, order.way, order.end, observer),
        Choice::Queues(model) => simulate_model(rt, alloc, model, order.way, order.end, observer),
    }
}

#[cfg(test)]
mod tests {
    use super::*;
    use std::test::Fail;
    use warp_models::{Ring, RingOptions};
    use warp_run::Unobserved;

    /// Services and ways of one tick: each station serves a job each tick, from 1 on, and each
    /// that was served comes to the next station a tick later.
    const RING: RingOptions = RingOptions {
        stations: 3,
        jobs: 2,
        half_life: 0,
        travel: 0,
        room: 2,
        seed: 1,
    };

    #[test]
    fn a_job_is_served_each_tick(rt: HostRuntime) -> Result<(), Fail> {
        let ring = Ring::new(RING).ok_or("no sense")?;
        let finished = run_in_order(rt.alloc(), &ring, 10).map_err(|_| "no end")?;
        assert_eq!(rt; finished.committed, 3 * 10 + 3 * 9);
        assert_eq!(rt; finished.states.len(), 3);
        for station in &finished.states {
            assert_eq!(rt; (station.waiting, station.served), (1, 10));
        }
        Ok(())
    }

    #[test]
    fn nothing_is_run_before_the_first_event(rt: HostRuntime) -> Result<(), Fail> {
        let ring = Ring::new(RING).ok_or("no sense")?;
        let finished = run_in_order(rt.alloc(), &ring, 0).map_err(|_| "no end")?;
        assert_eq!(rt; finished.committed, 0);
        for station in &finished.states {
            assert_eq!(rt; (station.waiting, station.served), (2, 0));
        }
        Ok(())
    }

    #[test]
    fn a_fault_is_told(rt: HostRuntime) -> Result<(), Fail> {
        let crowded = RingOptions { room: 1, ..RING };
        let order = Order {
            choice: Choice::Queues(Ring::new(crowded).ok_or("no sense")?),
            end: 10,
            way: Way::InOrder,
            progress: false,
            trace: None,
        };
        let told = simulate(&rt, rt.alloc(), &order, Unobserved);
        assert!(rt; matches!(told, Err(Failure::Fault { process: 0 })));
        Ok(())
    }

    #[test]
    fn a_report_has_the_count(rt: HostRuntime) -> Result<(), Fail> {
        let order = Order {
            choice: Choice::Queues(Ring::new(RING).ok_or("no sense")?),
            end: 6,
            way: Way::Ahead {
                workers: 2,
                window: Some(3),
                period: 1,
            },
            progress: false,
            trace: None,
        };
        let told = simulate(&rt, rt.alloc(), &order, Unobserved)?;
        assert_eq!(rt; told.committed, 3 * 6 + 3 * 5);
        Ok(())
    }
}
