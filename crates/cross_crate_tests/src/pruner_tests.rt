//! A pruner takes back what an object's prunes let go, beside the worker whose job has the object.
ghost use Rattle.std.specs.Prelude.{◌≡◌, ◌<◌, None, [], IfOk, vec_len};

use crate::watch::Watch;
use dym_chain::SlotKeep;
use dym_object::Object;
use dym_pool::Job;
use dym_prune::{Stop, pruner};
use dym_quota::OwnSupply;
use dym_slots::LogSlots;
use dym_wave::run_with_sweepers;
use std::alloc::{AllocError, Global};
use std::process::Abort;
use std::sync::Wait;
use std::test::Fail;
use std::thread::{self, Threads};
use std::time::{Clock, Duration};

/// How many turns the job has that logs, and after how many of these it sleeps, so that the pruner's thread gets a processor, also on a
/// busy machine.
const TURNS: u32 = 20_000;

const TURNS_AT_A_TIME: u32 = 500;

const MILLISECONDS_OF_SLEEP: u64 = 2;

/// Where a job that logs came from.
struct Began {
    number: u32,
}

/// The one job, which logs an object and drops all logs before, in each turn.
struct Logging {
    left: u32,
    alloc: Global,
    object: Object<OwnSupply, SlotKeep>,
}

impl<R: Clock> Job<R> for Logging {
    type Origin = Began;

    ghost number_of = { λ _. 0 };

    ghost left_of = { λ j. j.left };

    ghost origin_of = { λ _. record { number = 0 } };

    fn number(&self) -> u32 {
        0
    }

    fn left(&self) -> u32 {
        self.left
    }

    fn turn(&mut self, rt: &R) {
        self.left -= 1;
        if self.left % TURNS_AT_A_TIME == 0 {
            thread::sleep(rt, Duration::from_millis(MILLISECONDS_OF_SLEEP));
        }
        log_and_drop(self.alloc, &mut self.object, self.left);
    }
}

/// Logs an object, the later the fewer turns are left, and drops all logs before.
fn log_and_drop(alloc: Global, object: &mut Object<OwnSupply, SlotKeep>, left: u32) {
    let time = u64::from(TURNS.saturating_sub(left));
    if object.ran() < 1_000_000 {
        let _ = object.log(alloc, time);
    }
    if object.ran() < 1_000_000 {
        object.prune(time);
    }
}

/// The one job, of an object over this keep.
fn opened(alloc: Global, keep: SlotKeep) -> Result<Vec<Logging>, AllocError>
    requires empty { keep.records ≡ [] }
    requires made { keep.made ≡ 0 }
    requires idle { keep.lifted ≡ None }
    ensures { IfOk result (λ jobs. vec_len jobs ≡ 1) }
{
    let supply = OwnSupply::open(alloc, 1)?;
    let mut jobs = Vec::with_capacity(alloc, 1)?;
    match Object::open(alloc, supply, keep) {
        Ok(object) => {
            jobs.push_reserved(Logging {
                left: TURNS,
                alloc,
                object,
            });
            Ok(jobs)
        }
        Err((error, _, _)) => {
            jobs.destroy_empty();
            Err(error)
        }
    }
}

/// Ends the one job; how many commands its object ran.
fn ended(rt: &impl Abort, mut jobs: Vec<Logging>) -> u64 {
    let mut ran = 0;
    if let Some(job) = jobs.pop() {
        let Logging {
            left: _,
            alloc: _,
            object,
        } = job;
        ran = object.ran();
        object.end(&());
    }
    assert!(rt; jobs.is_empty());
    jobs.destroy_empty();
    ran
}

/// How many commands ran, and how many records were taken back, in one run of the job beside a pruner.
fn ran_and_taken<R: Threads + Wait + Clock + Abort + Send + Sync>(
    rt: &R,
    alloc: Global,
) -> Result<(u64, u64), AllocError> {
    let (owner, sweeper) = LogSlots::open(alloc)?;
    let sweepers = Vec::from_array(alloc, [sweeper])?;
    let jobs = opened(alloc, SlotKeep::new(owner))?;
    let watch = Watch::new(0, 0);
    let (jobs, taken) = match run_with_sweepers(rt, alloc, jobs, sweepers, 1, &watch) {
        Ok((jobs, _swept, taken)) => (jobs, taken),
        Err((_error, jobs, _unswept)) => (jobs, 0),
    };
    Ok((ended(rt, jobs), taken))
}

/// In one run of a few, more records are taken back than slots could hold at the end: the pruner sweeps while the worker runs. How far it
/// comes in a single run is for the machine to say.
#[test]
fn a_pruner_sweeps_while_a_worker_runs(rt: HostRuntime) -> Result<(), Fail> {
    let mut most = 0;
    for _ in 0..40 {
        let (ran, taken) = ran_and_taken(&rt, rt.alloc())?;
        assert!(rt; ran == 40_000, "{ran} commands");
        most = taken;
        if most > 319 {
            break;
        }
    }
    assert!(rt; most > 319, "{most} records were taken back");
    Ok(())
}

/// An ask is heard; and a pruner of no table, which heard it, ends.
#[test]
fn hears_what_was_asked(rt: HostRuntime) -> Result<(), Fail> {
    let (mut asker, mut ear) = Stop::open(rt.alloc())?;
    let before = [ear.heard(), ear.asked()];
    asker.ask();
    let after = [ear.asked(), ear.heard()];
    assert!(rt; before == [false, false] && after == [true, true]);
    assert!(rt; pruner(&rt, &mut [], &mut ear) == 0);
    Ok(())
}
