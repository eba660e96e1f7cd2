//! Works that run while they are looked at.
ghost use Rattle.std.specs.Prelude.{◌≡◌, ◌≤◌, true, false, IfSome, OnOk, map, vec_len};
ghost use Rattle.dym_base.specs.declared.limits.TheConstants.{MOST_OBJECTS, MOST_WORKERS};
ghost use Rattle.dym_pool.specs.Jobs.{AllEnded, Numbered};
ghost use Rattle.dym_wave.specs.Observations.{LookedOn};
ghost use Rattle.dym_wave.specs.Waves.{OfOneQueue, AreSweptBy, IsReady};
ghost use Rattle.dym_wave.specs.Works.{left_of, number_of, origin_of};

use crate::observer::observe;
use crate::wave::run_wave;
use crate::work::Work;
use dym_base::limits::{MOST_OBJECTS, MOST_WORKERS};
use dym_pool::Gate;
use dym_prune::{Asker, Stop};
use dym_slots::Sweeper;
use dym_view::Viewer;
use std::alloc::{AllocError, Global};
use std::mem;
use std::sync::Wait;
use std::thread::{Threads, join_mut};

/// Runs works to their ends, by `run_wave`, and has a thread look at what they publish meanwhile. Only memory can be wanting; the works then
/// stand as they came.
///
/// The thread looks until the last work has ended. Where none could be started, each view is looked at once then; where there is no viewer,
/// none is started.
pub(crate) fn run_observed<R: Threads + Wait + Send + Sync, G: Gate>(
    rt: &R,
    alloc: Global,
    works: &mut Vec<Work<R>>,
    sweepers: &mut Vec<Sweeper>,
    viewers: &mut Vec<Viewer>,
    workers: u32,
    gate: &G,
) -> Result<(), AllocError>
    requires ready { IsReady works.old.items sweepers.old.items }
    requires few { vec_len works.old ≤ MOST_OBJECTS }
    requires some { 1 ≤ workers }
    requires most { workers ≤ MOST_WORKERS }
    ensures origins { map origin_of works.new.items ≡ map origin_of works.old.items }
    ensures tables { AreSweptBy works.new.items sweepers.new.items }
    ensures ended { OnOk result (AllEnded left_of works.new.items) }
    ensures looked { LookedOn viewers.old.items viewers.new.items }
{
    if viewers.is_empty() {
        return run_in_place(rt, alloc, works, sweepers, workers, gate, None);
    }
    run_beside(rt, alloc, works, sweepers, viewers, workers, gate)
}

/// Runs works to their ends in their lists, beside a thread that looks until the last of them has ended.
fn run_beside<R: Threads + Wait + Send + Sync, G: Gate>(
    rt: &R,
    alloc: Global,
    works: &mut Vec<Work<R>>,
    sweepers: &mut Vec<Sweeper>,
    viewers: &mut Vec<Viewer>,
    workers: u32,
    gate: &G,
) -> Result<(), AllocError>
    requires ready { IsReady works.old.items sweepers.old.items }
    requires few { vec_len works.old ≤ MOST_OBJECTS }
    requires some { 1 ≤ workers }
    requires most { workers ≤ MOST_WORKERS }
    ensures origins { map origin_of works.new.items ≡ map origin_of works.old.items }
    ensures tables { AreSweptBy works.new.items sweepers.new.items }
    ensures ended { OnOk result (AllEnded left_of works.new.items) }
    ensures looked { LookedOn viewers.old.items viewers.new.items }
{
    let (mut asker, mut ear) = Stop::open(alloc)?;
    let (_, ran) = join_mut(
        rt,
        &mut || -> bool
            ensures { LookedOn viewers.entry.now.items viewers.exit.now.items }
        {
            observe(rt, viewers, &mut ear);
            ear.heard()
        },
        &mut || -> Result<(), AllocError>
            requires { IsReady works.now.items sweepers.now.items
                × (vec_len works.now ≤ MOST_OBJECTS) × (1 ≤ workers)
                × (workers ≤ MOST_WORKERS) × (asker.asked ≡ false) }
            ensures origins { map origin_of works.exit.now.items
                ≡ map origin_of works.entry.now.items }
            ensures tables { AreSweptBy works.exit.now.items sweepers.exit.now.items }
            ensures ended { OnOk result (AllEnded left_of works.exit.now.items) }
            ensures asked { asker.exit.asked ≡ true }
        {
            let ran = run_in_place(rt, alloc, works, sweepers, workers, gate, Some(&asker));
            asker.ask();
            ran
        },
    );
    ran
}

/// Runs works to their ends, in the lists in which they and their sweepers are. No one asks a thread that looks to end before or meanwhile.
fn run_in_place<R: Threads + Wait + Send + Sync, G: Gate>(
    rt: &R,
    alloc: Global,
    works: &mut Vec<Work<R>>,
    sweepers: &mut Vec<Sweeper>,
    workers: u32,
    gate: &G,
    _asker: Option<&Asker>,
) -> Result<(), AllocError>
    requires ready { IsReady works.old.items sweepers.old.items }
    requires few { vec_len works.old ≤ MOST_OBJECTS }
    requires some { 1 ≤ workers }
    requires most { workers ≤ MOST_WORKERS }
    requires unasked { IfSome _asker (λ asker. asker.now.asked ≡ false) }
    ensures origins { map origin_of works.new.items ≡ map origin_of works.old.items }
    ensures tables { AreSweptBy works.new.items sweepers.new.items }
    ensures ended { OnOk result (AllEnded left_of works.new.items) }
{
    let taken = mem::replace(works, Vec::new(alloc));
    let swept = mem::replace(sweepers, Vec::new(alloc));
    match run_wave(rt, alloc, taken, swept, workers, gate) {
        Ok((back, swept, _)) => {
            mem::replace(works, back).destroy_empty();
            *sweepers = swept;
            Ok(())
        }
        Err((error, back, swept)) => {
            mem::replace(works, back).destroy_empty();
            *sweepers = swept;
            Err(error)
        }
    }
}
