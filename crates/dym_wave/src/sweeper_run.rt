//! Jobs that run side by side, while log tables are swept.
ghost use Rattle.std.specs.Prelude.{◌≡◌, ◌≤◌, true, false, IfOk, IfErr, OnOk, OnErr, vec_len};
ghost use Rattle.dym_base.specs.declared.limits.TheConstants.{MOST_OBJECTS, MOST_WORKERS};
ghost use Rattle.dym_pool.specs.Jobs.{EveryJobBack, Numbered};
ghost use Rattle.dym_prune.specs.Sweeps.{Pruned};
ghost use Rattle.dym_wave.specs.Waves.{SameTables};

use dym_base::limits::{MOST_OBJECTS, MOST_WORKERS};
use dym_pool::{Gate, Job, run_jobs};
use dym_prune::{Asker, Ear, Stop, pruner};
use dym_slots::Sweeper;
use std::alloc::{AllocError, Global};
use std::mem;
use std::sync::Wait;
use std::thread::{Threads, join_mut};

/// Runs all jobs to their ends by workers side by side, while a pruner sweeps log tables, and answers the jobs in order, the
/// sweepers, and how many records these took back, or the greatest u64 where there were more.
///
/// The gate is told the number of jobs before the first turn. AllocError is free, and comes only before the first turn: the jobs then
/// come back as they were, and each sweeper with its table.
pub fn run_with_sweepers<R: Threads + Wait + Send + Sync, J: Job<R>, G: Gate>(
    rt: &R,
    alloc: Global,
    mut jobs: Vec<J>,
    mut sweepers: Vec<Sweeper>,
    workers: u32,
    gate: &G,
) -> Result<(Vec<J>, Vec<Sweeper>, u64), (AllocError, Vec<J>, Vec<Sweeper>)>
    requires few { vec_len jobs ≤ MOST_OBJECTS }
    requires numbered { Numbered J.number_of jobs.items }
    requires some { 1 ≤ workers }
    requires most { workers ≤ MOST_WORKERS }
    ensures back { IfOk result (λ r.
        EveryJobBack J.number_of J.left_of J.origin_of jobs.items r.0.items) }
    ensures swept { IfOk result (λ r. Pruned sweepers.items r.1.items r.2) }
    ensures jobs { IfErr result (λ e. e.1.items ≡ jobs.items) }
    ensures sweepers { IfErr result (λ e. SameTables sweepers.items e.2.items) }
{
    let (mut asker, mut ear) = match Stop::open(alloc) {
        Ok(ends) => ends,
        Err(error) => return Err((error, jobs, sweepers)),
    };
    gate.wave(jobs.len() as u32);
    let (taken, ran) = join_mut(
        rt,
        &mut || -> u64
            ensures { Pruned sweepers.entry.items sweepers.exit.items result }
        { pruner(rt, &mut sweepers, &mut ear) },
        &mut || -> Result<(), AllocError>
            requires { Numbered J.number_of jobs.items × (1 ≤ workers)
                × (workers ≤ MOST_WORKERS) × (asker.asked ≡ false) }
            ensures back { OnOk result
                (EveryJobBack J.number_of J.left_of J.origin_of jobs.entry.items jobs.exit.items) }
            ensures unchanged { OnErr result (jobs.exit.items ≡ jobs.entry.items) }
            ensures asked { asker.exit.asked ≡ true }
        {
            let ran = run_in_place(rt, alloc, &mut jobs, workers, gate, &asker);
            asker.ask();
            ran
        },
    );
    match ran {
        Ok(()) => Ok((jobs, sweepers, taken)),
        Err(error) => Err((error, jobs, sweepers)),
    }
}

/// Runs all jobs to their ends, in the list in which they are. No one asks the pruner to end before or meanwhile.
fn run_in_place<R: Threads + Wait + Send + Sync, J: Job<R>, G: Gate>(
    rt: &R,
    alloc: Global,
    jobs: &mut Vec<J>,
    workers: u32,
    gate: &G,
    _asker: &Asker,
) -> Result<(), AllocError>
    requires numbered { Numbered J.number_of jobs.old.items }
    requires some { 1 ≤ workers }
    requires most { workers ≤ MOST_WORKERS }
    requires unasked { _asker.now.asked ≡ false }
    ensures back { OnOk result
        (EveryJobBack J.number_of J.left_of J.origin_of jobs.old.items jobs.new.items) }
    ensures unchanged { OnErr result (jobs.new.items ≡ jobs.old.items) }
{
    let taken = mem::replace(jobs, Vec::new(alloc));
    let (back, ran) = match run_jobs(rt, alloc, taken, workers, gate) {
        Ok(back) => (back, Ok(())),
        Err((error, back)) => (back, Err(error)),
    };
    mem::replace(jobs, back).destroy_empty();
    ran
}
