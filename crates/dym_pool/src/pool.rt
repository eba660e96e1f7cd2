//! Jobs that are run by workers side by side.
ghost use Rattle.std.specs.Prelude.{◌≡◌, ◌<◌, ◌≤◌, IfErr, IfOk, OnErr, OnOk};
ghost use Rattle.dym_pool.specs.Jobs.{EveryJobBack, Numbered};

use crate::boxed_job::{box_all, give_back};
use crate::boxes::pack;
use crate::distribution::distribute;
use crate::gate::Gate;
use crate::job::Job;
use crate::result_slots::{gather, open_slots};
use crate::workers::{open_rows, open_shares, run_all};
use std::alloc::{AllocError, Global};
use std::sync::Wait;
use std::thread::Threads;

/// Runs all jobs to their ends, with at most so many workers side by side, and gives them back in order.
///
/// Each turn is behind a call of the gate. Workers have the numbers from 0 on, and `workers` is that of the caller, where it
/// runs a job itself. A job need not be one that may be dropped: none is lost. AllocError is free, and comes only before the first
/// turn; the jobs then come back as they were.
pub fn run_jobs<R: Threads + Wait + Send + Sync, J: Job<R>, G: Gate>(
    rt: &R,
    alloc: Global,
    mut jobs: Vec<J>,
    workers: u32,
    gate: &G,
) -> Result<Vec<J>, (AllocError, Vec<J>)>
    requires numbered { Numbered J.number_of jobs.items }
    requires some { 1 ≤ workers }
    requires most { workers ≤ 64 }
    ensures back { IfOk result (λ back.
        EveryJobBack J.number_of J.left_of J.origin_of jobs.items back.items) }
    ensures unchanged { IfErr result (λ refused. refused.1.items ≡ jobs.items) }
{
    let started = jobs.len().min(workers as usize) as u32;
    if started == 0 {
        return Ok(jobs);
    }
    let mut carried = match Vec::with_capacity(alloc, jobs.len()) {
        Ok(carried) => carried,
        Err(error) => return Err((error, jobs)),
    };
    box_all(&mut jobs, &mut carried);
    let ran = run_with(rt, alloc, &mut carried, started, workers, gate);
    give_back(carried, &mut jobs);
    match ran {
        Ok(()) => Ok(jobs),
        Err(error) => Err((error, jobs)),
    }
}

/// Runs all jobs to their ends, of which there is at least one, by exactly so many workers and the caller, whose number at the gate is
/// given.
fn run_with<R: Threads + Wait + Send + Sync, J: Job<R> + Drop, G: Gate>(
    rt: &R,
    alloc: Global,
    jobs: &mut Vec<J>,
    workers: u32,
    caller: u32,
    gate: &G,
) -> Result<(), AllocError>
    requires numbered { Numbered J.number_of jobs.old.items }
    requires some { 0 < workers }
    requires most { workers ≤ 64 }
    ensures back { OnOk result
        (EveryJobBack J.number_of J.left_of J.origin_of jobs.old.items jobs.new.items) }
    ensures unchanged { OnErr result (jobs.new.items ≡ jobs.old.items) }
{
    let count = jobs.len();
    let room = count / workers as usize + 1;
    let mut boxes = Vec::with_capacity(alloc, count)?;
    let slots = open_slots(alloc, count)?;
    let mut shares = open_shares(alloc, workers, room)?;
    let rows = open_rows(alloc, &shares, room)?;
    let worker_list = Vec::with_capacity(alloc, workers as usize)?;
    pack(alloc, jobs, &mut boxes)?;
    distribute(&mut shares, boxes);
    run_all(rt, gate, &mut shares, rows, worker_list, caller);
    gather(jobs, slots, shares);
    Ok(())
}
