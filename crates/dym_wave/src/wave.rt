//! Works that run side by side, while their log tables are swept.
ghost use Rattle.std.specs.Prelude.{◌≡◌, ◌≤◌, IfOk, IfErr, vec_len};
ghost use Rattle.dym_base.specs.declared.limits.TheConstants.{MOST_OBJECTS, MOST_WORKERS};
ghost use Rattle.dym_pool.specs.Jobs.{Numbered};
ghost use Rattle.dym_wave.specs.Waves.{OfOneQueue, AreSweptBy, SameTables, WavePromise};
ghost use Rattle.dym_wave.specs.Works.{number_of};

use crate::sweeper_run::run_with_sweepers;
use crate::work::Work;
use dym_base::limits::{MOST_OBJECTS, MOST_WORKERS};
use dym_pool::Gate;
use dym_slots::Sweeper;
use std::alloc::{AllocError, Global};
use std::sync::Wait;
use std::thread::Threads;

/// Runs all works to their ends by workers side by side, while a pruner sweeps their log tables, and answers the works in order, the
/// sweepers, and how many records these took back, or the greatest u64 where there were more.
///
/// The works are of one queue, and sweeper `k` is of the log table of work `k`. The gate is told the number of works before the first
/// turn. AllocError is free, and comes only before the first turn: the works then come back as they were, and each sweeper with its
/// table.
pub fn run_wave<R: Threads + Wait + Send + Sync, G: Gate>(
    rt: &R,
    alloc: Global,
    works: Vec<Work<R>>,
    sweepers: Vec<Sweeper>,
    workers: u32,
    gate: &G,
) -> Result<(Vec<Work<R>>, Vec<Sweeper>, u64), (AllocError, Vec<Work<R>>, Vec<Sweeper>)>
    requires few { vec_len works ≤ MOST_OBJECTS }
    requires numbered { Numbered number_of works.items }
    requires queue { OfOneQueue works.items }
    requires tables { AreSweptBy works.items sweepers.items }
    requires some { 1 ≤ workers }
    requires most { workers ≤ MOST_WORKERS }
    ensures wave { IfOk result (λ w.
        WavePromise works.items w.0.items sweepers.items w.1.items w.2) }
    ensures works { IfErr result (λ e. e.1.items ≡ works.items) }
    ensures sweepers { IfErr result (λ e. SameTables sweepers.items e.2.items) }
{
    run_with_sweepers(rt, alloc, works, sweepers, workers, gate)
}
