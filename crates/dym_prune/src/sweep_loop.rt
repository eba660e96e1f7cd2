//! The loop that sweeps until it is told to stop.
ghost use Rattle.std.specs.Prelude.{◌≡◌, ◌+◌, ◌≤◌, true, IsTrue, IsFalse};
ghost use Rattle.dym_prune.specs.Sweeps.{CountsRounds, OneRound, Pruned};

use crate::stop::Ear;
use dym_slots::Sweeper;
use std::sync::Wait;
use std::time::Duration;

/// The microseconds of the shortest rest.
const LEAST_REST: u64 = 100;

/// The microseconds of rest for each table, many times what its 320 looks take.
const REST_FOR_A_TABLE: u64 = 16;

/// Sweeps all log tables in turn, again and again, until the stop was asked for, and answers how many records it took back, or the
/// greatest u64 where there were more. Each sweeper has ended one sweep at least. Between two rounds it rests, so that it takes
/// a small part of a processor; where the stop was asked for while it rested, no other round begins.
pub fn pruner<R: Wait>(rt: &R, sweepers: &mut [Sweeper], ear: &mut Ear) -> u64
    ensures heard { ear.new.heard ≡ true }
    ensures pruned { Pruned sweepers.old sweepers.new result }
    ensures counted { CountsRounds sweepers.old sweepers.new ear.old.misses ear.new.misses }
{
    let rest = rest_after(sweepers.len());
    let mut total: u64 = 0;
    for _ in rt.forever() {
        let taken = sweep_round(sweepers);
        total = total.saturating_add(taken);
        if listen(rt, ear, rest) {
            return total;
        }
    }
    unreachable!()
}

/// Whether the stop was asked for, before a rest or, where it wasn't, after it. Where it is asked for while it rests, the rest ends.
fn listen<R: Wait>(rt: &R, ear: &mut Ear, rest: Duration) -> bool
    ensures heard { IsTrue result → ear.new.heard ≡ true }
    ensures before { ear.old.misses ≤ ear.new.misses }
    ensures once { IsTrue result → ear.new.misses ≤ ear.old.misses + 1 }
    ensures twice { IsFalse result → ear.new.misses ≡ ear.old.misses + 2 }
{
    ear.asked() || ear.asked_within(rt, rest)
}

/// How long the rest after a round of so many tables is.
fn rest_after(tables: usize) -> Duration {
    let micros = REST_FOR_A_TABLE.saturating_mul(tables as u64);
    Duration::from_micros(micros.max(LEAST_REST))
}

/// Sweeps each table once, and answers how many records were taken back.
fn sweep_round(sweepers: &mut [Sweeper]) -> u64
    ensures pruned { Pruned sweepers.old sweepers.new result }
    ensures once { OneRound sweepers.old sweepers.new }
{
    let mut total: u64 = 0;
    'round: for i in 0..sweepers.len() {
        total = total.saturating_add(u64::from(sweepers[i].sweep()));
    }
    total
}
