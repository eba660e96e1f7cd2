//! All workers: what they have before the first turn, and what is left after the last.
ghost use Rattle.std.specs.Prelude.{◌≡◌, ◌+◌, ◌<◌, ◌≤◌, [], All, IfOk, length, map, reverse, slice_index_or, vec_len, vec_capacity, ℕ};
ghost use Rattle.std.specs.List.{AllZip};
ghost use Rattle.dym_pool.specs.Holdings.{IsNewStealShare, IsStealShareOf, IsFinished, Joins, KeepsShare, Lends};

use crate::gate::Gate;
use crate::job::Job;
use crate::own_share::OwnShare;
use crate::steal_share::StealShare;
use crate::worker::Worker;
use std::alloc::{AllocError, Global};
use std::sync::Wait;
use std::thread;
use std::thread::Threads;

/// A share for each of so many workers, each with room for so many jobs.
pub(crate) fn open_shares<R, J: Job<R> + Drop>(
    alloc: Global,
    workers: u32,
    room: usize,
) -> Result<Vec<OwnShare<R, J>>, AllocError>
    ensures len { IfOk result (λ shares. vec_len shares ≡ workers) }
    ensures each { IfOk result (λ shares.
        All (λ s. (s.list ≡ []) × (s.part ≡ 65) × (s.pushed ≡ 0) × (s.room ≡ room)) shares.items) }
{
    let mut shares = Vec::with_capacity(alloc, workers as usize)?;
    for _ in 0..workers {
        shares.push_reserved(OwnShare::open(alloc, room)?);
    }
    Ok(shares)
}

/// A row of reaches for each worker.
pub(crate) fn open_rows<R, J: Job<R> + Drop>(
    alloc: Global,
    shares: &Vec<OwnShare<R, J>>,
    room: usize,
) -> Result<Vec<Vec<StealShare<R, J>>>, AllocError>
    requires room { All (λ s. s.room ≡ room) shares.now.items }
    ensures len { IfOk result (λ rows. vec_len rows ≡ vec_len shares.now) }
    ensures guests { IfOk result
        (λ rows. All (λ row. AllZip IsNewStealShare shares.now.items row.items) rows.items) }
{
    let mut rows = Vec::with_capacity(alloc, shares.len())?;
    for _ in 0..shares.len() {
        rows.push_reserved(open_row(alloc, shares, room)?);
    }
    Ok(rows)
}

/// A reach to each share, without a part.
fn open_row<R, J: Job<R> + Drop>(
    alloc: Global,
    shares: &Vec<OwnShare<R, J>>,
    room: usize,
) -> Result<Vec<StealShare<R, J>>, AllocError>
    requires room { All (λ s. s.room ≡ room) shares.now.items }
    ensures guests { IfOk result (λ row. AllZip IsNewStealShare shares.now.items row.items) }
{
    let mut row = Vec::with_capacity(alloc, shares.len())?;
    for share in shares.iter() {
        row.push_reserved(StealShare::open(alloc, share, room)?);
    }
    Ok(row)
}

/// Runs the jobs of all shares to their ends: each worker its own and what it steals, and the caller what is left, by the
/// number that is given for it.
///
/// The rows are those of the shares, and `worker_list` is empty, with room for a worker for each share.
pub(crate) fn run_all<R: Threads + Wait + Send + Sync, J: Job<R> + Drop, G: Gate>(
    rt: &R,
    gate: &G,
    shares: &mut Vec<OwnShare<R, J>>,
    mut rows: Vec<Vec<StealShare<R, J>>>,
    mut worker_list: Vec<Worker<R, J>>,
    caller: u32,
)
    requires some { 0 < vec_len shares.old }
    requires most { vec_len shares.old ≤ 64 }
    requires whole { All (λ s. s.part ≡ 65) shares.old.items }
    requires rows { vec_len rows ≡ vec_len shares.old }
    requires guests { All (λ row. AllZip IsNewStealShare shares.old.items row.items) rows.items }
    requires empty { worker_list.items ≡ [] }
    requires room { vec_len shares.old ≤ vec_capacity worker_list }
    ensures finished { AllZip IsFinished shares.old.items shares.new.items }
{
    lend_all(shares, &mut rows);
    run_rows(rt, gate, shares, &mut rows, &mut worker_list);
    join_all(shares, rows);
    finish_all(rt, gate, caller, shares);
}

/// Runs a worker for each share and its row, in a thread of its own where one can be made.
fn run_rows<R: Threads + Wait + Send + Sync, J: Job<R> + Drop, G: Gate>(
    rt: &R,
    gate: &G,
    shares: &mut Vec<OwnShare<R, J>>,
    rows: &mut Vec<Vec<StealShare<R, J>>>,
    worker_list: &mut Vec<Worker<R, J>>,
)
    requires some { 0 < vec_len shares.old }
    requires most { vec_len shares.old ≤ 64 }
    requires len { vec_len rows.old ≡ vec_len shares.old }
    requires parts { All (λ row. (vec_len row ≡ vec_len shares.old)
        × All (λ r. 0 < r.part) row.items) rows.old.items }
    requires empty { worker_list.old.items ≡ [] }
    requires room { vec_len shares.old ≤ vec_capacity worker_list.old }
    ensures own { AllZip KeepsShare shares.old.items shares.new.items }
    ensures reaches { AllZip (λ before after.
        AllZip KeepsShare before.items after.items) rows.old.items rows.new.items }
{
    gather_workers(shares, rows, worker_list);
    run_workers(rt, gate, worker_list);
    part_workers(worker_list, shares, rows);
}

/// Gives each row a part of each share.
fn lend_all<R, J: Job<R> + Drop>(
    shares: &mut Vec<OwnShare<R, J>>,
    rows: &mut Vec<Vec<StealShare<R, J>>>,
)
    requires guests { All (λ row. AllZip IsNewStealShare shares.old.items row.items) rows.old.items }
    requires parts { All (λ s. vec_len rows.old < s.part) shares.old.items }
    ensures len { vec_len rows.new ≡ vec_len rows.old }
    ensures lends { AllZip (Lends (vec_len rows.old)) shares.old.items shares.new.items }
    ensures reaches { All (λ row. AllZip IsStealShareOf shares.old.items row.items) rows.new.items }
{
    for place in 0..rows.len() {
        lend_row(shares, &mut rows[place]);
    }
}

/// Gives the reaches of one row a part of their shares.
fn lend_row<R, J: Job<R> + Drop>(shares: &mut Vec<OwnShare<R, J>>, row: &mut Vec<StealShare<R, J>>)
    requires guests { AllZip IsNewStealShare shares.old.items row.old.items }
    requires parts { All (λ s. 1 < s.part) shares.old.items }
    ensures lends { AllZip (Lends 1) shares.old.items shares.new.items }
    ensures reaches { AllZip IsStealShareOf shares.old.items row.new.items }
{
    for place in 0..shares.len() {
        row[place].borrow(&mut shares[place]);
    }
}

/// Makes a worker of each share and its row; the last one comes first.
fn gather_workers<R, J: Job<R> + Drop>(
    shares: &mut Vec<OwnShare<R, J>>,
    rows: &mut Vec<Vec<StealShare<R, J>>>,
    workers: &mut Vec<Worker<R, J>>,
)
    requires len { vec_len rows.old ≡ vec_len shares.old }
    requires most { vec_len shares.old ≤ 64 }
    requires empty { workers.old.items ≡ [] }
    requires room { vec_len shares.old ≤ vec_capacity workers.old }
    ensures own { map (λ w. w.own) workers.new.items ≡ reverse shares.old.items }
    ensures reaches { map (λ w. w.reaches) workers.new.items ≡ reverse rows.old.items }
    ensures numbers { All (λ w. w.number < vec_len shares.old) workers.new.items }
    ensures no_share { shares.new.items ≡ [] }
    ensures no_row { rows.new.items ≡ [] }
    ensures share_room { vec_capacity shares.new ≡ vec_capacity shares.old }
    ensures row_room { vec_capacity rows.new ≡ vec_capacity rows.old }
{
    while let Some(own) = shares.pop() {
        workers.push_reserved(Worker {
            number: shares.len() as u32,
            own,
            reaches: rows.take_last(),
        });
    }
}

/// Takes the workers apart again, the last one first.
fn part_workers<R, J: Job<R> + Drop>(
    workers: &mut Vec<Worker<R, J>>,
    shares: &mut Vec<OwnShare<R, J>>,
    rows: &mut Vec<Vec<StealShare<R, J>>>,
)
    requires no_share { shares.old.items ≡ [] }
    requires no_row { rows.old.items ≡ [] }
    requires share_room { vec_len workers.old ≤ vec_capacity shares.old }
    requires row_room { vec_len workers.old ≤ vec_capacity rows.old }
    ensures shares { shares.new.items ≡ reverse (map (λ w. w.own) workers.old.items) }
    ensures rows { rows.new.items ≡ reverse (map (λ w. w.reaches) workers.old.items) }
{
    while let Some(worker) = workers.pop() {
        let Worker {
            number: _,
            own,
            reaches,
        } = worker;
        shares.push_reserved(own);
        rows.push_reserved(reaches);
    }
}

/// Runs each worker in a thread of its own, where one can be made.
fn run_workers<R: Threads + Wait + Send + Sync, J: Job<R> + Drop, G: Gate>(
    rt: &R,
    gate: &G,
    workers: &mut [Worker<R, J>],
)
    requires some { 0 < length workers.old }
    requires ready { All (λ w. (w.number < vec_len w.reaches)
        × All (λ r. 0 < r.part) w.reaches.items) workers.old }
    ensures own { (k : ℕ) (d : _) → k < length workers.old
        → KeepsShare (slice_index_or workers.old k d).own (slice_index_or workers.new k d).own }
    ensures reaches { (k : ℕ) (d : _) → k < length workers.old
        → AllZip KeepsShare (slice_index_or workers.old k d).reaches.items
        (slice_index_or workers.new k d).reaches.items }
{
    let count = workers.len();
    thread::for_each_mut(
        rt,
        workers,
        count,
        &|_, worker|
            requires { (worker.now.number < vec_len worker.now.reaches)
                × All (λ r. 0 < r.part) worker.now.reaches.items }
        { worker.run(rt, gate) },
    );
}

/// Gives all parts back to the shares.
fn join_all<R, J: Job<R> + Drop>(
    shares: &mut Vec<OwnShare<R, J>>,
    mut rows: Vec<Vec<StealShare<R, J>>>,
)
    requires reaches { All (λ row. AllZip IsStealShareOf shares.old.items row.items) rows.items }
    ensures joins { AllZip (Joins (vec_len rows)) shares.old.items shares.new.items }
{
    while let Some(row) = rows.pop() {
        join_row(shares, row);
    }
}

/// Gives the parts of one row back to the shares, and the jobs that ended there with them.
fn join_row<R, J: Job<R> + Drop>(shares: &mut Vec<OwnShare<R, J>>, mut row: Vec<StealShare<R, J>>)
    requires reaches { AllZip IsStealShareOf shares.old.items row.items }
    ensures joins { AllZip (Joins 1) shares.old.items shares.new.items }
{
    while let Some(steal_share) = row.pop() {
        shares[row.len()].join(steal_share);
    }
}

/// Runs what is left in any share to its end.
fn finish_all<R, J: Job<R>, G: Gate>(
    rt: &R,
    gate: &G,
    worker: u32,
    shares: &mut Vec<OwnShare<R, J>>,
)
    requires whole { All (λ s. s.part ≡ 65) shares.old.items }
    ensures finished { AllZip IsFinished shares.old.items shares.new.items }
{
    for place in 0..shares.len() {
        shares[place].finish(rt, gate, worker);
    }
}
