//! A run of rounds, from the start of the threads to their end.
ghost use Rattle.std.specs.Prelude.{◌≡◌, [], All, IfOk, IfErr};

use crate::borrower::{Borrower, work};
use crate::lane::Lane;
use crate::lender::{Lender, open_exchange};
use crate::packet::Packet;
use crate::workers::Workers;
use std::alloc::{AllocError, AllocFailed, Global};
use std::marker::Model;
use std::sync::Wait;
use std::thread;
use std::thread::{Scope, Threads};

/// What is done over threads that stay: some number of rounds, and whatever goes on between them.
///
/// Contracts see what it needs, and how its outcome follows from it.
pub trait Driver<O, L: Lane<O>> {
    type Outcome;

    ghost can_drive: { Self → Type 0 };

    ghost drives: { Self → Self.Outcome → Type 0 };

    /// Runs to its end.
    fn drive<R: Wait>(self, rt: &R, workers: &mut Workers<O, L>) -> Self::Outcome
        requires { can_drive self }
        ensures { drives self result };
}

/// Runs the driver over so many threads, which stay from its first round to its last. There are
/// fewer, or none, where no more can be made: the driver's rounds then do more on the caller. When
/// this returns, every thread has ended.
///
/// AllocFailed has the driver, which was not run; the driver's own wants are part of its outcome.
pub fn with_workers<O, L, D, R>(
    rt: &R,
    alloc: Global,
    threads: usize,
    driver: D,
) -> Result<D::Outcome, AllocFailed<D>>
where
    O: Copy + Send,
    L: Lane<O> + Drop + Send,
    D: Driver<O, L> + Drop,
    R: Threads + Wait + Sync,
    requires { D.can_drive driver }
    ensures ran { IfOk result (D.drives driver) }
    ensures handed_back { IfErr result (λ e. e.value ≡ driver) }
{
    match Exchanges::open(alloc, threads) {
        Ok(exchanges) => Ok(run(rt, exchanges, driver)),
        Err(AllocError) => Err(AllocFailed { value: driver }),
    }
}

/// Exchanges whose threads are to be made: both ends of each, with nothing lent, and room for the
/// lenders. Contracts see how many there are.
#[derive(Drop)]
struct Exchanges<P> {
    ends: Vec<(Lender<P>, Borrower<P>)>,
    lenders: Vec<Lender<P>>,
}

impl<P> Model for Exchanges<P> {
    ghost use Rattle.std.specs.Prelude.{◌≡◌, ◌≤◌, ℕ, [], All, vec_len, vec_capacity};

    ghost Value = { ℕ };

    ghost view = { λ e. vec_len e.ends };

    ghost invariant = { λ e. record {
      idle : All (λ x. (x.0 ≡ []) × (x.1 ≡ [])) e.ends.items;
      none : e.lenders.items ≡ [];
      room : vec_len e.ends ≤ vec_capacity e.lenders;
    } };
}

impl<P: Drop> Exchanges<P> {
    /// So many exchanges.
    fn open(alloc: Global, count: usize) -> Result<Self, AllocError>
        ensures { IfOk result (λ e. e ≡ count) }
    {
        let mut ends = Vec::with_capacity(alloc, count)?;
        for _ in 0..count {
            ends.push_reserved(open_exchange(alloc)?);
        }
        let lenders = Vec::with_capacity(alloc, count)?;
        Ok(Exchanges { ends, lenders })
    }
}

/// Makes the threads in a scope, runs the driver there, and ends them.
fn run<O, L, D, R>(rt: &R, exchanges: Exchanges<Packet<O, L>>, driver: D) -> D::Outcome
where
    O: Copy + Send,
    L: Lane<O> + Drop + Send,
    D: Driver<O, L> + Drop,
    R: Threads + Wait + Sync,
    requires { D.can_drive driver }
    ensures { D.drives driver result }
{
    thread::scope(
        thread::scope_env(),
        rt,
        move |scope| -> D::Outcome
            requires { D.can_drive driver }
            ensures { D.drives driver result }
        { run_in(scope, rt, exchanges, driver) },
    )
}

fn run_in<'s, 'e, O, L, D, R>(
    scope: &'s Scope<'s, &'e ()>,
    rt: &'e R,
    exchanges: Exchanges<Packet<O, L>>,
    driver: D,
) -> D::Outcome
where
    O: Copy + Send + 'e,
    L: Lane<O> + Drop + Send + 'e,
    D: Driver<O, L> + Drop,
    R: Threads + Wait + Sync,
    requires { D.can_drive driver }
    ensures { D.drives driver result }
{
    let mut workers = Workers::new(start_all(scope, rt, exchanges));
    let outcome = driver.drive(rt, &mut workers);
    workers.stop();
    outcome
}

/// Makes a thread for each exchange, as long as threads can be made.
fn start_all<'s, 'e, O, L, R>(
    scope: &'s Scope<'s, &'e ()>,
    rt: &'e R,
    exchanges: Exchanges<Packet<O, L>>,
) -> Vec<Lender<Packet<O, L>>>
where
    O: Copy + Send + 'e,
    L: Lane<O> + Drop + Send + 'e,
    R: Threads + Wait + Sync,
    ensures { All (λ x. x ≡ []) result.items }
{
    let Exchanges {
        mut ends,
        mut lenders,
    } = exchanges;
    while let Some((lender, borrower)) = ends.pop() {
        let thread = scope.spawn(
            move ||
                requires { borrower ≡ [] }
            { work(rt, borrower) },
        );
        if thread.is_err() {
            break;
        }
        lenders.push_reserved(lender);
    }
    lenders
}
