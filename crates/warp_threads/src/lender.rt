//! The caller's end of an exchange with a thread.
ghost use Rattle.std.specs.Prelude.{◌≡◌, true, false, [], ◌∷◌, IfOk};
ghost use Rattle.std.specs.Arc.{arc_value};
ghost use Rattle.crossbeam_queue.specs.Passes.{view, IsPassOf};
ghost use Rattle.warp_threads.specs.Loans.{holding};

use crate::borrower::Borrower;
use crate::exchange::{Collects, Exchange, LENT, Lends, LoanPass, LoanQueue, OVER, open_queue};
use std::alloc::{AllocError, Global};
use std::marker::Model;
use std::sync::{Arc, Wait};
use std::thread;

/// The caller's end. Contracts see what is lent: nothing, or one value.
#[derive(Drop)]
pub(crate) struct Lender<P> {
    exchange: Arc<Exchange<P>, Global>,
    pass: LoanPass<P>,
}

impl<P> Model for Lender<P> {
    ghost use Rattle.std.specs.Prelude.{List};
    ghost use Rattle.std.specs.Arc.{arc_value};
    ghost use Rattle.crossbeam_queue.specs.Passes.{IsPassOf};
    ghost use Rattle.warp_threads.specs.Loans.{IsLender, lent_by};

    ghost Value = { List P };

    ghost view = { λ s. lent_by s.pass };

    ghost invariant = { λ s. record {
      queue : IsPassOf (arc_value s.exchange).queue s.pass;
      role : IsLender s.pass;
    } };
}

/// The two ends of an exchange, with nothing lent.
pub(crate) fn open_exchange<P: Drop>(alloc: Global) -> Result<(Lender<P>, Borrower<P>), AllocError>
    ensures lent { IfOk result (λ r. r.0 ≡ []) }
    ensures held { IfOk result (λ r. r.1 ≡ []) }
{
    let (queue, ours, theirs) = open_queue(alloc)?;
    let mine = Arc::new(alloc, Exchange::new(queue))?;
    let shared = Arc::try_clone(&mine)?;
    Ok((
        Lender {
            exchange: mine,
            pass: ours,
        },
        Borrower::new(shared, theirs),
    ))
}

impl<P: Drop> Lender<P> {
    /// Lends a value to the thread.
    pub(crate) fn lend<R: Wait>(&mut self, rt: &R, value: P)
        requires { self.old ≡ [] }
        ensures { self.new ≡ value ∷ [] }
    {
        push(rt, &self.exchange.queue, &mut self.pass, value);
        self.exchange.signal(LENT);
    }

    /// Waits until the thread has returned what was lent.
    pub(crate) fn collect<R: Wait>(&mut self, rt: &R) -> P
        requires { (x : P) × (self.old ≡ x ∷ []) }
        ensures value { self.old ≡ result ∷ [] }
        ensures nothing_lent { self.new ≡ [] }
    {
        self.exchange.await_change(rt, LENT);
        pop(rt, &self.exchange.queue, &mut self.pass)
    }

    /// Tells the thread that nothing more will come.
    pub(crate) fn stop(&self) {
        self.exchange.signal(OVER);
    }
}

fn push<P: Drop, R: Wait>(rt: &R, queue: &LoanQueue<P>, pass: &mut LoanPass<P>, value: P)
    requires queue { IsPassOf queue.now pass.old }
    requires nothing_lent { view pass.old ≡ holding true false [] [] }
    ensures queue { IsPassOf queue.now pass.new }
    ensures lent { view pass.new ≡ holding true false (value ∷ []) [] }
{
    let mut value = value;
    for _ in rt.forever() {
        match queue.try_push_as::<Lends>(pass, value) {
            Ok(()) => return,
            Err(back) => value = back,
        }
        thread::yield_now();
    }
    unreachable!()
}

fn pop<P: Drop, R: Wait>(rt: &R, queue: &LoanQueue<P>, pass: &mut LoanPass<P>) -> P
    requires queue { IsPassOf queue.now pass.old }
    requires lent { (x : P) × (view pass.old ≡ holding true false (x ∷ []) []) }
    ensures queue { IsPassOf queue.now pass.new }
    ensures nothing_lent { view pass.new ≡ holding true false [] [] }
    ensures value { view pass.old ≡ holding true false (result ∷ []) [] }
{
    for _ in rt.forever() {
        match queue.try_pop_as::<Collects>(pass) {
            Some(value) => return value,
            None => thread::yield_now(),
        }
    }
    unreachable!()
}
