//! A thread's end of an exchange with the caller.
ghost use Rattle.std.specs.Prelude.{◌≡◌, true, false, [], ◌∷◌, MatchOption};
ghost use Rattle.std.specs.Arc.{arc_value};
ghost use Rattle.crossbeam_queue.specs.Passes.{view, IsPassOf};
ghost use Rattle.warp_threads.specs.Loans.{holding};

use crate::exchange::{Borrows, Exchange, LoanPass, LoanQueue, OVER, RETURNED, Returns};
use crate::lane::Lane;
use crate::packet::Packet;
use std::alloc::Global;
use std::marker::Model;
use std::sync::{Arc, Wait};
use std::thread;

/// A thread's end. Contracts see what it holds of what was lent: nothing, or one value.
#[derive(Drop)]
pub(crate) struct Borrower<P> {
    exchange: Arc<Exchange<P>, Global>,
    pass: LoanPass<P>,
}

impl<P> Model for Borrower<P> {
    ghost use Rattle.std.specs.Prelude.{List};
    ghost use Rattle.std.specs.Arc.{arc_value};
    ghost use Rattle.crossbeam_queue.specs.Passes.{IsPassOf};
    ghost use Rattle.warp_threads.specs.Loans.{IsBorrower, held_by};

    ghost Value = { List P };

    ghost view = { λ s. held_by s.pass };

    ghost invariant = { λ s. record {
      queue : IsPassOf (arc_value s.exchange).queue s.pass;
      role : IsBorrower s.pass;
    } };
}

impl<P: Drop> Borrower<P> {
    pub(crate) fn new(exchange: Arc<Exchange<P>, Global>, pass: LoanPass<P>) -> Self
        requires queue { IsPassOf (arc_value exchange).queue pass }
        requires role { view pass ≡ holding false true [] [] }
        ensures { result ≡ [] }
    {
        Borrower { exchange, pass }
    }

    /// Waits until a value is lent; none where the caller has said that nothing more will come.
    fn take<R: Wait>(&mut self, rt: &R) -> Option<P>
        requires { self.old ≡ [] }
        ensures { MatchOption result (self.new ≡ []) (λ x. self.new ≡ x ∷ []) }
    {
        if self.exchange.await_change(rt, RETURNED) == u64::from(OVER) {
            return None;
        }
        Some(pop(rt, &self.exchange.queue, &mut self.pass))
    }

    /// Gives back the value that it holds.
    fn give_back<R: Wait>(&mut self, rt: &R, value: P)
        requires { self.old ≡ value ∷ [] }
        ensures { self.new ≡ [] }
    {
        push(rt, &self.exchange.queue, &mut self.pass, value);
        self.exchange.signal(RETURNED);
    }
}

fn push<P: Drop, R: Wait>(rt: &R, queue: &LoanQueue<P>, pass: &mut LoanPass<P>, value: P)
    requires queue { IsPassOf queue.now pass.old }
    requires held { view pass.old ≡ holding false true [] (value ∷ []) }
    ensures queue { IsPassOf queue.now pass.new }
    ensures nothing_held { view pass.new ≡ holding false true [] [] }
{
    let mut value = value;
    for _ in rt.forever() {
        match queue.try_push_as::<Returns>(pass, value) {
            Ok(()) => return,
            Err(back) => value = back,
        }
        thread::yield_now();
    }
    unreachable!()
}

fn pop<P: Drop, R: Wait>(rt: &R, queue: &LoanQueue<P>, pass: &mut LoanPass<P>) -> P
    requires queue { IsPassOf queue.now pass.old }
    requires nothing_held { view pass.old ≡ holding false true [] [] }
    ensures queue { IsPassOf queue.now pass.new }
    ensures held { view pass.new ≡ holding false true [] (result ∷ []) }
{
    for _ in rt.forever() {
        match queue.try_pop_as::<Borrows>(pass) {
            Some(value) => return value,
            None => thread::yield_now(),
        }
    }
    unreachable!()
}

/// Advances each lane that is lent and gives it back, until nothing more will come.
pub(crate) fn work<O: Drop, L: Lane<O> + Drop, R: Wait>(rt: &R, mut end: Borrower<Packet<O, L>>)
    requires { end ≡ [] }
{
    for _ in rt.forever() {
        let Some(mut packet) = end.take(rt) else {
            return;
        };
        packet.run();
        end.give_back(rt, packet);
    }
}
