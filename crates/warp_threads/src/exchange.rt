//! What the caller and one thread share, and the rule under which values go there and back.
ghost use Rattle.std.specs.Prelude.{◌≡◌, true, false, [], IfOk};
ghost use Rattle.crossbeam_queue.specs.Passes.{view, IsPassOf};
ghost use Rattle.warp_threads.specs.Loans.{holding};

use crossbeam_queue::protocol::{Outcome, Protocol, Split};
use crossbeam_queue::{Pass, RuledArrayQueue};
use std::alloc::{AllocError, Global};
use std::collections::LinkedList;
use std::hint;
use std::sync::Wait;
use std::sync::atomic::{AtomicU64, Ordering};

/// What a pass may do (lend, borrow), what it has lent, and what it has of what was lent. No value
/// of it is made.
pub(crate) struct Holding<P> {
    pub(crate) lends: bool,
    pub(crate) borrows: bool,
    pub(crate) lent: LinkedList<P>,
    pub(crate) held: LinkedList<P>,
}

/// The rule: what is lent is what the borrower holds and what the queue holds.
pub(crate) struct LoanRule;

impl<P> Protocol<P, Holding<P>> for LoanRule {
    ghost use Rattle.std.specs.Prelude.{true, []};
    ghost use Rattle.warp_threads.specs.Loans.{holding, IsLent};

    ghost holds = { IsLent };

    ghost first = { holding true true [] [] };
}

/// One pass to lend, and one to borrow.
pub(crate) struct Roles;

impl<P> Split<Holding<P>> for Roles {
    ghost use Rattle.std.specs.Prelude.{true, false, []};
    ghost use Rattle.warp_threads.specs.Loans.{holding};

    ghost left = { λ v. holding true false v.lent [] };

    ghost right = { λ v. holding false true [] v.held };
}

/// The caller lends a value.
pub(crate) struct Lends;

impl<P> Outcome<P, Holding<P>> for Lends {
    ghost use Rattle.std.specs.Prelude.{◌≡◌, [], ◌∷◌};
    ghost use Rattle.warp_threads.specs.Loans.{holding};

    ghost then = { λ v x w. w ≡ holding v.lends v.borrows (x ∷ []) v.held };
}

/// The caller has back what it lent.
pub(crate) struct Collects;

impl<P> Outcome<P, Holding<P>> for Collects {
    ghost use Rattle.std.specs.Prelude.{◌≡◌, [], ◌∷◌};
    ghost use Rattle.warp_threads.specs.Loans.{holding};

    ghost then = { λ v x w. (w ≡ holding v.lends v.borrows [] v.held) × (v.lent ≡ x ∷ []) };
}

/// The thread takes what is lent.
pub(crate) struct Borrows;

impl<P> Outcome<P, Holding<P>> for Borrows {
    ghost use Rattle.std.specs.Prelude.{◌≡◌, [], ◌∷◌};
    ghost use Rattle.warp_threads.specs.Loans.{holding};

    ghost then = { λ v x w. w ≡ holding v.lends v.borrows v.lent (x ∷ []) };
}

/// The thread gives it back.
pub(crate) struct Returns;

impl<P> Outcome<P, Holding<P>> for Returns {
    ghost use Rattle.std.specs.Prelude.{◌≡◌, []};
    ghost use Rattle.warp_threads.specs.Loans.{holding};

    ghost then = { λ v x w. w ≡ holding v.lends v.borrows v.lent [] };
}

pub(crate) type LoanQueue<P> = RuledArrayQueue<P, Holding<P>, LoanRule>;

pub(crate) type LoanPass<P> = Pass<P, Holding<P>>;

/// A queue for what is lent, with the caller's pass and the thread's.
pub(crate) fn open_queue<P: Drop>(
    alloc: Global,
) -> Result<(LoanQueue<P>, LoanPass<P>, LoanPass<P>), AllocError>
    ensures passes { IfOk result (λ r. IsPassOf r.0 r.1 × IsPassOf r.0 r.2) }
    ensures views { IfOk result (λ r. (view r.1 ≡ holding true false [] [])
        × (view r.2 ≡ holding false true [] [])) }
{
    let (queue, mut pass) = LoanQueue::ruled(alloc, 2)?;
    let theirs = queue.another::<Roles>(&mut pass);
    Ok((queue, pass, theirs))
}

/// What the two ends share: the queue, and whose turn it is.
#[derive(Drop)]
pub(crate) struct Exchange<P> {
    pub(crate) queue: LoanQueue<P>,
    turn: AtomicU64,
}

/// The turn while the caller has everything.
pub(crate) const RETURNED: u32 = 0;

/// The turn while a value is lent.
pub(crate) const LENT: u32 = 1;

/// The turn once nothing more will come.
pub(crate) const OVER: u32 = 2;

/// How often a thread looks at the turn before it sleeps.
const LOOKS: u32 = 1_000;

impl<P> Exchange<P> {
    pub(crate) fn new(queue: LoanQueue<P>) -> Self
        ensures { result.queue ≡ queue }
    {
        Exchange {
            queue,
            turn: AtomicU64::new(u64::from(RETURNED)),
        }
    }

    /// Says whose turn it is, and wakes the other end.
    pub(crate) fn signal(&self, turn: u32) {
        self.turn.store(u64::from(turn), Ordering::SeqCst);
        self.turn.wake_all();
    }

    /// Waits until the turn is another than this one, and answers it. The turn says when it is
    /// worth to look into the queue; what is there follows from the rule alone.
    pub(crate) fn await_change<R: Wait>(&self, rt: &R, turn: u32) -> u64 {
        for _ in 0..LOOKS {
            let now = self.turn.load(Ordering::SeqCst);
            if now != u64::from(turn) {
                return now;
            }
            hint::spin_loop();
        }
        for _ in rt.forever() {
            self.turn.park(rt, turn);
            let now = self.turn.load(Ordering::SeqCst);
            if now != u64::from(turn) {
                return now;
            }
        }
        unreachable!()
    }
}
