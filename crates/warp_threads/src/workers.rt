//! Threads that stay, and rounds of lanes over them.
ghost use Rattle.std.specs.Prelude.{◌≡◌, ◌+◌, ◌≤◌, List, [], ◌++◌, All, length, drop, vec_len, vec_capacity};
ghost use Rattle.std.specs.List.{AllZip, zip};
ghost use Rattle.warp_threads.specs.Rounds.{AllMayAdvance, AllAdvanced, one_each};

use crate::lane::Lane;
use crate::lender::Lender;
use crate::packet::Packet;
use std::marker::Model;
use std::sync::Wait;

/// Threads that stay, each of which works on a lane in a round. Contracts see their number.
pub struct Workers<O, L: Lane<O>> {
    lenders: Vec<Lender<Packet<O, L>>>,
}

impl<O, L: Lane<O>> Model for Workers<O, L> {
    ghost use Rattle.std.specs.Prelude.{◌≡◌, ℕ, [], All, vec_len};

    ghost Value = { ℕ };

    ghost view = { λ w. vec_len w.lenders };

    ghost invariant = { λ w. All (λ x. x ≡ []) w.lenders.items };
}

impl<O: Copy, L: Lane<O> + Drop> Workers<O, L> {
    pub(crate) fn new(lenders: Vec<Lender<Packet<O, L>>>) -> Self
        requires { All (λ x. x ≡ []) lenders.items }
        ensures { result ≡ vec_len lenders }
    {
        Workers { lenders }
    }

    /// Lets every thread end.
    pub(crate) fn stop(self) {
        let Workers { lenders } = self;
        for lender in &lenders {
            lender.stop();
        }
    }

    /// One round: each lane is advanced by the order for its place. The threads have the last
    /// lanes, and the caller works on the others; where there are fewer lanes than threads, it
    /// works on all of them. Takes no memory.
    pub fn round<R: Wait>(&mut self, rt: &R, lanes: &mut Vec<L>, orders: &[O])
        requires len { length orders.now ≡ vec_len lanes.old }
        requires ready { AllMayAdvance L.can_advance orders.now lanes.old.items }
        ensures advanced { AllAdvanced L.advances orders.now lanes.old.items lanes.new.items }
        ensures len { vec_len lanes.new ≡ vec_len lanes.old }
        ensures room { vec_capacity lanes.new ≡ vec_capacity lanes.old }
        ensures threads { self.new ≡ self.old }
    {
        if self.lenders.len() <= lanes.len() {
            advance_in_threads(rt, lanes, &mut self.lenders, orders);
        } else {
            advance_all(lanes, orders);
        }
    }
}

/// Advances each lane by the order for its place, the last ones in the threads.
fn advance_in_threads<O: Copy, L: Lane<O> + Drop, R: Wait>(
    rt: &R,
    lanes: &mut Vec<L>,
    lenders: &mut Vec<Lender<Packet<O, L>>>,
    orders: &[O],
)
    requires few { vec_len lenders.old ≤ vec_len lanes.old }
    requires len { length orders.now ≡ vec_len lanes.old }
    requires nothing_lent { All (λ x. x ≡ []) lenders.old.items }
    requires ready { AllMayAdvance L.can_advance orders.now lanes.old.items }
    ensures advanced { AllAdvanced L.advances orders.now lanes.old.items lanes.new.items }
    ensures nothing_lent { All (λ x. x ≡ []) lenders.new.items }
    ensures len { vec_len lanes.new ≡ vec_len lanes.old }
    ensures room { vec_capacity lanes.new ≡ vec_capacity lanes.old }
    ensures threads { vec_len lenders.new ≡ vec_len lenders.old }
{
    lend_all(rt, lanes, lenders, orders);
    advance_all(lanes, orders);
    collect_all(rt, lanes, lenders);
}

/// Lends each thread a lane, the last ones.
fn lend_all<O: Copy, L: Lane<O> + Drop, R: Wait>(
    rt: &R,
    lanes: &mut Vec<L>,
    lenders: &mut Vec<Lender<Packet<O, L>>>,
    orders: &[O],
)
    requires few { vec_len lenders.old ≤ vec_len lanes.old }
    requires len { length orders.now ≡ vec_len lanes.old }
    requires nothing_lent { All (λ x. x ≡ []) lenders.old.items }
    requires ready { AllMayAdvance L.can_advance orders.now lanes.old.items }
    ensures lent { (lent : List _) × (lanes.old.items ≡ lanes.new.items ++ lent)
        × (lenders.new.items ≡ one_each (zip (drop (vec_len lanes.new) orders.now) lent)) }
    ensures len { vec_len lanes.new + vec_len lenders.new ≡ vec_len lanes.old }
    ensures room { vec_capacity lanes.new ≡ vec_capacity lanes.old }
    ensures threads { vec_len lenders.new ≡ vec_len lenders.old }
{
    let mut place = lenders.len();
    while place > 0 {
        place -= 1;
        let lane = lanes.take_last();
        let order = orders[lanes.len()];
        lenders[place].lend(rt, Packet::new(order, lane));
    }
}

/// Advances these lanes by the first of the orders.
fn advance_all<O, L: Lane<O>>(lanes: &mut Vec<L>, orders: &[O])
    requires few { vec_len lanes.old ≤ length orders.now }
    requires ready { AllMayAdvance L.can_advance orders.now lanes.old.items }
    ensures advanced { AllAdvanced L.advances orders.now lanes.old.items lanes.new.items }
    ensures len { vec_len lanes.new ≡ vec_len lanes.old }
    ensures room { vec_capacity lanes.new ≡ vec_capacity lanes.old }
{
    for place in 0..lanes.len() {
        lanes[place].advance(&orders[place]);
    }
}

/// Puts the lanes that were lent behind the others again.
fn collect_all<O: Drop, L: Lane<O> + Drop, R: Wait>(
    rt: &R,
    lanes: &mut Vec<L>,
    lenders: &mut Vec<Lender<Packet<O, L>>>,
)
    requires lent { (lent : List _) × (lenders.old.items ≡ one_each lent) }
    requires room { vec_len lanes.old + vec_len lenders.old ≤ vec_capacity lanes.old }
    ensures back { (lent : List _) → lenders.old.items ≡ one_each lent
        → (back : List _) × (lanes.new.items ≡ lanes.old.items ++ back)
        × AllZip (λ x lane. L.advances x.0 x.1 lane) lent back }
    ensures nothing_lent { All (λ x. x ≡ []) lenders.new.items }
    ensures len { vec_len lanes.new ≡ vec_len lanes.old + vec_len lenders.old }
    ensures room { vec_capacity lanes.new ≡ vec_capacity lanes.old }
    ensures threads { vec_len lenders.new ≡ vec_len lenders.old }
{
    for place in 0..lenders.len() {
        lanes.push_reserved(lenders[place].collect(rt).into_lane());
    }
}
