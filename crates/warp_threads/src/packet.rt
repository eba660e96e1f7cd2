//! How a lane travels.
ghost use Rattle.std.specs.Prelude.{◌≡◌};

use crate::lane::Lane;
use std::marker::Model;
use std::snapshot::Snapshot;

/// A lane on its way with its order. Contracts see the order and the lane as it was when it was
/// lent, so a packet that comes back as it was sent has that very lane, advanced by that order.
#[derive(Drop)]
pub(crate) struct Packet<O, L: Lane<O>> {
    order: O,
    lane: L,
    lent: Snapshot<L>,
    done: bool,
}

impl<O, L: Lane<O>> Model for Packet<O, L> {
    ghost use Rattle.std.specs.Prelude.{◌≡◌, true, false};

    ghost Value = { O × L };

    ghost view = { λ p. (p.order, p.lent.value) };

    ghost invariant = { λ p. record {
      same : p.done ≡ false → p.lane ≡ p.lent.value;
      ready : p.done ≡ false → L.can_advance p.order p.lane;
      advanced : p.done ≡ true → L.advances p.order p.lent.value p.lane;
    } };
}

impl<O: Drop, L: Lane<O> + Drop> Packet<O, L> {
    /// A lane that is to be advanced.
    pub(crate) fn new(order: O, lane: L) -> Self
        requires { L.can_advance order lane }
        ensures { result ≡ (order, lane) }
    {
        let lent = Snapshot::of(&lane);
        Packet {
            order,
            lane,
            lent,
            done: false,
        }
    }

    /// Advances the lane, unless that was done.
    pub(crate) fn run(&mut self)
        ensures { self.new ≡ self.old }
    {
        if !self.done {
            self.lane.advance(&self.order);
            self.done = true;
        }
    }

    /// The lane, advanced.
    pub(crate) fn into_lane(self) -> L
        ensures { L.advances self.0 self.1 result }
    {
        let Packet {
            order,
            mut lane,
            lent: _,
            done,
        } = self;
        if !done {
            lane.advance(&order);
        }
        lane
    }
}
