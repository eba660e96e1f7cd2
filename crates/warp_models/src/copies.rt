//! What a simulator that takes copies of states asks: a clone of a state is the same state.
//!
//! Where a state has a vector, the elements of the clone are clones of its elements.
ghost use Rattle.std.specs.Prelude.{◌≡◌};
ghost use Rattle.std.specs.List.{each_same};

use crate::cell_state::CellState;
use crate::phold::PholdState;
use crate::queues::Station;
use warp_process::Copied;

impl Copied for Station {
    ghost clone_is_same = { λ state copy same. same };
}

impl Copied for PholdState {
    ghost clone_is_same = { λ state copy same.
        let numbers : same.1.numbers.items ≡ same.0.numbers.items
        = each_same _ _ same.4.1.1.1.0 in Prim.cc };
}

impl Copied for CellState {
    ghost clone_is_same = { λ state copy same.
        let calls : same.1.calls.items ≡ same.0.calls.items
        = each_same _ _ same.4.1.1.1.1.1.1.1.0 in Prim.cc };
}
