//! What the owner's end of a log table can tell the sweeper's.
use crate::rule::LogSeat;
use crate::view::SeatView;
use atomic_table::{Join, Split};
use std::marker::Model;

/// A note that the root of a log table has reached a number: the owner let go of all records below it. It has no bytes, and may go
/// to another thread.
#[derive(Drop)]
pub struct RootNote {
    pub(crate) seat: LogSeat,
}

impl Model for RootNote {
    ghost use Rattle.dym_slots.specs.Meanings.{RootNoteMeaning};

    ghost Value = { RootNoteMeaning };

    ghost use Rattle.dym_slots.specs.Sweepers.{note_meaning, IsNote};

    ghost view = { note_meaning };

    ghost invariant = { IsNote };
}

/// The owner's seat stays as it is, and the second one knows the number of the first record.
pub(crate) struct Notes;

impl Split<SeatView> for Notes {
    ghost use Rattle.dym_slots.specs.declared.view.SeatView.TheVariants.{Knows};
    ghost use Rattle.dym_slots.specs.SeatViews.{owner_of};
    ghost use Rattle.dym_slots.specs.Orders.{root_of};

    ghost left = { λ v. v };

    ghost right = { λ v. Knows (root_of (owner_of v)) };
}

/// The sweeper's seat knows of the root what a note does.
pub(crate) struct Learns;

impl Join<SeatView> for Learns {
    ghost use Rattle.dym_slots.specs.declared.view.SeatView.TheVariants.{Sweeps, Knows};
    ghost use Rattle.dym_slots.specs.SeatViews.{sweeper_of, known_root, with_least_root};

    ghost both = { λ v note. Sweeps (with_least_root (known_root note) (sweeper_of v)) };

    ghost spent = { Knows 0 };
}
