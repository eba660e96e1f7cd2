//! The rule of a log table, and how its two seats are made.
use crate::view::SeatView;
use atomic_table::{Seat, Shared, Split, Table, TableRule};
use dym_pack::Record;
use std::alloc::Global;

/// The table shows a state of the machine that meets all facts and notes.
pub struct LogRule;

impl TableRule<Option<Record>, SeatView, ()> for LogRule {
    ghost use Rattle.dym_base.specs.declared.limits.TheConstants.{LOG_SLOTS};
    ghost use Rattle.dym_slots.specs.TableStates.{Holds};
    ghost use Rattle.dym_slots.specs.declared.view.SeatView.TheVariants.{Alone};

    ghost holds = { λ _. Holds LOG_SLOTS };

    ghost first = { λ _. Alone };
}

/// The first seat becomes the owner's, and the second is the sweeper's.
pub struct Ends;

impl Split<SeatView> for Ends {
    ghost use Rattle.dym_slots.specs.declared.view.SeatView.TheVariants.{Owns, Sweeps};
    ghost use Rattle.dym_slots.specs.SeatViews.{new_owner, new_sweeper};

    ghost left = { λ _. Owns new_owner };

    ghost right = { λ _. Sweeps new_sweeper };
}

/// The words and slots of a log table, as both ends see them.
pub type Slots = Shared<Option<Record>, SeatView, (), LogRule>;

/// A log table with its memory.
pub type LogTable = Table<Option<Record>, SeatView, (), LogRule, Global>;

/// The seat of one end.
pub type LogSeat = Seat<Option<Record>, SeatView>;
