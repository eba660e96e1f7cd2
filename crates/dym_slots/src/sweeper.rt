//! The end of a log table that takes back what the owner let go.
use crate::rule::{LogSeat, LogTable};
use std::alloc::Global;
use std::marker::Model;
use std::sync::Arc;

/// The sweeper's end of a log table. It may be in another thread than the owner's end, and no call of either waits.
#[derive(Drop)]
pub struct Sweeper {
    pub(crate) table: Arc<LogTable, Global>,
    pub(crate) seat: LogSeat,
}

impl Model for Sweeper {
    ghost use Rattle.dym_slots.specs.Meanings.{SweeperMeaning};

    ghost Value = { SweeperMeaning };

    ghost use Rattle.dym_slots.specs.Sweepers.{sweeper_meaning, IsSweeper};

    ghost view = { sweeper_meaning };

    ghost invariant = { IsSweeper };
}
