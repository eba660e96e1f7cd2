//! The end of a log table that keeps its records.
use crate::rule::{LogSeat, LogTable};
use std::alloc::Global;
use std::marker::Model;
use std::sync::Arc;

/// The owner's end of a log table: a list of numbered records, at most one of which is out at a time. No call takes memory, and
/// none waits for the sweeper.
#[derive(Drop)]
pub struct Owner {
    pub(crate) table: Arc<LogTable, Global>,
    pub(crate) seat: LogSeat,
    // All slots of the table: those of the list, oldest first, and then the others, in the order in which `put` takes them.
    pub(crate) order: Vec<u16>,
    // The numbers of the list's records, oldest first.
    pub(crate) numbers: Vec<u64>,
    pub(crate) made: u64,
    pub(crate) lifted: Option<u32>,
}

impl Model for Owner {
    ghost use Rattle.dym_slots.specs.Meanings.{KeepMeaning};

    ghost Value = { KeepMeaning };

    ghost use Rattle.dym_slots.specs.Owners.{owner_meaning, IsOwned};

    ghost view = { owner_meaning };

    ghost invariant = { IsOwned };
}
