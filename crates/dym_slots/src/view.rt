//! What the seats of a log table know. No values of these types are made: they stand in clauses alone.
use crate::machine::{Entry, Slot};
use dym_pack::Record;
use std::collections::LinkedList;

/// An entry of the owner's list, with the record that it was put with.
pub struct Listed {
    pub entry: Entry,
    pub bytes: Record,
}

/// A slot, and the state in which a look found it.
pub struct Glimpse {
    pub slot: u64,
    pub found: Slot,
}

/// What the owner knows: the machine's view with the records, and its last look.
pub struct OwnerSeat {
    pub list: LinkedList<Listed>,
    pub next: u64,
    pub out: Option<u64>,
    pub remembered: LinkedList<u64>,
    pub look: Option<Glimpse>,
}

/// What the sweeper knows: the machine's view, what its last look found, its counts, and a number that the root is known to have
/// reached.
pub struct SweeperSeat {
    pub root_seen: u64,
    pub least_root: u64,
    pub out: Option<u64>,
    pub clean: u64,
    pub found: Option<u64>,
    pub rounds: u64,
    pub taken_back: u64,
}

/// What a seat of a log table knows.
pub enum SeatView {
    /// The first seat, before the second is made.
    Alone,
    /// The owner's.
    Owns(OwnerSeat),
    /// The sweeper's.
    Sweeps(SweeperSeat),
    /// A note's: the root has reached this number.
    Knows(u64),
}
