//! The log slots of one object: records in the slots of a lock-free table, which an owner and a
//! sweeper share. The table's machine stands here too: the states of its slots, the steps of its
//! two seats, and the laws of what every list of steps keeps.
//!
//! Below stand `dym_base` and `dym_pack`, whose records the slots keep; above stand the chain of
//! logs, which keeps its records with the owner, the pruner, which sweeps, and the judge of traces,
//! which knows the machine alone. Its one contract: the owner is a list of numbered records,
//! whatever the sweeper does meanwhile, and at every moment the table shows a state of the machine
//! that has all its facts. The laws say that the machine's steps keep these; that each step of the
//! code is one of the machine's is how this is proved, and no clause. The sweeper is seen as its
//! table, its rounds, what it took back, its clean count and the root that it read; the two are of
//! one table where `owner.origin ≡ shared sweeper.table`. A sweeper that has learnt a note of its
//! owner's takes back all that was let go before.
#![tactic(auto)]

mod laws;
mod log_slots;
mod machine;
mod owner;
mod owner_calls;
mod owner_steps;
mod root_note;
mod rule;
mod sweeper;
mod sweeper_calls;
mod sweeper_steps;
mod view;

pub use laws::{
    each_run_has_notes, each_run_keeps_facts, each_run_keeps_notes, each_step_keeps_facts,
    each_step_keeps_notes, first_of_two_is_free, full_count_is_clean, numbers_are_below,
    only_the_list_is_left, owner_finds_its_own, put_has_room,
};
pub use log_slots::LogSlots;
pub use machine::{Entry, Event, RECORD_NUMBERS, Slot};
pub use owner::Owner;
pub use root_note::RootNote;
pub use rule::{LogRule, LogSeat, LogTable, Slots};
pub use sweeper::Sweeper;
pub use view::{Glimpse, Listed, OwnerSeat, SeatView, SweeperSeat};
