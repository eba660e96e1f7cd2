//! The log table's states and steps, as plain data: a slot, an entry of the owner's list, an event.
//!
//! Contracts cite the machine over these types, which `specs/Slots.antt` and its neighbours define.

ghost use Rattle.std.specs.Prelude.{◌≡◌, ℕ, ◌%◌, ◌<◌};
ghost use Rattle.dym_slots.specs.SlotWords.{slot_word, IsNumbered};
ghost use Rattle.dym_slots.specs.declared.machine.Slot.TheVariants.{Free};

/// Record numbers are below this one, so that a slot's state fits a word. It is the same number as `COUNT_LIMIT`, which the
/// count of records that were made is below.
pub const RECORD_NUMBERS: u64 = 1_152_921_504_606_846_976;

/// The state of one slot of a log table. The number is the record's.
#[derive(Clone, Copy)]
pub enum Slot {
    /// Nothing is here.
    Free,
    /// The record is at home and may be read.
    Live(u64),
    /// The owner has the record out.
    OutOwner(u64),
    /// The sweeper has the record out, to give its memory back.
    OutSweeper(u64),
}

/// An entry of the owner's list: the record of this number stands in this slot.
#[derive(Clone, Copy)]
pub struct Entry {
    /// The slot's place in the table.
    pub slot: u32,
    /// The record's number.
    pub number: u64,
}

/// One step of the owner or of the sweeper. `slot` is a slot's place in the table, and `number` a record's number.
#[derive(Clone, Copy)]
pub enum Event {
    /// The owner reads a slot's state.
    OwnerLook { slot: u32 },
    /// The owner makes a Free slot its own, for the next number.
    OwnerClaim { slot: u32 },
    /// The owner takes a Live slot out.
    OwnerTake { slot: u32 },
    /// The owner leaves nothing at home in the slot that it has out.
    OwnerEmpty { slot: u32 },
    /// The owner leaves this record at home in the slot that it has out.
    OwnerFill { slot: u32, number: u64 },
    /// The owner makes the slot that it has out Live under the next number, at the end of its list.
    OwnerPut { slot: u32 },
    /// The owner makes the slot that it has out Live again under its old number.
    OwnerLower { slot: u32 },
    /// The owner makes the slot that it has out Free.
    OwnerFree { slot: u32 },
    /// The owner lets go of all records below this one of its list.
    OwnerRaise { number: u64 },
    /// The sweeper reads the root and begins a round.
    SweeperRoot,
    /// The sweeper reads the state of the first slot that it doesn't know to be clean.
    SweeperLook { slot: u32 },
    /// The sweeper takes out a slot whose record the owner let go.
    SweeperGrab { slot: u32 },
    /// The sweeper leaves nothing at home in the slot that it has out.
    SweeperEmpty { slot: u32 },
    /// The sweeper makes the slot that it has out Free.
    SweeperFree { slot: u32 },
}

impl Slot {
    /// The word that shows this state in the table.
    pub fn word(self) -> u64
        requires { IsNumbered self }
        ensures { result ≡ slot_word self }
    {
        match self {
            Slot::Free => 0,
            Slot::Live(number) => 4 * number + 1,
            Slot::OutOwner(number) => 4 * number + 2,
            Slot::OutSweeper(number) => 4 * number + 3,
        }
    }

    /// The state that a word of the table shows. A multiple of four above 0, which no table has, is read as Free.
    pub fn of_word(word: u64) -> Slot
        ensures shown { (shown : Slot) → word ≡ slot_word shown → result ≡ shown }
        ensures free { word % 4 ≡ 0 → result ≡ Free }
    {
        match word % 4 {
            0 => Slot::Free,
            1 => Slot::Live(word / 4),
            2 => Slot::OutOwner(word / 4),
            _ => Slot::OutSweeper(word / 4),
        }
    }
}
