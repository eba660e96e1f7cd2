//! A keep of records in a queue.
ghost use Rattle.std.specs.Prelude.{◌≡◌, None, [], IfOk};
ghost use Rattle.dym_base.specs.Origins.{own};

use crate::log_keep::LogKeep;
use crate::queue_front::drop_front;
use dym_base::limits::RECORD_ROOM;
use dym_pack::Record;
use std::alloc::{AllocError, Global};
use std::collections::VecDeque;
use std::marker::Model;
use std::snapshot::Snapshot;

/// A record under its number, or the number alone while the record is out.
#[derive(Drop)]
pub(crate) struct Slot {
    number: u64,
    held: Option<Record>,
}

/// Which record is out. What its bytes are only clauses see.
#[derive(Drop)]
pub(crate) struct Lifted {
    place: u32,
    bytes: Snapshot<Record>,
}

/// A keep of records that has room for a full list from its opening on.
#[derive(Drop)]
pub struct VecKeep {
    slots: VecDeque<Slot>,
    made: u64,
    lifted: Option<Lifted>,
}

impl Model for VecKeep {
    ghost use Rattle.dym_slots.specs.Meanings.{KeepMeaning};

    ghost Value = { KeepMeaning };

    ghost use Rattle.std.specs.VecDeque.{deque_capacity};
    ghost use Rattle.dym_chain.specs.VecKeeps.{keep_of, IsValidKeep};

    ghost view = { keep_of };

    ghost invariant = { λ k. IsValidKeep k.slots.items k.lifted k.made
        (deque_capacity k.slots) };
}

impl VecKeep {
    /// An empty keep. Only memory can be wanting.
    pub fn open(alloc: Global) -> Result<VecKeep, AllocError>
        ensures { IfOk result (λ k. k
            ≡ record { records = []; made = 0; lifted = None; origin = own }) }
    {
        Ok(VecKeep {
            slots: VecDeque::with_capacity(alloc, RECORD_ROOM as usize)?,
            made: 0,
            lifted: None,
        })
    }
}

impl LogKeep for VecKeep {
    ghost meaning = { λ k. k };

    fn len(&self) -> u32 {
        self.slots.len() as u32
    }

    fn number_at(&self, place: u32) -> u64 {
        self.slots[place as usize].number
    }

    fn made(&self) -> u64 {
        self.made
    }

    fn put(&mut self, rec: Record) -> u64 {
        let number = self.made;
        self.slots.push_back_reserved(Slot {
            number,
            held: Some(rec),
        });
        self.made += 1;
        number
    }

    fn lift(&mut self, place: u32) -> Record {
        let Some(rec) = self.slots[place as usize].held.take() else {
            unreachable!();
        };
        self.lifted = Some(Lifted {
            place,
            bytes: Snapshot::of(&rec),
        });
        rec
    }

    fn lower(&mut self, place: u32, rec: Record) {
        self.slots[place as usize].held = Some(rec);
        self.lifted = None;
    }

    fn drop_after(&mut self, place: u32) {
        self.slots.truncate(place as usize + 1);
    }

    fn raise(&mut self, place: u32) {
        drop_front(&mut self.slots, place as usize);
    }
}
