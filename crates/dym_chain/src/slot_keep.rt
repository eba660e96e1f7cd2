//! A keep of records in log slots, which a sweeper shares.
ghost use Rattle.std.specs.Prelude.{◌≡◌};

use crate::log_keep::LogKeep;
use dym_pack::Record;
use dym_slots::Owner;
use std::marker::Model;

/// A keep whose records stand in log slots: each call is its owner's. A sweeper takes back what was let go, in a thread of its own,
/// and changes nothing of the keep. Its origin names its log table.
#[derive(Drop)]
pub struct SlotKeep {
    owner: Owner,
}

impl Model for SlotKeep {
    ghost use Rattle.dym_slots.specs.Meanings.{KeepMeaning};

    ghost Value = { KeepMeaning };

    ghost view = { λ k. k.owner };
}

impl SlotKeep {
    /// The keep over an owner.
    pub fn new(owner: Owner) -> SlotKeep
        ensures { result ≡ owner }
    {
        SlotKeep { owner }
    }

    /// The owner.
    pub fn into_owner(self) -> Owner
        ensures { result ≡ self }
    {
        let SlotKeep { owner } = self;
        owner
    }
}

impl LogKeep for SlotKeep {
    ghost meaning = { λ k. k };

    fn len(&self) -> u32 {
        self.owner.len()
    }

    fn number_at(&self, place: u32) -> u64 {
        self.owner.number_at(place)
    }

    fn made(&self) -> u64 {
        self.owner.made()
    }

    fn put(&mut self, rec: Record) -> u64 {
        self.owner.put(rec)
    }

    fn lift(&mut self, place: u32) -> Record {
        self.owner.lift(place)
    }

    fn lower(&mut self, place: u32, rec: Record) {
        self.owner.lower(place, rec);
    }

    fn drop_after(&mut self, place: u32) {
        self.owner.drop_after(place);
    }

    fn raise(&mut self, place: u32) {
        self.owner.raise(place);
    }
}
