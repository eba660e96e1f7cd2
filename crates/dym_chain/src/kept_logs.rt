//! Kept logs whose records can be read one after the other.
ghost use Rattle.std.specs.Prelude.{◌≡◌, ◌<◌, None, Some, length};
ghost use Rattle.dym_base.specs.Objects as Objects;
ghost use Rattle.dym_chain.specs.Chains.{ChainMeaning, log_at};
ghost use Rattle.dym_slots.specs.Meanings.{record_at};
ghost use Rattle.dym_chain.specs.KeptRecords.{AreKeptRecords};
ghost use Rattle.dym_chain.specs.Lawful.{entry_of};

use crate::chain::Chain;
use crate::entry::Entry;
use crate::log_keep::LogKeep;
use dym_pack::Record;

/// The kept logs of an object, with their records and those before the oldest that it needs.
///
/// A record is read while it is out: `lift` takes it out without a copy, and `lower` brings it back. No call takes memory, and no
/// call changes the logs.
pub trait KeptLogs {
    ghost meaning: { Self → ChainMeaning };

    /// How many logs are kept.
    fn kept(&self) -> u32
        ensures { result ≡ length (meaning self.now).logs };

    /// How many records there are.
    fn slots(&self) -> u32
        ensures slots { result ≡ Objects.slots (meaning self.now).logs }
        ensures records { result ≡ length (meaning self.now).records }
        ensures kept { AreKeptRecords (meaning self.now) };

    /// Log `k`, the oldest first.
    fn entry(&self, k: u32) -> Entry
        requires { k < length (meaning self.now).logs }
        ensures { result ≡ entry_of (log_at (meaning self.now).logs k) };

    /// Takes out the record at a place, for `lower` to bring back.
    fn lift(&mut self, place: u32) -> Record
        requires place { place < length (meaning self.old).records }
        requires idle { (meaning self.old).lifted ≡ None }
        ensures bytes { result ≡ (record_at (meaning self.old).records place).bytes }
        ensures after { meaning self.new ≡ record (meaning self.old) { lifted = Some place } };

    /// Brings back the record that is out.
    fn lower(&mut self, place: u32, rec: Record)
        requires lifted { (meaning self.old).lifted ≡ Some place }
        requires bytes { rec ≡ (record_at (meaning self.old).records place).bytes }
        ensures after { meaning self.new ≡ record (meaning self.old) { lifted = None } };
}

impl<K: LogKeep> KeptLogs for Chain<K> {
    ghost meaning = { λ c. c };

    fn kept(&self) -> u32 {
        Chain::kept(self)
    }

    fn slots(&self) -> u32 {
        Chain::slots(self)
    }

    fn entry(&self, k: u32) -> Entry {
        Chain::entry(self, k)
    }

    fn lift(&mut self, place: u32) -> Record {
        self.keep.lift(place)
    }

    fn lower(&mut self, place: u32, rec: Record) {
        self.keep.lower(place, rec);
    }
}
