//! What every keep of records can do.
ghost use Rattle.std.specs.Prelude.{◌≡◌, ℕ, ◌+◌, ◌<◌, None, Some, length};
ghost use Rattle.dym_base.specs.declared.limits.TheConstants.{RECORD_ROOM, COUNT_LIMIT};
ghost use Rattle.dym_slots.specs.Meanings.{KeepMeaning, NumbersRise, record_at, with_record, up_to, from};

use dym_base::limits::RECORD_ROOM;
use dym_pack::Record;

/// A list of numbered records, at most one of which is out at a time.
///
/// The list stays as it is while a record is out. No call takes memory, and none changes where the keep has its room.
pub trait LogKeep {
    ghost meaning: { Self → KeepMeaning };

    /// How many records the list has.
    fn len(&self) -> u32
        ensures { result ≡ length (meaning self.now).records };

    /// The number of the record at a place.
    fn number_at(&self, place: u32) -> u64
        requires { place < length (meaning self.now).records }
        ensures { result ≡ (record_at (meaning self.now).records place).number };

    /// The number that the next record gets. Numbers rise along the list, and all are below it.
    fn made(&self) -> u64
        ensures made { result ≡ (meaning self.now).made }
        ensures rise { NumbersRise (meaning self.now).records (meaning self.now).made };

    /// Appends a record, and answers its number.
    fn put(&mut self, rec: Record) -> u64
        requires room { length (meaning self.old).records < RECORD_ROOM }
        requires made { (meaning self.old).made < COUNT_LIMIT }
        requires idle { (meaning self.old).lifted ≡ None }
        ensures number { result ≡ (meaning self.old).made }
        ensures after { meaning self.new ≡ with_record (meaning self.old) rec };

    /// Takes out the record at a place, for `lower` to bring back.
    fn lift(&mut self, place: u32) -> Record
        requires place { place < length (meaning self.old).records }
        requires idle { (meaning self.old).lifted ≡ None }
        ensures bytes { result ≡ (record_at (meaning self.old).records place).bytes }
        ensures after { meaning self.new ≡ record (meaning self.old) { lifted = Some place } };

    /// Brings back the record that is out.
    fn lower(&mut self, place: u32, rec: Record)
        requires lifted { (meaning self.old).lifted ≡ Some place }
        requires bytes { rec ≡ (record_at (meaning self.old).records place).bytes }
        ensures after { meaning self.new ≡ record (meaning self.old) { lifted = None } };

    /// Removes the records after a place.
    fn drop_after(&mut self, place: u32)
        requires place { place < length (meaning self.old).records }
        requires idle { (meaning self.old).lifted ≡ None }
        ensures after { meaning self.new ≡ up_to (meaning self.old) place };

    /// Removes the records before a place.
    fn raise(&mut self, place: u32)
        requires place { place < length (meaning self.old).records }
        requires idle { (meaning self.old).lifted ≡ None }
        ensures after { meaning self.new ≡ from (meaning self.old) place };
}
