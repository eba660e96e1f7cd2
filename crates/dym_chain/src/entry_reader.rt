//! The times and depths of logs, read from their records.
ghost use Rattle.std.specs.Prelude.{◌≡◌, ◌+◌, ◌<◌, ◌≤◌, None, [], length, vec_capacity};
ghost use Rattle.dym_base.specs.LawfulLists.{depth_after};
ghost use Rattle.dym_base.specs.declared.limits.TheConstants.{MOST_DEPTH};
ghost use Rattle.dym_chain.specs.AdoptedLogs.{AreLawful, AreKeptTimes};
ghost use Rattle.dym_chain.specs.Keeps.{bytes_of};
ghost use Rattle.dym_pack.specs.ParsedAreas.{OfLog};
ghost use Rattle.dym_slots.specs.Meanings.{record_at};

use crate::entry::Entry;
use crate::log_keep::LogKeep;
use dym_base::Kind;

/// The entries of the records from place `first` on, put into a vector that has room for them.
pub(crate) fn read_entries<K: LogKeep>(room: Vec<Entry>, keep: &mut K, first: u8) -> Vec<Entry>
    requires idle { (K.meaning keep.old).lifted ≡ None }
    requires lawful { AreLawful first (bytes_of (K.meaning keep.old).records) }
    requires none { length (K.meaning keep.old).records ≡ 0 → first ≡ 0 }
    requires some { 0 < length (K.meaning keep.old).records
        → first < length (K.meaning keep.old).records }
    requires empty { room.items ≡ [] }
    requires room { length (K.meaning keep.old).records ≤ first + vec_capacity room }
    ensures keep { K.meaning keep.new ≡ K.meaning keep.old }
    ensures capacity { vec_capacity result ≡ vec_capacity room }
    ensures entries { AreKeptTimes first (bytes_of (K.meaning keep.old).records) result.items }
{
    let mut entries = room;
    let mut depth = first.saturating_sub(1);
    for place in u32::from(first)..keep.len() {
        let entry = read_entry(keep, place, depth);
        depth = entry.depth;
        entries.push_reserved(entry);
    }
    entries
}

/// The entry of the record at a place, the one before it having this depth.
fn read_entry<K: LogKeep>(keep: &mut K, place: u32, before: u8) -> Entry
    requires idle { (K.meaning keep.old).lifted ≡ None }
    requires place { place < length (K.meaning keep.old).records }
    requires shallow { before ≤ MOST_DEPTH }
    ensures keep { K.meaning keep.new ≡ K.meaning keep.old }
    ensures entry { OfLog (record_at (K.meaning keep.old).records place).bytes
        (λ log. result ≡ record { time = log.time; depth = depth_after before log.kind }) }
{
    let rec = keep.lift(place);
    let time = rec.time();
    let depth = match rec.kind() {
        Kind::Full => 0,
        Kind::Inc => before + 1,
    };
    keep.lower(place, rec);
    Entry { time, depth }
}
