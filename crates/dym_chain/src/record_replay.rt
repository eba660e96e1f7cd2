//! Records that are read back into a heap.
ghost use Rattle.std.specs.Prelude.{◌≡◌, ℕ, ◌+◌, ◌-◌, ◌<◌, ◌≤◌, None, Some, List, MatchOption, length, map, take, drop, unwrap_or};
ghost use Rattle.std.specs.List.{AllByRecursion};
ghost use Rattle.dym_base.specs.Packed.{Logged, packed};
ghost use Rattle.dym_base.specs.Recorded.{IsRecorded};
ghost use Rattle.dym_heap.specs.Meaning.{IsSound};
ghost use Rattle.dym_chain.specs.Keeps.{bytes_of};
ghost use Rattle.dym_chain.specs.Differences.{difference_at};
ghost use Rattle.dym_chain.specs.Loads.{AreFetched, HaveVersion, KeepsUnmodified, PacksTouched};
ghost use Rattle.dym_pack.specs.ParsedAreas.{IsRecord, OfLog};
ghost use Rattle.dym_slots.specs.Meanings.{record_at};

use crate::log_keep::LogKeep;
use dym_heap::Heap;
use dym_pack::Record;
use dym_quota::Supply;
use std::collections::VecDeque;

/// Each chunk is touched, or has in the heap the bytes that it has in the logs from `kept` up to `count`: what one of their records
/// packs is touched, or what the record beside it packs.
pub(crate) fn mark_logs<S: Supply, K: LogKeep>(
    keep: &mut K,
    differences: &VecDeque<Option<Record>>,
    heap: &mut Heap<S>,
    base: u32,
    kept: usize,
    count: usize,
)
    requires idle { (K.meaning keep.old).lifted ≡ None }
    requires within { base + count ≤ length (K.meaning keep.old).records }
    requires few { base + count < 65536 }
    requires recorded { (i : ℕ) → kept ≤ i → i < count
        → IsRecord (unwrap_or (difference_at differences.now.items i)
        (record_at (K.meaning keep.old).records (base + i)).bytes) }
    requires sound { IsSound heap.old }
    ensures marked { (i : ℕ) → kept ≤ i → i < count
        → OfLog (unwrap_or (difference_at differences.now.items i)
        (record_at (K.meaning keep.old).records (base + i)).bytes) (PacksTouched heap.new.state) }
    ensures unmodified { KeepsUnmodified heap.old.state heap.new.state }
    ensures keep { K.meaning keep.new ≡ K.meaning keep.old }
    ensures same { heap.new ≡ record heap.old { state = heap.new.state } }
    ensures sound { IsSound heap.new }
{
    for i in kept..count {
        mark_log(keep, differences, heap, base, i);
    }
}

/// Each live chunk that the record of log `i` packs, or the one beside it, is touched.
fn mark_log<S: Supply, K: LogKeep>(
    keep: &mut K,
    differences: &VecDeque<Option<Record>>,
    heap: &mut Heap<S>,
    base: u32,
    i: usize,
)
    requires idle { (K.meaning keep.old).lifted ≡ None }
    requires within { base + i < length (K.meaning keep.old).records }
    requires few { base + i < 65536 }
    requires recorded { IsRecord (unwrap_or (difference_at differences.now.items i)
        (record_at (K.meaning keep.old).records (base + i)).bytes) }
    ensures marked { OfLog (unwrap_or (difference_at differences.now.items i)
        (record_at (K.meaning keep.old).records (base + i)).bytes) (PacksTouched heap.new.state) }
    ensures unmodified { KeepsUnmodified heap.old.state heap.new.state }
    ensures keep { K.meaning keep.new ≡ K.meaning keep.old }
    ensures same { heap.new ≡ record heap.old { state = heap.new.state } }
    ensures sound { IsSound heap.new }
{
    let place = base + i as u32;
    match difference_of(differences, i) {
        Some(rec) => heap.mark(rec),
        None => {
            let rec = keep.lift(place);
            heap.mark(&rec);
            keep.lower(place, rec);
        }
    }
}

/// The record that stands beside that of log `i`.
fn difference_of(differences: &VecDeque<Option<Record>>, i: usize) -> Option<&Record>
    ensures { MatchOption result (difference_at differences.now.items i ≡ None)
        (λ rec. difference_at differences.now.items i ≡ Some rec.now) }
{
    match differences.get(i) {
        Some(Some(rec)) => Some(rec),
        Some(None) => None,
        None => None,
    }
}

/// Fetches the touched chunks from `count` records, beginning with that at place `last` and going down, so that each comes from
/// the newest record that packs it. Whether nothing is touched any more is looked at before the first few of them and then ever more
/// seldom, since a look may go over all areas.
pub(crate) fn fetch_down<S: Supply, K: LogKeep>(
    keep: &mut K,
    heap: &mut Heap<S>,
    last: u32,
    count: u32,
)
    requires idle { (K.meaning keep.old).lifted ≡ None }
    requires within { last < length (K.meaning keep.old).records }
    requires there { count ≤ last + 1 }
    requires version { HaveVersion heap.old.version
        (take count (drop (last + 1 - count) (bytes_of (K.meaning keep.old).records))) }
    requires sound { IsSound heap.old }
    ensures fetched { (logs : List Logged) → AllByRecursion IsRecorded logs
        → map packed logs
        ≡ take count (drop (last + 1 - count) (bytes_of (K.meaning keep.old).records))
        → AreFetched logs heap.old.state heap.new.state }
    ensures keep { K.meaning keep.new ≡ K.meaning keep.old }
    ensures same { heap.new ≡ record heap.old { state = heap.new.state } }
    ensures sound { IsSound heap.new }
{
    for back in 0..count {
        if (back == 0 || back.is_power_of_two()) && heap.is_unmodified() {
            return;
        }
        let place = last - back;
        let rec = keep.lift(place);
        heap.fetch(&rec);
        keep.lower(place, rec);
    }
}
