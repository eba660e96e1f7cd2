//! Where a chunk lies among the areas of a shelf.
ghost use Rattle.std.specs.Prelude.{◌≡◌, ℕ, ◌+◌, ◌≤◌, ◌<◌, ◌/◌, ◌%◌, true, length, slice_index, slice_set, MatchOption, IsSome, is_some, vec_len, vec_capacity, if◌then◌else◌};
ghost use Rattle.dym_base.specs.Numbers.{per, rank};
ghost use Rattle.dym_base.specs.declared.limits.TheConstants.{MOST_CHUNKS};
ghost use Rattle.dym_heap.specs.Arrangement.{marks_of_class, Shifts, Unshifts};

use crate::lengths::{Lengths, SpareLengths};
use dym_base::Class;
use dym_base::limits::{CLASSES, MOST_QUOTA};
use dym_bits::Bits;

/// Where the areas of each class begin, and where those of the last one end.
pub(crate) const STARTS: usize = CLASSES + 1;

/// An area, by its place among all areas and by its ordinal in its class, and a chunk of it.
#[derive(Drop)]
pub(crate) struct ChunkLocation {
    pub(crate) sized_area: usize,
    pub(crate) ordinal: u32,
    pub(crate) chunk: u32,
}

/// Where the chunk of an index lies, and None past the areas of its class.
pub(crate) fn find(starts: &[u32; STARTS], class: Class, index: u32) -> Option<ChunkLocation>
    requires { slice_index starts.now (rank class.exp)
        ≤ slice_index starts.now (rank class.exp + 1) }
    ensures { MatchOption result (slice_index starts.now (rank class.exp + 1)
        ≤ slice_index starts.now (rank class.exp) + index / per class.exp)
        (λ location. (location.ordinal ≡ index / per class.exp) × (location.chunk ≡ index % per class.exp)
        × (location.sized_area ≡ slice_index starts.now (rank class.exp) + index / per class.exp)
        × (slice_index starts.now (rank class.exp) + index / per class.exp
        < slice_index starts.now (rank class.exp + 1))) }
{
    let rank = class.rank();
    let per = class.per_area();
    let ordinal = index / per;
    if ordinal >= starts[rank + 1] - starts[rank] {
        return None;
    }
    Some(ChunkLocation {
        sized_area: (starts[rank] + ordinal) as usize,
        ordinal,
        chunk: index % per,
    })
}

/// Marks an area that is full now.
pub(crate) fn mark_full(full: &mut Vec<Bits>, rank: usize, ordinal: u32, is_full: bool)
    requires rank { rank < length full.old.items }
    requires ordinal { ordinal < MOST_CHUNKS }
    ensures { full.new.items ≡ (if is_full then slice_set full.old.items rank
        (slice_set (marks_of_class full.old.items rank) ordinal true) else full.old.items) }
{
    if is_full {
        let marks = &mut full[rank];
        marks.set(ordinal);
    }
}

/// Marks whether an area is full.
pub(crate) fn set_mark(full: &mut Vec<Bits>, rank: usize, ordinal: u32, is_full: bool)
    requires rank { rank < length full.old.items }
    requires ordinal { ordinal < MOST_CHUNKS }
    ensures { full.new.items ≡ slice_set full.old.items rank
        (slice_set (marks_of_class full.old.items rank) ordinal is_full) }
{
    let marks = &mut full[rank];
    if is_full {
        marks.set(ordinal);
    } else {
        marks.clear(ordinal);
    }
}

/// Moves the starts past a class one up.
pub(crate) fn shift_up(starts: &mut [u32; STARTS], rank: usize)
    requires rank { rank < CLASSES }
    requires small { (d : ℕ) → slice_index starts.old d ≤ MOST_QUOTA }
    ensures { Shifts starts.old starts.new rank }
{
    for d in rank + 1..STARTS {
        starts[d] += 1;
    }
}

/// Moves the starts past a class one down.
pub(crate) fn shift_down(starts: &mut [u32; STARTS], rank: usize)
    requires rank { rank < CLASSES }
    requires some { (d : ℕ) → rank < d → d < STARTS → 1 ≤ slice_index starts.old d }
    ensures { Unshifts starts.old starts.new rank }
{
    for d in rank + 1..STARTS {
        starts[d] -= 1;
    }
}

/// A table of lengths in memory that is spare, and None where none is.
pub(crate) fn take_table(spare: &mut Vec<SpareLengths>) -> Option<Lengths>
    ensures len { MatchOption result ((vec_len spare.old ≡ 0) × (vec_len spare.new ≡ 0))
        (λ _. vec_len spare.new + 1 ≡ vec_len spare.old) }
    ensures room { vec_capacity spare.new ≡ vec_capacity spare.old }
{
    let Some(table) = spare.pop() else {
        return None;
    };
    Some(table.into_lengths())
}

/// Keeps the memory of a table of lengths, where there is one, in room that is there.
pub(crate) fn keep_table(spare: &mut Vec<SpareLengths>, lengths: Option<Lengths>)
    requires { IsSome lengths → vec_len spare.old < vec_capacity spare.old }
    ensures len { vec_len spare.new
        ≡ (if is_some lengths then vec_len spare.old + 1 else vec_len spare.old) }
    ensures room { vec_capacity spare.old ≤ vec_capacity spare.new }
{
    if let Some(lengths) = lengths {
        spare.push_reserved(lengths.into_spare());
    }
}
