//! Records that stand beside those of full logs.
//!
//! A full record doesn't say what its log found touched. So an incremental record of the same moment is kept beside it, which a
//! restore over the full log reads.
ghost use Rattle.std.specs.Prelude.{◌≡◌, ℕ, ◌-◌, ◌≤◌, None, Some, length, IfOk, OnOk, OnErr, MatchOption, ⊤};
ghost use Rattle.dym_base.specs.Packed.{packed};
ghost use Rattle.dym_base.specs.declared.command.Kind.TheVariants.{Inc};
ghost use Rattle.dym_heap.specs.RecordLoads.{areas_of};
ghost use Rattle.dym_heap.specs.Meaning.{IsSound};
ghost use Rattle.dym_pack.specs.Areas.{logged};
ghost use Rattle.dym_chain.specs.Differences.{difference_at, HasOneMore};

use dym_base::Kind;
use dym_heap::Heap;
use dym_pack::{Record, pack};
use dym_quota::Supply;
use std::alloc::{AllocError, Global};
use std::collections::VecDeque;

/// Puts a record beside that of log `count`, which is taken of this heap, where it is full and not the first.
pub(crate) fn keep_difference<S: Supply>(
    differences: &mut VecDeque<Option<Record>>,
    alloc: Global,
    heap: &Heap<S>,
    time: u64,
    depth: u8,
    count: usize,
) -> Result<(), AllocError>
    requires few { length differences.old.items ≤ count }
    requires sound { IsSound heap.now }
    ensures more { OnOk result (HasOneMore differences.old.items differences.new.items count
        (packed (logged (areas_of heap.now) Inc time))) }
    ensures few { OnErr result (length differences.new.items ≤ count) }
    ensures same { OnErr result ((k : ℕ)
        → difference_at differences.new.items k ≡ difference_at differences.old.items k) }
{
    pad(differences, count)?;
    let found = found_by(alloc, heap, time, depth, count)?;
    differences.push_back(found)?;
    Ok(())
}

/// Nothing stands beside logs of which nothing is known, up to log `count`.
fn pad(differences: &mut VecDeque<Option<Record>>, count: usize) -> Result<(), AllocError>
    requires { length differences.old.items ≤ count }
    ensures same { (k : ℕ)
        → difference_at differences.new.items k ≡ difference_at differences.old.items k }
    ensures few { length differences.new.items ≤ count }
    ensures long { OnOk result (length differences.new.items ≡ count) }
{
    while differences.len() < count {
        differences.push_back(None)?;
    }
    Ok(())
}

/// The incremental record of a heap that is logged fully, but for the first time.
fn found_by<S: Supply>(
    alloc: Global,
    heap: &Heap<S>,
    time: u64,
    depth: u8,
    count: usize,
) -> Result<Option<Record>, AllocError>
    requires { IsSound heap.now }
    ensures { IfOk result (λ found.
        MatchOption found ⊤ (λ rec. rec ≡ packed (logged (areas_of heap.now) Inc time))) }
{
    if depth > 0 || count == 0 {
        return Ok(None);
    }
    dym_heap::laws::heaps_are_packable();
    Ok(Some(pack(alloc, heap, Kind::Inc, time)?))
}
