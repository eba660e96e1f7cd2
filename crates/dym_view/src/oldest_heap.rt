//! The oldest log of kept logs as a heap of its own.
ghost use Rattle.std.specs.Prelude.{◌≡◌, ◌+◌, ◌<◌, ◌≤◌, None, List, length, map, take, IfOk};
ghost use Rattle.std.specs.List.{AllByRecursion};
ghost use Rattle.dym_base.specs.Packed.{Logged, packed};
ghost use Rattle.dym_base.specs.Recorded.{IsRecorded};
ghost use Rattle.dym_chain.specs.Chains.{log_at};
ghost use Rattle.dym_chain.specs.Keeps.{bytes_of};
ghost use Rattle.dym_chain.specs.Loads.{HaveVersion};
ghost use Rattle.dym_heap.specs.RecordLoads.{HaveOneSetOfHandles};
ghost use Rattle.dym_heap.specs.Meaning.{IsSound};
ghost use Rattle.dym_pack.specs.ParsedAreas.{OfLog};
ghost use Rattle.dym_view.specs.LoadedHeaps.{AreLoaded};

use dym_chain::KeptLogs;
use dym_heap::Heap;
use dym_pack::Record;
use dym_quota::OwnSupply;
use std::alloc::{AllocError, Global};

/// A heap that is no object's.
pub(crate) type Scratch = Heap<OwnSupply>;

/// A heap with the copy of the oldest log, whose depth is this.
pub(crate) fn rebuild_oldest<L: KeptLogs>(
    alloc: Global,
    logs: &mut L,
    depth: u32,
) -> Result<Scratch, AllocError>
    requires idle { (L.meaning logs.old).lifted ≡ None }
    requires some { 0 < length (L.meaning logs.old).logs }
    requires depth { depth ≡ (log_at (L.meaning logs.old).logs 0).depth }
    ensures copy { IfOk result (λ heap. heap.state.live
        ≡ (log_at (L.meaning logs.old).logs 0).copy) }
    ensures sound { IfOk result IsSound }
    ensures logs { L.meaning logs.new ≡ L.meaning logs.old }
{
    let _slots = logs.slots();
    let rec = logs.lift(depth);
    let shaped = shape_like(alloc, &rec);
    logs.lower(depth, rec);
    let mut heap = shaped?;
    load_first(logs, &mut heap, depth + 1);
    Ok(heap)
}

/// A heap with the handles of a record.
fn shape_like(alloc: Global, rec: &Record) -> Result<Scratch, AllocError>
    ensures version { IfOk result (λ heap. OfLog rec.now (λ log. log.version ≡ heap.version)) }
    ensures handles { IfOk result (λ heap.
        OfLog rec.now (λ log. HaveOneSetOfHandles heap.state.live log.copy)) }
    ensures sound { IfOk result IsSound }
{
    let quota = rec.area_count().max(1);
    let supply = OwnSupply::open(alloc, quota)?;
    match Heap::open_as(alloc, supply, rec.version()) {
        Ok(mut heap) => {
            heap.shape_to(&(), rec);
            Ok(heap)
        }
        Err((error, _)) => Err(error),
    }
}

/// Loads the first `count` records in their order.
fn load_first<L: KeptLogs>(logs: &mut L, heap: &mut Scratch, count: u32)
    requires idle { (L.meaning logs.old).lifted ≡ None }
    requires within { count ≤ length (L.meaning logs.old).records }
    requires version { HaveVersion heap.old.version
        (take count (bytes_of (L.meaning logs.old).records)) }
    requires sound { IsSound heap.old }
    ensures loaded { (all : List Logged) → AllByRecursion IsRecorded all
        → map packed all ≡ take count (bytes_of (L.meaning logs.old).records)
        → AreLoaded all heap.old.state.live heap.new.state.live }
    ensures logs { L.meaning logs.new ≡ L.meaning logs.old }
    ensures sound { IsSound heap.new }
{
    for place in 0..count {
        let rec = logs.lift(place);
        heap.load(&rec);
        logs.lower(place, rec);
    }
}
