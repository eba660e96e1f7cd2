//! The file of an undo log.
ghost use Rattle.std.specs.Prelude.{◌≡◌, ◌<◌, List, [], ◌∷◌, ◌++◌, length, None, Some, IsTrue, IfOk, OnOk};
ghost use Rattle.dym_base.specs.Names.{is_name};
ghost use Rattle.dym_base.specs.Objects.{LogEntry};
ghost use Rattle.dym_base.specs.Origins.{own};
ghost use Rattle.dym_base.specs.Packed.{packed};
ghost use Rattle.dym_base.specs.declared.command.Kind.TheVariants.{Full};
ghost use Rattle.dym_base.specs.declared.limits.TheConstants.{COUNT_LIMIT};
ghost use Rattle.dym_heap.specs.Meaning.{HeapMeaning, IsSound};
ghost use Rattle.dym_heap.specs.RecordLoads.{areas_of};
ghost use Rattle.dym_pack.specs.Areas.{logged};
ghost use Rattle.dym_ckpt.specs.FileReads.{heap_at};
ghost use Rattle.dym_undo.specs.UndoLogs.{Belongs, log_at};
ghost use Rattle.dym_undo_files.specs.TakenAgain.{file_taken_again};
ghost use Rattle.dym_undo_files.specs.TakenChains.{AreTaken, IsHeapOf};

use crate::chunk_bytes::touch_differing;
use crate::scratch_heap::ScratchHeap;
use core::mem::swap;
use dym_base::{Kind, Name};
use dym_chain::{Chain, VecKeep};
use dym_ckpt::file_bytes;
use dym_heap::Heap;
use dym_pack::{Record, pack};
use dym_quota::{OwnSupply, Supply};
use dym_undo::UndoLog;
use std::alloc::{AllocError, Global};

/// The bytes of the file of a heap's undo log, whose logs are taken again for it: the oldest is full, and each later one
/// incremental. Heap and undo log are as they were. Beside the file, memory is taken for two heaps, a record of the heap as it is,
/// and the chain.
pub fn file_of_undo<S: Supply>(
    alloc: Global,
    heap: &Heap<S>,
    undo: &UndoLog,
    name: &Name,
) -> Result<Vec<u8>, AllocError>
    requires sound { IsSound heap.now }
    requires belongs { Belongs heap.now.version heap.now.quota heap.now.state undo.now }
    requires named { IsTrue (is_name name.now) }
    ensures file { IfOk result (λ file. file.items ≡ file_taken_again name.now heap.now.quota
        heap.now.version undo.now.logs) }
{
    let mut chain = match Chain::open(alloc, VecKeep::open(alloc)?) {
        Ok(chain) => chain,
        Err((error, _keep)) => return Err(error),
    };
    let taken = take_again(alloc, heap, undo, &mut chain);
    let file = match taken {
        Ok(()) => file_bytes(alloc, &mut chain, name, heap.quota(), heap.version()),
        Err(error) => Err(error),
    };
    let _keep = chain.into_keep();
    file
}

/// Takes all logs of an undo log again into a chain that has none.
fn take_again<S: Supply>(
    alloc: Global,
    heap: &Heap<S>,
    undo: &UndoLog,
    chain: &mut Chain<VecKeep>,
) -> Result<(), AllocError>
    requires sound { IsSound heap.now }
    requires belongs { Belongs heap.now.version heap.now.quota heap.now.state undo.now }
    requires empty { chain.old ≡ record {
      base_logs = [];
      logs = [];
      records = [];
      made = 0;
      lifted = None;
      origin = own;
    } }
    ensures taken { OnOk result ((scratch : HeapMeaning) × AreTaken heap.now.version
        heap.now.quota undo.now.logs scratch chain.new) }
    ensures idle { chain.new.lifted ≡ None }
{
    dym_heap::laws::heaps_are_packable();
    let whole = pack(alloc, heap, Kind::Full, 0)?;
    let version = heap.version();
    let quota = heap.quota();
    let mut before = ScratchHeap::open(alloc, version, quota)?;
    let mut now = ScratchHeap::open(alloc, version, quota)?;
    for k in 0..undo.kept() {
        bring_log(alloc, heap, &whole, undo, k, &mut now.heap)?;
        log_differing(
            alloc,
            &before.heap,
            &mut now.heap,
            undo.entry(k).time,
            chain,
        )?;
        swap(&mut before, &mut now);
    }
    Ok(())
}

/// Brings another heap to what log `k` copied, with nothing touched. The whole heap, as it is now, is in a record.
fn bring_log<S: Supply>(
    alloc: Global,
    heap: &Heap<S>,
    whole: &Record,
    undo: &UndoLog,
    k: u32,
    other: &mut Heap<OwnSupply>,
) -> Result<(), AllocError>
    requires sound { IsSound heap.now }
    requires belongs { Belongs heap.now.version heap.now.quota heap.now.state undo.now }
    requires whole { whole.now ≡ packed (logged (areas_of heap.now) Full 0) }
    requires log { k < length undo.now.logs }
    requires other { IsHeapOf heap.now.version heap.now.quota other.old }
    ensures state { OnOk result (other.new.state ≡ heap_at (Some (log_at undo.now.logs k))) }
    ensures other { IsHeapOf heap.now.version heap.now.quota other.new }
{
    dym_heap::laws::heaps_are_packable();
    other.shape_to(&(), whole);
    other.load(whole);
    undo.bring_back(alloc, &(), other, k)?;
    Ok(())
}

/// Logs a heap at a time, after what differs from the heap as it was at the newest log is touched.
fn log_differing(
    alloc: Global,
    before: &Heap<OwnSupply>,
    now: &mut Heap<OwnSupply>,
    time: u64,
    chain: &mut Chain<VecKeep>,
) -> Result<(), AllocError>
    requires now { IsHeapOf before.now.version before.now.quota now.old }
    requires taken { (logs : List LogEntry) × (length logs < COUNT_LIMIT)
        × AreTaken before.now.version before.now.quota logs before.now chain.old }
    ensures taken { (logs : List LogEntry) (e : LogEntry) → e.time ≡ time
        → now.old.state ≡ heap_at (Some e)
        → AreTaken before.now.version before.now.quota logs before.now chain.old
        → OnOk result (AreTaken before.now.version before.now.quota (logs ++ e ∷ [])
        now.new chain.new) }
    ensures now { IsHeapOf before.now.version before.now.quota now.new }
    ensures idle { chain.new.lifted ≡ None }
{
    touch_differing(now, before);
    match chain.log(alloc, now, time, Kind::Inc) {
        Ok(_logged) => Ok(()),
        Err(_) => Err(AllocError),
    }
}
