//! An undo log of the records of a file.
ghost use Rattle.std.specs.Prelude.{◌≡◌, ℕ, ◌+◌, ◌-◌, ◌<◌, ◌≤◌, List, [], ◌∷◌, ◌++◌, length, map, take, drop, Option, Some, IfOk, OnOk, IfErr};
ghost use Rattle.std.specs.List.{AllByRecursion};
ghost use Rattle.dym_base.specs.Heaps.{HeapState, held};
ghost use Rattle.dym_base.specs.LawfulLists.{IsRecordOf};
ghost use Rattle.dym_base.specs.Laws.{IsWellSized};
ghost use Rattle.dym_base.specs.Objects.{LogEntry, newest, record_of};
ghost use Rattle.dym_base.specs.Recorded.{IsRecorded};
ghost use Rattle.dym_base.specs.RunLaws.{EachFollows, IsLogList, FoundLive};
ghost use Rattle.dym_base.specs.declared.command.Version.{Version};
ghost use Rattle.dym_base.specs.declared.limits.TheConstants.{MOST_QUOTA};
ghost use Rattle.dym_heap.specs.Meaning.{IsSound};
ghost use Rattle.dym_chain.specs.Chains.{all_logs};
ghost use Rattle.dym_chain.specs.KeptRecords.{AreKeptRecords};
ghost use Rattle.dym_chain.specs.Lawful.{logged_of};
ghost use Rattle.dym_ckpt.specs.FileReads.{IsContentOf, heap_at};
ghost use Rattle.dym_undo.specs.HeapUndo.{KeepsRest};
ghost use Rattle.dym_undo.specs.UndoLogs.{Belongs, log_at, unfound};
ghost use Rattle.dym_undo_files.specs.LoadedLogs.{IsLoadedUndo};
ghost use Rattle.dym_undo_files.specs.RecordedLogs.{IsReadable, AreBrought, StandsOn};
ghost use Rattle.dym_undo_files.specs.TakenChains.{IsHeapOf};

use crate::brought_heap::bring_to;
use crate::scratch_heap::ScratchHeap;
use dym_base::{Name, Version};
use dym_chain::{Chain, KeptLogs, VecKeep};
use dym_ckpt::FileContent;
use dym_heap::Heap;
use dym_pack::Record;
use dym_quota::{OwnSupply, Supply};
use dym_undo::UndoLog;
use std::alloc::{AllocError, Global};

/// The file's name, its heap as the newest log has it, over a supply of its quota, and the undo log of its kept logs. Where memory
/// is wanting, the supply comes back.
pub fn undo_of_file<S: Supply>(
    alloc: Global,
    content: FileContent,
    way: &S::Way,
    supply: S,
) -> Result<(Name, Heap<S>, UndoLog), S>
    requires content { (bytes : List ℕ) × IsContentOf bytes content }
    requires quota { S.quota_of supply ≡ content.head.quota }
    requires nothing_held { S.held_ids supply ≡ [] }
    ensures loaded { (bytes : List ℕ) → IsContentOf bytes content
        → IfOk result (λ r. IsLoadedUndo bytes r.0 r.1 r.2.logs) }
    ensures origin { IfOk result (λ r. r.1.origin ≡ S.origin supply) }
    ensures back { IfErr result (λ s. S.held_ids s ≡ []) }
    ensures sound { IfOk result (λ r. IsSound r.1) }
    ensures belongs { IfOk result (λ r. Belongs r.1.version r.1.quota r.1.state r.2) }
    ensures list { IfOk result (λ r. IsLogList r.2.logs) }
    ensures within { IfOk result (λ r. AllByRecursion
        (λ (e : LogEntry). held e.copy ≤ r.1.quota) r.2.logs) }
    ensures sized { IfOk result (λ r. AllByRecursion
        (λ (e : LogEntry). IsWellSized r.1.version e.copy) r.2.logs) }
    ensures found { IfOk result (λ r. AllByRecursion FoundLive r.2.logs) }
{
    let (name, loaded, mut chain) = content.load(alloc, way, supply)?;
    records_are_kept(&chain);
    dym_ckpt::laws::what_objects_keep_may_be_saved();
    let version = loaded.version();
    let supply = loaded.end(way);
    let read = undo_of_chain(alloc, way, &mut chain, version, supply);
    let _keep = chain.into_keep();
    match read {
        Ok((heap, undo)) => Ok((name, heap, undo)),
        Err(supply) => Err(supply),
    }
}

/// A law: the records of a chain can be read.
fn records_are_kept(chain: &Chain<VecKeep>)
    ensures { AreKeptRecords chain.now }
{
    chain.slots();
}

/// A heap as the newest kept log of a chain has it, and an undo log with these logs.
fn undo_of_chain<S: Supply>(
    alloc: Global,
    way: &S::Way,
    chain: &mut Chain<VecKeep>,
    version: Version,
    supply: S,
) -> Result<(Heap<S>, UndoLog), S>
    requires readable { IsReadable version (S.quota_of supply) chain.old }
    requires least { 1 ≤ S.quota_of supply }
    requires most { S.quota_of supply ≤ MOST_QUOTA }
    requires nothing_held { S.held_ids supply ≡ [] }
    ensures heap { IfOk result (λ r. r.0 ≡ record {
      version = version;
      quota = S.quota_of supply;
      state = heap_at (newest chain.old.logs);
      held_ids = r.0.held_ids;
      origin = S.origin supply;
      applied = 0;
    }) }
    ensures logs { IfOk result (λ r. r.1.logs ≡ chain.old.logs) }
    ensures belongs { IfOk result (λ r. Belongs r.0.version r.0.quota r.0.state r.1) }
    ensures sound { IfOk result (λ r. IsSound r.0) }
    ensures back { IfErr result (λ s. S.held_ids s ≡ []) }
    ensures chain { chain.new ≡ chain.old }
{
    let Ok(mut undo) = UndoLog::open(alloc, supply.quota()) else {
        return Err(supply);
    };
    let Ok(mut scratch) = ScratchHeap::open(alloc, version, supply.quota()) else {
        return Err(supply);
    };
    let mut heap = match Heap::open_as(alloc, supply, version) {
        Ok(heap) => heap,
        Err((_, supply)) => return Err(supply),
    };
    match read_logs(alloc, way, chain, &mut heap, &mut scratch.heap, &mut undo) {
        Ok(()) => Ok((heap, undo)),
        Err(_) => Err(heap.end(way)),
    }
}

/// Takes the kept logs of a chain into an undo log that has none.
fn read_logs<S: Supply>(
    alloc: Global,
    way: &S::Way,
    chain: &mut Chain<VecKeep>,
    heap: &mut Heap<S>,
    scratch: &mut Heap<OwnSupply>,
    undo: &mut UndoLog,
) -> Result<(), AllocError>
    ghost told: { List LogEntry }
    requires told { told ≡ chain.old.logs }
    requires readable { IsReadable heap.old.version heap.old.quota chain.old }
    requires brought { AreBrought heap.old.version heap.old.quota (all_logs chain.old) 0
        heap.old scratch.old undo.old }
    requires none { undo.old.logs ≡ [] }
    ensures state { OnOk result (heap.new.state ≡ heap_at (newest chain.old.logs)) }
    ensures logs { OnOk result (undo.new.logs ≡ chain.old.logs) }
    ensures belongs { OnOk result (Belongs heap.new.version heap.new.quota heap.new.state
        undo.new) }
    ensures chain { chain.new ≡ chain.old }
    ensures rest { KeepsRest heap.old heap.new }
    ensures sound { IsSound heap.new }
{
    let count = chain.slots();
    if count == 0 {
        return Ok(());
    }
    let kept = count - chain.kept() + 1;
    read_some(alloc, way, chain, 0, kept, heap, scratch, undo)?;
    keep_newest(undo);
    read_some(alloc, way, chain, kept, count, heap, scratch, undo)?;
    undo.tell_found();
    Ok(())
}

/// Drops all logs but the newest.
fn keep_newest(undo: &mut UndoLog)
    requires { EachFollows undo.old.logs }
    ensures logs { (e : LogEntry) → newest undo.old.logs ≡ Some e → undo.new.logs ≡ e ∷ [] }
    ensures belongs { (v : Version) (quota : ℕ) (s : HeapState) → Belongs v quota s undo.old
        → Belongs v quota s undo.new }
{
    let Some(time) = undo.newest() else {
        return;
    };
    undo.prune(time);
}

/// Takes the logs of the records from one place up to another into the undo log.
fn read_some<S: Supply>(
    alloc: Global,
    way: &S::Way,
    chain: &mut Chain<VecKeep>,
    from: u32,
    to: u32,
    heap: &mut Heap<S>,
    scratch: &mut Heap<OwnSupply>,
    undo: &mut UndoLog,
) -> Result<(), AllocError>
    requires readable { IsReadable heap.old.version heap.old.quota chain.old }
    requires brought { AreBrought heap.old.version heap.old.quota (all_logs chain.old) from
        heap.old scratch.old undo.old }
    requires order { from ≤ to }
    requires within { to ≤ length (all_logs chain.old) }
    ensures brought { OnOk result (AreBrought heap.old.version heap.old.quota
        (all_logs chain.old) to heap.new scratch.new undo.new) }
    ensures logs { OnOk result (undo.new.logs ≡ undo.old.logs
        ++ map unfound (take (to - from) (drop from (all_logs chain.old)))) }
    ensures chain { chain.new ≡ chain.old }
    ensures rest { KeepsRest heap.old heap.new }
    ensures sound { IsSound heap.new }
{
    for place in from..to {
        read_log(alloc, way, chain, place, heap, scratch, undo)?;
    }
    Ok(())
}

/// Takes the log of the record at a place into the undo log.
fn read_log<S: Supply>(
    alloc: Global,
    way: &S::Way,
    chain: &mut Chain<VecKeep>,
    place: u32,
    heap: &mut Heap<S>,
    scratch: &mut Heap<OwnSupply>,
    undo: &mut UndoLog,
) -> Result<(), AllocError>
    requires readable { IsReadable heap.old.version heap.old.quota chain.old }
    requires brought { AreBrought heap.old.version heap.old.quota (all_logs chain.old) place
        heap.old scratch.old undo.old }
    requires place { place < length (all_logs chain.old) }
    ensures brought { OnOk result (AreBrought heap.old.version heap.old.quota
        (all_logs chain.old) (place + 1) heap.new scratch.new undo.new) }
    ensures logs { OnOk result (undo.new.logs
        ≡ undo.old.logs ++ unfound (log_at (all_logs chain.old) place) ∷ []) }
    ensures chain { chain.new ≡ chain.old }
    ensures rest { KeepsRest heap.old heap.new }
    ensures sound { IsSound heap.new }
{
    let rec = chain.lift(place);
    let time = rec.time();
    let kind = rec.kind();
    bring_record(scratch, &rec);
    chain.lower(place, rec);
    bring_to(way, heap, undo, scratch);
    match undo.log(heap, time, kind) {
        Ok(_kind) => Ok(()),
        Err(_) => Err(AllocError),
    }
}

/// A heap that is as the log before a record becomes as the record's log, with nothing touched.
fn bring_record(heap: &mut Heap<OwnSupply>, rec: &Record)
    requires heap { IsHeapOf heap.old.version heap.old.quota heap.old }
    requires rec { IsRecordOf heap.old.version heap.old.quota rec.now }
    ensures after { (v : Version) (before : Option LogEntry) (log : LogEntry)
        → IsRecorded (logged_of v log) → rec.now ≡ record_of v log
        → heap.old.state ≡ heap_at before → StandsOn before log
        → heap.new.state ≡ heap_at (Some log) }
    ensures heap { IsHeapOf heap.old.version heap.old.quota heap.new }
{
    heap.reshape(&(), rec);
    heap.load(rec);
    heap.clear_dirty();
}
