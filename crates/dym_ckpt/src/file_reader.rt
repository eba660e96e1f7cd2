//! A heap and its logs from the bytes of a file.
ghost use Rattle.std.specs.Prelude.{◌≡◌, ℕ, ◌<◌, ◌≤◌, None, List, [], ◌∷◌, ◌++◌, length, IfOk, OnOk, IfErr};
ghost use Rattle.dym_base.specs.Files.{framed};
ghost use Rattle.dym_base.specs.LawfulLists.{IsRecordOf, IsLawfulList};
ghost use Rattle.dym_base.specs.Objects.{empty_heap, newest};
ghost use Rattle.dym_base.specs.Origins.{own};
ghost use Rattle.dym_base.specs.declared.limits.TheConstants.{MOST_QUOTA, MOST_RECORDS};
ghost use Rattle.dym_pack.specs.declared.record_parser.RecordFail.TheVariants as record_fail;
ghost use Rattle.dym_heap.specs.Meaning.{IsSound};
ghost use Rattle.dym_chain.specs.Chains.{Belongs, StandsForCopies};
ghost use Rattle.dym_chain.specs.KeptRecords.{AreKeptRecords};
ghost use Rattle.dym_chain.specs.Keeps.{bytes_of};
ghost use Rattle.dym_ckpt.specs.Lists.{IsListed};
ghost use Rattle.dym_ckpt.specs.FileReads.{IsContentOf, IsLoaded, heap_at};
ghost use Rattle.dym_ckpt.specs.FileRecords.{BeginsWell, FailsAs, AreRead, RecordIsRead, NoRecordIn, StopsAs};
ghost use Rattle.dym_ckpt.specs.declared.file_reader.FileFail.TheVariants as file_fail;

use crate::header::{Header, header_in};
use crate::records::{RecordLimits, RecordList, framed_in};
use dym_base::Name;
use dym_chain::{Chain, VecKeep};
use dym_heap::Heap;
use dym_pack::RecordFail;
use dym_quota::{OwnSupply, Supply};
use std::alloc::Global;

/// Why bytes gave no heap: they are no file, and this is the first part that fails, or memory is wanting, which is told only of bytes
/// that begin with a good header. Part 0 is the header, parts from 1 on are the records, and the one after the last record is what
/// follows it.
#[derive(Debug, Clone, Copy, PartialEq, Eq)]
pub enum FileFail {
    Bad { part: u32 },
    Memory,
}

/// What was made of a file: the name of its object, the heap as its newest log has it, and the logs.
pub struct Loaded {
    pub name: Name,
    pub heap: Heap<OwnSupply>,
    pub chain: Chain<VecKeep>,
}

/// The header and the records of a file, of which a heap and its logs can be made.
#[derive(Drop)]
pub struct FileContent {
    pub(crate) head: Header,
    pub(crate) record_list: RecordList,
}

/// The heap and the logs of a file. Bad comes exactly where the bytes are none, with the first part that fails.
///
/// The file is read in one pass. Until it is known to be one, what is taken is a small multiple of its bytes and room for a full
/// list of records, whatever numbers stand in it; then the segments of its quota.
pub fn load_file(alloc: Global, bytes: &[u8]) -> Result<Loaded, FileFail>
    ensures loaded { IfOk result (IsLoaded bytes.now) }
    ensures origin { IfOk result (λ loaded. loaded.heap.origin ≡ own) }
    ensures fails { IfErr result (FailsAs bytes.now) }
{
    let content = read_file(alloc, bytes)?;
    let Ok(supply) = OwnSupply::open(alloc, content.quota()) else {
        return Err(FileFail::Memory);
    };
    match content.load(alloc, &(), supply) {
        Ok((name, heap, chain)) => Ok(Loaded { name, heap, chain }),
        Err(_supply) => Err(FileFail::Memory),
    }
}

impl FileContent {
    /// The quota that the file says: the most segments that its heap may hold.
    pub fn quota(&self) -> u32
        ensures { result ≡ self.now.head.quota }
    {
        self.head.quota
    }

    /// The file's name, and its heap and its logs as its newest log has them, over a supply of its quota. Where memory is wanting, the
    /// supply comes back.
    pub fn load<S: Supply>(
        self,
        alloc: Global,
        way: &S::Way,
        supply: S,
    ) -> Result<(Name, Heap<S>, Chain<VecKeep>), S>
        requires content { (bytes : List ℕ) × IsContentOf bytes self }
        requires quota { S.quota_of supply ≡ self.head.quota }
        requires nothing_held { S.held_ids supply ≡ [] }
        ensures loaded { (bytes : List ℕ) → IsContentOf bytes self → IfOk result
            (λ loaded. IsLoaded bytes
            (record { name = loaded.0; heap = loaded.1; chain = loaded.2 })) }
        ensures origin { IfOk result (λ loaded. loaded.1.origin ≡ S.origin supply) }
        ensures back { IfErr result (λ s. S.held_ids s ≡ []) }
    {
        let FileContent { head, record_list } = self;
        let mut heap = match Heap::open_as(alloc, supply, head.version) {
            Ok(heap) => heap,
            Err((_, supply)) => return Err(supply),
        };
        let Ok(mut chain) = Chain::adopt(alloc, record_list.into_keep(), head.depth) else {
            return Err(heap.end(way));
        };
        restore_newest(way, &mut chain, &mut heap);
        Ok((head.name, heap, chain))
    }
}

/// Restores the newest log into an empty heap.
fn restore_newest<S: Supply>(way: &S::Way, chain: &mut Chain<VecKeep>, heap: &mut Heap<S>)
    requires belongs { Belongs heap.old.version heap.old.quota heap.old.state chain.old }
    requires empty { heap.old.state ≡ empty_heap }
    requires kept { AreKeptRecords chain.old }
    requires sound { IsSound heap.old }
    requires idle { chain.old.lifted ≡ None }
    ensures state { heap.new.state ≡ heap_at (newest chain.old.logs) }
    ensures heap { heap.new
        ≡ record heap.old { state = heap.new.state; held_ids = heap.new.held_ids } }
    ensures chain { chain.new ≡ record chain.old { records = chain.new.records } }
    ensures records { bytes_of chain.new.records ≡ bytes_of chain.old.records }
    ensures belongs { Belongs heap.new.version heap.new.quota heap.new.state chain.new }
    ensures stands { StandsForCopies chain.new }
    ensures sound { IsSound heap.new }
{
    if let Some(time) = chain.newest() {
        let _at = chain.restore(way, heap, time);
    }
}

/// The header and the records of a file. Bad comes exactly where the bytes are none, with the first part that fails. What is taken
/// is a small multiple of the bytes, and room for a full list of records.
pub fn read_file(alloc: Global, bytes: &[u8]) -> Result<FileContent, FileFail>
    ensures content { IfOk result (IsContentOf bytes.now) }
    ensures least { IfOk result (λ content. 1 ≤ content.head.quota) }
    ensures most { IfOk result (λ content. content.head.quota ≤ MOST_QUOTA) }
    ensures begins { IfOk result (λ _. BeginsWell bytes.now) }
    ensures fails { IfErr result (FailsAs bytes.now) }
{
    let Some((head, rest)) = header_in(bytes) else {
        return Err(FileFail::Bad { part: 0 });
    };
    let limits = RecordLimits {
        version: head.version,
        quota: head.quota,
        depth: head.depth,
    };
    let (record_list, rest) = read_records(alloc, limits, head.count, rest)?;
    if !rest.is_empty() {
        return Err(FileFail::Bad {
            part: head.count + 1,
        });
    }
    Ok(FileContent { head, record_list })
}

/// The records that stand behind a header, and what is behind them.
fn read_records(
    alloc: Global,
    limits: RecordLimits,
    count: u32,
    bytes: &[u8],
) -> Result<(RecordList, &[u8]), FileFail>
    requires few { count ≤ MOST_RECORDS }
    requires quota { limits.quota ≤ MOST_QUOTA }
    ensures read { IfOk result (λ read.
        AreRead limits.version limits.quota limits.depth bytes.now read.0 count read.1.now) }
    ensures stops { IfErr result (StopsAs limits.version limits.quota limits.depth count bytes.now) }
{
    let Ok(mut record_list) = RecordList::open(alloc) else {
        return Err(FileFail::Memory);
    };
    let mut rest = bytes;
    for place in 0..count {
        rest = match read_record(alloc, limits, &mut record_list, rest) {
            Ok(behind) => behind,
            Err(RecordFail::Bad) => return Err(FileFail::Bad { part: place + 1 }),
            Err(RecordFail::Memory) => return Err(FileFail::Memory),
        };
    }
    Ok((record_list, rest))
}

/// Appends the record that the bytes begin with, and answers what is behind it.
fn read_record<'a>(
    alloc: Global,
    limits: RecordLimits,
    record_list: &mut RecordList,
    bytes: &'a [u8],
) -> Result<&'a [u8], RecordFail>
    requires record_list { IsListed limits.version limits.depth record_list.old }
    requires few { length record_list.old.keep.records < MOST_RECORDS }
    ensures record_list { OnOk result (IsListed limits.version limits.depth record_list.new) }
    ensures read { IfOk result (λ rest.
        RecordIsRead limits.version limits.quota record_list.old record_list.new bytes.now rest.now) }
    ensures bad { IfErr result (λ why.
        why ≡ record_fail.Bad
        → NoRecordIn limits.version limits.quota limits.depth record_list.old bytes.now) }
{
    let Some((record, rest)) = framed_in(bytes) else {
        return Err(RecordFail::Bad);
    };
    match record_list.add(alloc, limits, record) {
        Ok(()) => Ok(rest),
        Err(why) => Err(why),
    }
}
