//! The logs of one object.
ghost use Rattle.std.specs.Prelude.{◌≡◌, ℕ, ◌+◌, ◌-◌, ◌<◌, ◌≤◌, None, [], length, option_map, OnOk, OnErr, IfOk, IfErr};
ghost use Rattle.dym_base.specs.BaseLogs.{dropped_base_logs};
ghost use Rattle.dym_base.specs.Heaps.{HeapState};
ghost use Rattle.dym_base.specs.Objects as Objects;
ghost use Rattle.dym_base.specs.Objects.{LogEntry};
ghost use Rattle.dym_base.specs.declared.command.Version.{Version};
ghost use Rattle.dym_base.specs.declared.reply.Reply.TheVariants as reply;
ghost use Rattle.dym_base.specs.declared.limits.TheConstants.{COUNT_LIMIT};
ghost use Rattle.dym_heap.specs.Meaning.{IsSound};
ghost use Rattle.dym_chain.specs.AdoptedLogs.{AreEntriesOf, AreLawful, BelongsByRecords};
ghost use Rattle.dym_chain.specs.Chains.{ChainMeaning, Belongs, StandsForCopies, object_of, log_at, logged, pruned};
ghost use Rattle.dym_chain.specs.Keeps.{bytes_of};
ghost use Rattle.dym_chain.specs.KeptRecords.{AreKeptRecords};
ghost use Rattle.dym_chain.specs.Lawful.{entry_of};
ghost use Rattle.dym_chain.specs.Answers.{IsLogAnswer, restored_reply};
ghost use Rattle.dym_chain.specs.ChainInvariants.{chain_of};

use crate::differences::keep_difference;
use crate::entry::Entry;
use crate::entry_reader::read_entries;
use crate::ghost_copies::GhostCopies;
use crate::log_error::LogError;
use crate::log_keep::LogKeep;
use crate::positions::{
    depth_of_next, drop_first, dropped_by, kind_at, newest_of, reached, refusal_of,
};
use crate::queue_front::drop_front;
use crate::record_replay::{fetch_down, mark_logs};
use dym_base::limits::MOST_KEPT_LOGS;
use dym_base::{Kind, Refusal};
use dym_heap::Heap;
use dym_pack::{Record, pack};
use dym_quota::Supply;
use std::alloc::{AllocError, Global};
use std::collections::VecDeque;
use std::marker::Model;

/// The logs of one object, over a keep of their records.
///
/// Contracts see the kept logs as whole copies, with those before the oldest that later restores read. A refusal and want of
/// memory change nothing. Only `open`, `adopt` and `log` take memory. While a record is out (`KeptLogs`) only readers may be called.
pub struct Chain<K: LogKeep> {
    entries: Vec<Entry>,
    /// For each log the record that stands beside its own, as far as there are such. A missing one costs time alone.
    differences: VecDeque<Option<Record>>,
    pub(crate) keep: K,
    ghost_copies: GhostCopies,
}

impl<K: LogKeep> Model for Chain<K> {
    ghost use Rattle.std.specs.Prelude.{ℕ, List};
    ghost use Rattle.std.specs.Coded.{codes};
    ghost use Rattle.dym_heap.specs.Meaning.{live_code, touched_code};
    ghost use Rattle.dym_chain.specs.Chains.{ChainMeaning};

    ghost Value = { ChainMeaning };

    ghost coded = { Prim.hlevel (codes, live_code, touched_code) };

    ghost use Rattle.std.specs.Prelude.{vec_capacity};
    ghost use Rattle.dym_chain.specs.ChainInvariants.{chain_of, IsChainWithDifferences};

    ghost view = { λ c. chain_of c.ghost_copies.copies (K.meaning c.keep) };

    ghost invariant = { λ c. IsChainWithDifferences c.entries.items (vec_capacity c.entries)
        c.differences.items (K.meaning c.keep) c.ghost_copies.copies };
}

impl<K: LogKeep> Chain<K> {
    /// A chain with no log over a keep with no record. Room for all entries is taken here.
    pub fn open(alloc: Global, keep: K) -> Result<Chain<K>, (AllocError, K)>
        requires empty { (K.meaning keep).records ≡ [] }
        requires made { (K.meaning keep).made ≡ 0 }
        requires idle { (K.meaning keep).lifted ≡ None }
        ensures opened { IfOk result (λ c. c ≡ record {
          base_logs = [];
          logs = [];
          records = [];
          made = 0;
          lifted = None;
          origin = (K.meaning keep).origin;
        }) }
        ensures belongs { IfOk result (λ c. (v : Version) (quota : ℕ) (s : HeapState)
            → Belongs v quota s c) }
        ensures stands { IfOk result StandsForCopies }
        ensures back { IfErr result (λ e. e.1 ≡ keep) }
    {
        match Vec::with_capacity(alloc, MOST_KEPT_LOGS as usize) {
            Ok(entries) => Ok(Chain {
                entries,
                differences: VecDeque::new(alloc),
                keep,
                ghost_copies: GhostCopies::open(),
            }),
            Err(error) => Err((error, keep)),
        }
    }

    /// A chain of logs that are read from their records: those from place `first` on are kept, and those before it stand below.
    /// Records are such as later ones may stand on, whoever made their bytes. Room for all entries is taken here.
    pub fn adopt(alloc: Global, keep: K, first: u8) -> Result<Chain<K>, (AllocError, K)>
        requires idle { (K.meaning keep).lifted ≡ None }
        requires lawful { AreLawful first (bytes_of (K.meaning keep).records) }
        requires kept { length (K.meaning keep).records ≤ first + MOST_KEPT_LOGS }
        requires none { length (K.meaning keep).records ≡ 0 → first ≡ 0 }
        requires some { 0 < length (K.meaning keep).records
            → first < length (K.meaning keep).records }
        ensures adopted { IfOk result (λ c. c
            ≡ chain_of (record { base_logs = c.base_logs; logs = c.logs }) (K.meaning keep)) }
        ensures entries { IfOk result (λ c. AreEntriesOf first
            (bytes_of (K.meaning keep).records) c.base_logs c.logs) }
        ensures kept { IfOk result AreKeptRecords }
        ensures stands { IfOk result StandsForCopies }
        ensures belongs { IfOk result BelongsByRecords }
        ensures back { IfErr result (λ e. e.1 ≡ keep) }
    {
        match Vec::with_capacity(alloc, MOST_KEPT_LOGS as usize) {
            Ok(room) => {
                let mut keep = keep;
                let entries = read_entries(room, &mut keep, first);
                let ghost_copies = GhostCopies::read(&keep, first);
                Ok(Chain {
                    entries,
                    differences: VecDeque::new(alloc),
                    keep,
                    ghost_copies,
                })
            }
            Err(error) => Err((error, keep)),
        }
    }

    /// Logs the heap at a time, after which nothing of it is touched. The answer is the log's kind and its record's length.
    pub fn log<S: Supply>(
        &mut self,
        alloc: Global,
        heap: &mut Heap<S>,
        time: u64,
        want: Kind,
    ) -> Result<(Kind, u64), LogError>
        requires belongs { Belongs heap.old.version heap.old.quota heap.old.state self.old }
        requires sound { IsSound heap.old }
        requires made { self.old.made < COUNT_LIMIT }
        requires idle { self.old.lifted ≡ None }
        ensures answer { IsLogAnswer result (Objects.log heap.old.version
            (object_of heap.old.state self.old) time want).reply }
        ensures after { OnOk result (object_of heap.new.state self.new
            ≡ (Objects.log heap.old.version (object_of heap.old.state self.old) time want).object) }
        ensures put { OnOk result (self.new
            ≡ logged heap.old.version (Objects.new_entry
            (object_of heap.old.state self.old) time want) self.old) }
        ensures heap { heap.new ≡ record heap.old { state = heap.new.state } }
        ensures unchanged { OnErr result ((self.new ≡ self.old) × (heap.new ≡ heap.old)) }
        ensures belongs { Belongs heap.new.version heap.new.quota heap.new.state self.new }
        ensures stands { StandsForCopies self.new }
        ensures idle { self.new.lifted ≡ None }
        ensures sound { IsSound heap.new }
    {
        let newest = newest_of(&self.entries);
        if let Some(why) = refusal_of(newest, self.entries.len(), time) {
            return Err(LogError::Refused(why));
        }
        let depth = depth_of_next(want, newest);
        let kind = kind_at(depth);
        dym_heap::laws::heaps_are_packable();
        let Ok(rec) = pack(alloc, heap, kind, time) else {
            return Err(LogError::Memory);
        };
        let count = self.entries.len();
        let Ok(()) = keep_difference(&mut self.differences, alloc, heap, time, depth, count) else {
            return Err(LogError::Memory);
        };
        let len = rec.len();
        self.ghost_copies = self.ghost_copies.logged(heap, time, depth);
        self.keep.put(rec);
        self.entries.push_reserved(Entry { time, depth });
        heap.clear_dirty();
        Ok((kind, len))
    }

    /// Restores the last log at or before a time. It becomes the newest, and the answer is its time. Copied back are only the chunks
    /// that may have changed since: those that are touched, and those that a dropped log found touched.
    pub fn restore<S: Supply>(
        &mut self,
        way: &S::Way,
        heap: &mut Heap<S>,
        time: u64,
    ) -> Result<u64, Refusal>
        requires belongs { Belongs heap.old.version heap.old.quota heap.old.state self.old }
        requires sound { IsSound heap.old }
        requires idle { self.old.lifted ≡ None }
        ensures answer { restored_reply result
            ≡ (Objects.restore (object_of heap.old.state self.old) time).reply }
        ensures after { object_of heap.new.state self.new
            ≡ (Objects.restore (object_of heap.old.state self.old) time).object }
        ensures chain { self.new
            ≡ record self.old { logs = self.new.logs; records = self.new.records } }
        ensures heap { heap.new
            ≡ record heap.old { state = heap.new.state; held_ids = heap.new.held_ids } }
        ensures refused { OnErr result ((self.new ≡ self.old) × (heap.new ≡ heap.old)) }
        ensures belongs { Belongs heap.new.version heap.new.quota heap.new.state self.new }
        ensures stands { StandsForCopies self.new }
        ensures idle { self.new.lifted ≡ None }
        ensures sound { IsSound heap.new }
    {
        let kept = reached(&self.entries, time);
        if kept == 0 {
            return Err(Refusal::NoLog);
        }
        let base = u32::from(self.entries[0].depth);
        let target = self.entries[kept - 1];
        let depth = u32::from(target.depth);
        let place = base + (kept - 1) as u32;
        let count = self.entries.len();
        mark_logs(&mut self.keep, &self.differences, heap, base, kept, count);
        self.entries.truncate(kept);
        self.differences.truncate(kept);
        self.keep.drop_after(place);
        self.ghost_copies = self.ghost_copies.cut(0, kept);
        let rec = self.keep.lift(place);
        heap.reshape(way, &rec);
        self.keep.lower(place, rec);
        fetch_down(&mut self.keep, heap, place, depth + 1);
        Ok(target.time)
    }

    /// Drops the logs before the last one at or before a bound, and answers how many. The records that the oldest kept log
    /// needs stay.
    pub fn prune(&mut self, bound: u64) -> u32
        requires idle { self.old.lifted ≡ None }
        ensures answer { (s : HeapState) → reply.Dropped result
            ≡ (Objects.prune (object_of s self.old) bound).reply }
        ensures after { self.new ≡ pruned self.old bound }
        ensures base_logs { self.new.base_logs ≡ dropped_base_logs self.old.base_logs self.old.logs
            (Objects.reached bound self.old.logs - 1) }
        ensures belongs { (v : Version) (quota : ℕ) (s : HeapState) → Belongs v quota s self.old
            → Belongs v quota s self.new }
        ensures stands { StandsForCopies self.new }
        ensures idle { self.new.lifted ≡ None }
    {
        let dropped = dropped_by(&self.entries, bound);
        if dropped == 0 {
            return 0;
        }
        let base = u32::from(self.entries[0].depth);
        let depth = u32::from(self.entries[dropped].depth);
        self.keep.raise(base + dropped as u32 - depth);
        drop_first(&mut self.entries, dropped);
        drop_front(&mut self.differences, dropped);
        self.ghost_copies = self.ghost_copies.cut(dropped, depth as usize);
        dropped as u32
    }

    /// How many logs are kept.
    pub fn kept(&self) -> u32
        ensures { result ≡ length self.now.logs }
    {
        self.entries.len() as u32
    }

    /// How many records they take.
    pub fn slots(&self) -> u32
        ensures slots { result ≡ Objects.slots self.now.logs }
        ensures records { result ≡ length self.now.records }
        ensures kept { AreKeptRecords self.now }
    {
        match self.entries.first() {
            None => 0,
            Some(oldest) => self.kept() + u32::from(oldest.depth),
        }
    }

    /// How many records were made.
    pub fn made(&self) -> u64
        ensures { result ≡ self.now.made }
    {
        self.keep.made()
    }

    /// The time of the newest log.
    pub fn newest(&self) -> Option<u64>
        ensures { result ≡ option_map (λ (e : LogEntry). e.time) (Objects.newest self.now.logs) }
    {
        match newest_of(&self.entries) {
            Some(entry) => Some(entry.time),
            None => None,
        }
    }

    /// Log `k`, the oldest first.
    pub fn entry(&self, k: u32) -> Entry
        requires { k < length self.now.logs }
        ensures { result ≡ entry_of (log_at self.now.logs k) }
    {
        self.entries[k as usize]
    }

    /// Gives up the chain, and answers its keep.
    pub fn into_keep(self) -> K
        requires idle { self.lifted ≡ None }
        ensures keep { K.meaning result ≡ record {
          records = self.records;
          made = self.made;
          lifted = None;
          origin = self.origin;
        } }
        ensures slots { length self.records ≡ Objects.slots self.logs }
    {
        let Chain {
            entries: _,
            differences: _,
            keep,
            ghost_copies: _,
        } = self;
        keep
    }
}
