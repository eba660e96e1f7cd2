//! The undo log.
ghost use Rattle.std.specs.Prelude.{◌≡◌, ℕ, ◌+◌, ◌-◌, ◌*◌, ◌/◌, ◌<◌, ◌≤◌, ◌++◌, true, false, None, Some, [], ◌∷◌, List, length, option_map, OnOk, OnErr, IfOk, take, drop, map, vec_len, vec_capacity};
ghost use Rattle.std.specs.FinMap.{get, contains_key};
ghost use Rattle.dym_base.specs.HeapStep.{key};
ghost use Rattle.dym_base.specs.Heaps.{HeapState};
ghost use Rattle.dym_base.specs.Objects as Objects;
ghost use Rattle.dym_base.specs.Objects.{LogEntry};
ghost use Rattle.dym_base.specs.declared.command.Version.{Version};
ghost use Rattle.dym_base.specs.declared.reply.Reply.TheVariants as reply;
ghost use Rattle.dym_base.specs.declared.limits.TheConstants.{MOST_QUOTA};
ghost use Rattle.dym_undo.specs.Answers.{IsLogAnswer, restored_reply};
ghost use Rattle.dym_undo.specs.Changes.{is_noted};
ghost use Rattle.dym_undo.specs.Passes.{TouchesNoMore};
ghost use Rattle.dym_undo.specs.UndoLogs.{UndoMeaning, Belongs, DiffersAt, IsKept, since, object_of, log_at, entry_of, unfound};

use crate::entry::Entry;
use crate::ghost_logs::GhostLogs;
use crate::head::Head;
use crate::kept_changes::{push_dead, push_live};
use crate::log_error::LogError;
use crate::passes::{begin_interval, count_bytes, take_back, undo_from};
use crate::positions::{
    depth_of_next, dropped_by, kind_at, newest_of, reached, refusal_of, slots_of,
};
use crate::rooms::{MOST_HANDLES, drop_dead, drop_first, live_is_key, make_room};
use crate::stamps::{AREA_WORDS, is_stamped, is_stamped_key, stamp};
use crate::undo_heap::UndoHeap;
use dym_base::limits::SEGMENT_BYTES;
use dym_base::{Handle, Kind, Refusal};
use std::alloc::{AllocError, Global};
use std::marker::Model;

/// The bytes of the head of a change.
const HEAD_BYTES: u64 = 16;

/// The logs of one object: what its chunks were before they were changed, and where each log stands among these changes.
///
/// Contracts see the kept logs as whole copies. Before a chunk is changed `keep` is called, and `keep_fresh` after one was made. A
/// refusal and want of memory change nothing. Only `open` and `log` take memory.
#[derive(Drop)]
pub struct UndoLog {
    quota: u32,
    entries: Vec<Entry>,
    /// For each log how many changes came before it.
    places: Vec<usize>,
    heads: Vec<Head>,
    /// The bytes of each change that has some, one after the other.
    bytes: Vec<u8>,
    /// Which chunks are among the changes since the newest log.
    words: Vec<u64>,
    ghost_logs: GhostLogs,
}

impl Model for UndoLog {
    ghost use Rattle.std.specs.Coded.{codes};
    ghost use Rattle.dym_undo.specs.UndoLogs.{UndoMeaning, live_code, touched_code};

    ghost Value = { UndoMeaning };

    ghost coded = { Prim.hlevel (codes, live_code, touched_code) };

    ghost use Rattle.std.specs.Prelude.{vec_capacity};
    ghost use Rattle.dym_undo.specs.Heads.{changes_of};
    ghost use Rattle.dym_undo.specs.UndoLogs.{IsUndoLog};

    ghost view = { λ u. record {
      logs = u.ghost_logs.logs;
      places = u.places.items;
      changes = changes_of u.heads.items u.bytes.items;
      quota = u.quota;
    } };

    ghost invariant = { λ u. IsUndoLog u.quota u.entries.items u.places.items u.heads.items
        u.bytes.items u.words.items (vec_capacity u.heads) (vec_capacity u.bytes)
        u.ghost_logs.logs };
}

impl UndoLog {
    /// An undo log with no log, for a heap of a quota.
    pub fn open(alloc: Global, quota: u32) -> Result<UndoLog, AllocError>
        requires { quota ≤ MOST_QUOTA }
        ensures opened { IfOk result (λ u. u
            ≡ record { logs = []; places = []; changes = []; quota = quota }) }
        ensures belongs { IfOk result (λ u. (v : Version) (s : HeapState)
            → Belongs v quota s u) }
    {
        let words = vec![in alloc; 0; quota as usize * AREA_WORDS]?;
        Ok(UndoLog {
            quota,
            entries: Vec::new(alloc),
            places: Vec::new(alloc),
            heads: Vec::new(alloc),
            bytes: Vec::new(alloc),
            words,
            ghost_logs: GhostLogs::open(),
        })
    }

    /// Keeps what a live chunk is, before it is changed in any way. A chunk that isn't live is left alone.
    pub fn keep<H: UndoHeap>(&mut self, heap: &H, handle: Handle)
        requires sound { H.is_sound heap.now }
        requires belongs { Belongs (H.version_of heap.now) (H.quota_of heap.now)
            (H.state heap.now) self.old }
        ensures logs { self.new.logs ≡ self.old.logs }
        ensures belongs { Belongs (H.version_of heap.now) (H.quota_of heap.now)
            (H.state heap.now) self.new }
        ensures kept { contains_key (H.state heap.now).live (key handle) ≡ true → (t : HeapState)
            → DiffersAt (key handle) (H.state heap.now) t
            → Belongs (H.version_of heap.now) (H.quota_of heap.now) t self.new }
        ensures noted { contains_key (H.state heap.now).live (key handle) ≡ true
            → IsKept self.new (key handle) }
        ensures before { (k : ℕ) → IsKept self.old k → IsKept self.new k }
    {
        if self.entries.is_empty() {
            return;
        }
        if is_stamped_key(&self.words, self.quota, handle) {
            return;
        }
        let Some(bytes) = heap.chunk(handle) else {
            return;
        };
        self.push(heap, handle, bytes);
    }

    /// `keep` for a caller that has looked the chunk up, whose bytes these are. The heap isn't read.
    pub fn keep_bytes<H: UndoHeap>(&mut self, heap: &H, handle: Handle, bytes: &[u8])
        requires sound { H.is_sound heap.now }
        requires belongs { Belongs (H.version_of heap.now) (H.quota_of heap.now)
            (H.state heap.now) self.old }
        requires live { get (H.state heap.now).live (key handle) ≡ Some bytes.now }
        ensures logs { self.new.logs ≡ self.old.logs }
        ensures belongs { Belongs (H.version_of heap.now) (H.quota_of heap.now)
            (H.state heap.now) self.new }
        ensures kept { (t : HeapState) → DiffersAt (key handle) (H.state heap.now) t
            → Belongs (H.version_of heap.now) (H.quota_of heap.now) t self.new }
        ensures noted { IsKept self.new (key handle) }
        ensures before { (k : ℕ) → IsKept self.old k → IsKept self.new k }
    {
        if self.entries.is_empty() {
            return;
        }
        live_is_key(heap, handle);
        if is_stamped(&self.words, handle) {
            return;
        }
        self.push(heap, handle, bytes);
    }

    /// Keeps what a live chunk is that isn't among the changes since the newest log, and whose bytes these are.
    fn push<H: UndoHeap>(&mut self, heap: &H, handle: Handle, bytes: &[u8])
        requires sound { H.is_sound heap.now }
        requires belongs { Belongs (H.version_of heap.now) (H.quota_of heap.now)
            (H.state heap.now) self.old }
        requires live { get (H.state heap.now).live (key handle) ≡ Some bytes.now }
        requires logged { 0 < length self.old.places }
        requires new { is_noted (key handle) (since self.old.places self.old.changes) ≡ false }
        ensures logs { self.new.logs ≡ self.old.logs }
        ensures belongs { Belongs (H.version_of heap.now) (H.quota_of heap.now)
            (H.state heap.now) self.new }
        ensures kept { (t : HeapState) → DiffersAt (key handle) (H.state heap.now) t
            → Belongs (H.version_of heap.now) (H.quota_of heap.now) t self.new }
        ensures noted { IsKept self.new (key handle) }
        ensures before { (k : ℕ) → IsKept self.old k → IsKept self.new k }
    {
        live_is_key(heap, handle);
        stamp(&mut self.words, handle);
        push_live(&mut self.heads, &mut self.bytes, handle, bytes);
    }

    /// Keeps that a chunk was dead, after it was made.
    pub fn keep_fresh<H: UndoHeap>(&mut self, heap: &H, handle: Handle)
        requires sound { H.is_sound heap.now }
        requires quota { self.old.quota ≡ H.quota_of heap.now }
        requires live { contains_key (H.state heap.now).live (key handle) ≡ true }
        ensures logs { self.new.logs ≡ self.old.logs }
        ensures quota { self.new.quota ≡ self.old.quota }
        ensures kept { (v : Version) (quota : ℕ) (s t : HeapState) → Belongs v quota s self.old
            → get s.live (key handle) ≡ None → DiffersAt (key handle) s t
            → Belongs v quota t self.new }
    {
        if self.entries.is_empty() {
            return;
        }
        live_is_key(heap, handle);
        if is_stamped(&self.words, handle) {
            return;
        }
        push_dead(&mut self.heads, handle);
        stamp(&mut self.words, handle);
    }

    /// Logs the heap at a time, after which nothing of it is touched. The answer is the log's kind.
    #[inline(always)]
    pub fn log<H: UndoHeap>(
        &mut self,
        heap: &mut H,
        time: u64,
        want: Kind,
    ) -> Result<Kind, LogError>
        requires sound { H.is_sound heap.old }
        requires belongs { Belongs (H.version_of heap.old) (H.quota_of heap.old)
            (H.state heap.old) self.old }
        ensures answer { IsLogAnswer result (Objects.log (H.version_of heap.old)
            (object_of (H.state heap.old) self.old) time want).reply }
        ensures after { OnOk result (object_of (H.state heap.new) self.new
            ≡ (Objects.log (H.version_of heap.old)
            (object_of (H.state heap.old) self.old) time want).object) }
        ensures unchanged { OnErr result ((self.new ≡ self.old) × (heap.new ≡ heap.old)) }
        ensures belongs { Belongs (H.version_of heap.new) (H.quota_of heap.new)
            (H.state heap.new) self.new }
        ensures rest { H.keeps_rest heap.old heap.new }
        ensures sound { H.is_sound heap.new }
    {
        let newest = newest_of(&self.entries);
        if let Some(why) = refusal_of(newest, self.entries.len(), time) {
            return Err(LogError::Refused(why));
        }
        let depth = depth_of_next(want, newest);
        let more_bytes = heap.held() as usize * SEGMENT_BYTES as usize;
        let Ok(()) = make_room(
            &mut self.entries,
            &mut self.places,
            &mut self.heads,
            &mut self.bytes,
            self.quota as usize * MOST_HANDLES,
            more_bytes,
        ) else {
            return Err(LogError::Memory);
        };
        self.ghost_logs = self.ghost_logs.logged(heap, time, depth);
        begin_interval(heap, &mut self.words, &self.heads, &self.places);
        self.entries.push_reserved(Entry { time, depth });
        self.places.push_reserved(self.heads.len());
        Ok(kind_at(depth))
    }

    /// Restores the last log at or before a time. It becomes the newest, and the answer is its time. Put back are only the chunks
    /// that were changed since.
    pub fn restore<H: UndoHeap>(
        &mut self,
        way: &H::Way,
        heap: &mut H,
        time: u64,
    ) -> Result<u64, Refusal>
        requires sound { H.is_sound heap.old }
        requires belongs { Belongs (H.version_of heap.old) (H.quota_of heap.old)
            (H.state heap.old) self.old }
        ensures answer { restored_reply result
            ≡ (Objects.restore (object_of (H.state heap.old) self.old) time).reply }
        ensures after { object_of (H.state heap.new) self.new
            ≡ (Objects.restore (object_of (H.state heap.old) self.old) time).object }
        ensures refused { OnErr result ((self.new ≡ self.old) × (heap.new ≡ heap.old)) }
        ensures belongs { Belongs (H.version_of heap.new) (H.quota_of heap.new)
            (H.state heap.new) self.new }
        ensures rest { H.keeps_rest heap.old heap.new }
        ensures sound { H.is_sound heap.new }
    {
        let kept = reached(&self.entries, time);
        if kept == 0 {
            return Err(Refusal::NoLog);
        }
        let target = self.entries[kept - 1];
        let place = self.places[kept - 1];
        begin_interval(heap, &mut self.words, &self.heads, &self.places);
        undo_from(
            heap,
            way,
            &mut self.words,
            &mut self.heads,
            &mut self.bytes,
            place,
        );
        self.entries.truncate(kept);
        self.places.truncate(kept);
        self.ghost_logs = self.ghost_logs.cut(0, kept);
        Ok(target.time)
    }

    /// Drops the logs before the last one at or before a bound, and answers how many. No change from before the oldest log that is
    /// left is held for longer than as many are after it.
    pub fn prune(&mut self, bound: u64) -> u32
        ensures answer { (s : HeapState) → reply.Dropped result
            ≡ (Objects.prune (object_of s self.old) bound).reply }
        ensures after { (s : HeapState) → object_of s self.new
            ≡ (Objects.prune (object_of s self.old) bound).object }
        ensures belongs { (v : Version) (quota : ℕ) (s : HeapState) → Belongs v quota s self.old
            → Belongs v quota s self.new }
    {
        let dropped = dropped_by(&self.entries, bound);
        if dropped == 0 {
            return 0;
        }
        self.ghost_logs = self.ghost_logs.cut(dropped, 0);
        drop_first(&mut self.entries, dropped);
        drop_first(&mut self.places, dropped);
        drop_dead(&mut self.places, &mut self.heads, &mut self.bytes);
        dropped as u32
    }

    /// How many logs are kept.
    pub fn kept(&self) -> u32
        ensures { result ≡ length self.now.logs }
    {
        self.entries.len() as u32
    }

    /// How many records a chain of these logs would have.
    pub fn slots(&self) -> u32
        ensures { result ≡ Objects.slots self.now.logs }
    {
        slots_of(&self.entries)
    }

    /// The time of the newest log.
    pub fn newest(&self) -> Option<u64>
        ensures { result ≡ option_map (λ (e : LogEntry). e.time) (Objects.newest self.now.logs) }
    {
        match newest_of(&self.entries) {
            Some(entry) => Some(entry.time),
            None => None,
        }
    }

    /// Log `k`, the oldest first.
    pub fn entry(&self, k: u32) -> Entry
        requires { k < length self.now.logs }
        ensures { result ≡ entry_of (log_at self.now.logs k) }
    {
        self.entries[k as usize]
    }

    /// The changes since the newest log: their heads, and bytes of which the last ones belong to them, those of one head after the
    /// other. No clause says so: it is for a caller that doubts what was kept.
    pub fn changes(&self) -> (&[Head], &[u8]) {
        let heads = match self.places.last() {
            Some(place) => self.heads.get(*place..).unwrap_or(&[]),
            None => &[],
        };
        (heads, &self.bytes)
    }

    /// How many bytes are kept of all changes. No clause says so.
    pub fn kept_bytes(&self) -> u64 {
        let heads = (self.heads.len() as u64).saturating_mul(HEAD_BYTES);
        heads.saturating_add(self.bytes.len() as u64)
    }

    /// Makes a heap that is as the logs' own heap is now what log `k` copied. The logs stay as they are; memory is taken for a
    /// time.
    pub fn bring_back<H: UndoHeap>(
        &self,
        alloc: Global,
        way: &H::Way,
        heap: &mut H,
        k: u32,
    ) -> Result<(), AllocError>
        requires sound { H.is_sound heap.old }
        requires belongs { Belongs (H.version_of heap.old) (H.quota_of heap.old)
            (H.state heap.old) self.now }
        requires log { k < length self.now.logs }
        ensures live { OnOk result ((H.state heap.new).live ≡ (log_at self.now.logs k).copy) }
        ensures touched { TouchesNoMore (H.state heap.old) (H.state heap.new) }
        ensures unchanged { OnErr result (heap.new ≡ heap.old) }
        ensures rest { H.keeps_rest heap.old heap.new }
        ensures sound { H.is_sound heap.new }
    {
        let mut words = vec![in alloc; 0; self.quota as usize * AREA_WORDS]?;
        let place = self.places[k as usize];
        let undone = self.heads.split_at(place).1;
        let len = self.bytes.len();
        let from = len - count_bytes(undone, len);
        take_back(heap, way, &mut words, undone, self.bytes.split_at(from).1);
        Ok(())
    }

    /// Tells anew what each log found touched, which clauses alone know. All else of the logs stays.
    pub fn tell_found(&mut self)
        ghost told: { List LogEntry }
        requires alike { map unfound told ≡ map unfound self.old.logs }
        ensures { self.new ≡ record self.old { logs = told } }
    {
        self.ghost_logs = self.ghost_logs.cut(0, 0);
    }
}
