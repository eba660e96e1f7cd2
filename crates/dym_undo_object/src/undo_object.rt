//! A simulation object.
ghost use Rattle.std.specs.Prelude.{◌≡◌, ◌<◌, ◌≤◌, [], length, option_map, IfOk, IfErr};
ghost use Rattle.dym_base.specs.Objects as Objects;
ghost use Rattle.dym_base.specs.Objects.{LogEntry};
ghost use Rattle.dym_base.specs.declared.limits.TheConstants.{MOST_QUOTA};
ghost use Rattle.dym_heap.specs.Meaning.{IsSound};
ghost use Rattle.dym_undo.specs.UndoLogs.{Belongs, entry_of, log_at};
ghost use Rattle.dym_undo_object.specs.Meaning.{UndoObjectMeaning, IsWhole, IsUndoObject, opened_object};

use dym_base::Version;
use dym_base::limits::MOST_QUOTA;
use dym_heap::Heap;
use dym_quota::Supply;
use dym_undo::{Entry, Head, UndoLog};
use std::alloc::{AllocError, Global};
use std::marker::Model;

/// A simulation object: a heap, its undo log, and how many commands it ran.
///
/// Only opening, and a log that isn't refused, take memory. A refusal changes nothing of the heap and its logs.
pub struct UndoObject<S: Supply> {
    pub(crate) heap: Heap<S>,
    pub(crate) undo: UndoLog,
    pub(crate) ran: u64,
}

impl<S: Supply> Model for UndoObject<S> {
    ghost use Rattle.std.specs.Coded.{codes};
    ghost use Rattle.dym_heap.specs.Meaning.{live_code, touched_code};
    ghost use Rattle.dym_undo_object.specs.Meaning.{UndoObjectMeaning, IsUndoObject};

    ghost Value = { UndoObjectMeaning };

    ghost coded = { Prim.hlevel (codes, live_code, touched_code) };

    ghost view = { λ o. record { heap = o.heap; logs = o.undo.logs; ran = o.ran } };

    ghost invariant = { λ o. IsUndoObject o.heap o.undo o.ran };
}

impl<S: Supply> UndoObject<S> {
    /// An object of a version with an empty heap and no log. All memory of the heap is taken here; a log takes room for whatever
    /// can change until the next one.
    pub fn open(
        alloc: Global,
        supply: S,
        version: Version,
    ) -> Result<UndoObject<S>, (AllocError, S)>
        requires nothing_held { S.held_ids supply ≡ [] }
        requires least { 1 ≤ S.quota_of supply }
        requires most { S.quota_of supply ≤ MOST_QUOTA }
        ensures opened { IfOk result (λ o. o ≡ opened_object version (S.quota_of supply)
            (S.origin supply)) }
        ensures whole { IfOk result IsWhole }
        ensures supply { IfErr result (λ e. e.1 ≡ supply) }
    {
        let undo = match UndoLog::open(alloc, supply.quota()) {
            Ok(undo) => undo,
            Err(error) => return Err((error, supply)),
        };
        match Heap::open_as(alloc, supply, version) {
            Ok(heap) => Ok(UndoObject { heap, undo, ran: 0 }),
            Err(refused) => Err(refused),
        }
    }

    /// The object of a heap and of its undo log, after so many commands.
    pub fn of_parts(heap: Heap<S>, undo: UndoLog, ran: u64) -> UndoObject<S>
        requires whole { IsWhole (record { heap = heap; logs = undo.logs; ran = ran }) }
        requires belongs { Belongs heap.version heap.quota heap.state undo }
        ensures { result ≡ record { heap = heap; logs = undo.logs; ran = ran } }
    {
        UndoObject { heap, undo, ran }
    }

    /// How many commands were run.
    #[inline(always)]
    pub fn ran(&self) -> u64
        ensures { result ≡ self.now.ran }
    {
        self.ran
    }

    /// The heap.
    #[inline(always)]
    pub fn heap(&self) -> &Heap<S>
        ensures heap { result.now ≡ self.now.heap }
        ensures sound { IsSound self.now.heap }
    {
        &self.heap
    }

    /// The undo log of the heap.
    pub fn undo(&self) -> &UndoLog
        ensures logs { result.now.logs ≡ self.now.logs }
        ensures belongs { Belongs self.now.heap.version self.now.heap.quota self.now.heap.state
            result.now }
        ensures whole { IsWhole self.now }
    {
        &self.undo
    }

    /// How many logs are kept.
    #[inline(always)]
    pub fn kept(&self) -> u32
        ensures { result ≡ length self.now.logs }
    {
        self.undo.kept()
    }

    /// How many records a chain of these logs would have.
    pub fn slots(&self) -> u32
        ensures { result ≡ Objects.slots self.now.logs }
    {
        self.undo.slots()
    }

    /// The time of the newest log.
    #[inline(always)]
    pub fn newest(&self) -> Option<u64>
        ensures { result ≡ option_map (λ (e : LogEntry). e.time) (Objects.newest self.now.logs) }
    {
        self.undo.newest()
    }

    /// Log `k`, the oldest first.
    pub fn entry(&self, k: u32) -> Entry
        requires { k < length self.now.logs }
        ensures { result ≡ entry_of (log_at self.now.logs k) }
    {
        self.undo.entry(k)
    }

    /// The changes since the newest log: their heads, and bytes of which the last ones belong to them, those of one head after the
    /// other. No clause says so.
    pub fn changes(&self) -> (&[Head], &[u8]) {
        self.undo.changes()
    }

    /// How many chunks were changed since the newest log, with those that were freed and made. No clause says so.
    pub fn changed(&self) -> u64 {
        let (heads, _bytes) = self.undo.changes();
        heads.len() as u64
    }

    /// How many bytes are kept of all changes. No clause says so.
    pub fn kept_bytes(&self) -> u64 {
        self.undo.kept_bytes()
    }

    /// Gives all segments back, and answers the supply.
    pub fn end(self, way: &S::Way) -> S
        ensures nothing_held { S.held_ids result ≡ [] }
        ensures quota { S.quota_of result ≡ self.heap.quota }
        ensures origin { S.origin result ≡ self.heap.origin }
        ensures whole { IsWhole self }
    {
        let UndoObject {
            heap,
            undo: _,
            ran: _,
        } = self;
        heap.end(way)
    }
}
