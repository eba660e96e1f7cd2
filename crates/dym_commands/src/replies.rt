//! The replies to commands, kept in little memory.
ghost use Rattle.std.specs.Prelude.{◌≡◌, ℕ, List, ◌+◌, ◌≤◌, ◌<◌, ◌^◌, [], ◌∷◌, ◌++◌, length, count_by, slice_get, vec_len, vec_capacity, Some, IfOk, MatchOption};
ghost use Rattle.dym_base.specs.declared.reply.Reply.TheVariants.{Bytes, Refused};
ghost use Rattle.dym_commands.specs.Replies.{replies_with, reply_of_stored, bytes_of, is_refusal, HasRoomFor, IsStored, IsPlain};

use dym_base::{Handle, Kind, Refusal, Reply};
use std::alloc::{AllocError, Global};
use std::marker::Model;
use std::mem::size_of;

/// A reply in 16 bytes. Bytes that were read stand in a table.
#[derive(Clone, Copy)]
pub enum StoredReply {
    Done,
    Chunk { handle: Handle },
    Nil,
    Loose { number: u64 },
    /// So many bytes of the table, from a place on.
    Bytes { len: u32, place: u64 },
    Total { total: u64 },
    Logged { kind: Kind, len: u64 },
    At { time: u64 },
    Dropped { count: u32 },
    Slots { kept: u32, slots: u32 },
    TooLarge,
    Quota,
    Dead,
    Range,
    NotAfter { newest: u64 },
    LogsFull,
    NoLog,
}

const _: () = prove!(size_of::<StoredReply>() == 16);

/// The replies to commands, in the order in which they were pushed. Each is kept in 16 bytes, those to reads with their bytes beside
/// them. The room for all of them is taken at once, so that to push one takes no memory. Those that are refusals are counted.
#[derive(Drop)]
pub struct Replies {
    stored: Vec<StoredReply>,
    bytes: Vec<u8>,
    refused: usize,
}

impl Model for Replies {
    ghost use Rattle.std.specs.Prelude.{vec_len, vec_capacity, ◌-◌};
    ghost use Rattle.dym_commands.specs.Replies.{RepliesMeaning, replies_with, replies_of_stored, AreStored};

    ghost Value = { RepliesMeaning };

    ghost view = { λ r. replies_with (replies_of_stored r.bytes.items r.stored.items) (vec_capacity r.stored - vec_len r.stored) (vec_capacity r.bytes - vec_len r.bytes) };

    ghost invariant = { λ r. AreStored r.bytes.items r.stored.items r.refused };
}

impl Replies {
    /// No replies, with room for so many, and for so many bytes that reads tell.
    pub fn with_room(alloc: Global, count: usize, bytes: usize) -> Result<Replies, AllocError>
        ensures { IfOk result (λ replies. replies ≡ replies_with [] count bytes) }
    {
        let stored = Vec::with_capacity(alloc, count)?;
        let bytes = Vec::with_capacity(alloc, bytes)?;
        Ok(Replies {
            stored,
            bytes,
            refused: 0,
        })
    }

    /// How many they are.
    pub fn len(&self) -> usize
        ensures { result ≡ length self.now.replies }
    {
        self.stored.len()
    }

    /// How many of them are refusals.
    pub fn refusals(&self) -> usize
        ensures { result ≡ count_by is_refusal self.now.replies }
    {
        self.refused
    }

    /// Appends a reply.
    #[inline(always)]
    pub fn push(&mut self, reply: &Reply)
        requires { HasRoomFor self.old reply.now }
        ensures replies { self.new.replies ≡ self.old.replies ++ reply.now ∷ [] }
        ensures room { self.new.room + 1 ≡ self.old.room }
        ensures byte_room { self.old.byte_room ≤ self.new.byte_room + length (bytes_of reply.now) }
    {
        let stored = keep(&mut self.bytes, reply);
        self.stored.push_reserved(stored);
        self.refused += usize::from(is_refusal(reply));
    }

    /// Reply `k`, which counts from 0 on. Bytes that were read are answered as they stand here, and any other reply is put into its
    /// place, so that no memory is taken.
    #[inline(always)]
    pub fn reply_into(&self, k: usize, reply: &mut Reply) -> Option<&[u8]>
        requires { k < length self.now.replies }
        ensures { MatchOption result (slice_get self.now.replies k ≡ Some reply.new)
            (λ bytes. slice_get self.now.replies k ≡ Some (Bytes bytes.now)) }
    {
        let stored = self.stored[k];
        match stored {
            StoredReply::Bytes { len, place } => {
                let from = place as usize;
                Some(&self.bytes[from..from + len as usize])
            }
            _ => {
                *reply = stored.plain();
                None
            }
        }
    }
}

impl StoredReply {
    /// The reply, where it isn't one of bytes that were read.
    #[inline(always)]
    fn plain(self) -> Reply
        requires { IsPlain self }
        ensures { (table : List ℕ) → reply_of_stored table self ≡ result }
    {
        match self {
            StoredReply::Done => Reply::Done,
            StoredReply::Chunk { handle } => Reply::Chunk(handle),
            StoredReply::Nil => Reply::Nil,
            StoredReply::Loose { number } => Reply::Loose(number),
            StoredReply::Bytes { .. } => unreachable!(),
            StoredReply::Total { total } => Reply::Total(total),
            StoredReply::Logged { kind, len } => Reply::Logged { kind, len },
            StoredReply::At { time } => Reply::At(time),
            StoredReply::Dropped { count } => Reply::Dropped(count),
            StoredReply::Slots { kept, slots } => Reply::Slots { kept, slots },
            StoredReply::TooLarge => Reply::Refused(Refusal::TooLarge),
            StoredReply::Quota => Reply::Refused(Refusal::Quota),
            StoredReply::Dead => Reply::Refused(Refusal::Dead),
            StoredReply::Range => Reply::Refused(Refusal::Range),
            StoredReply::NotAfter { newest } => Reply::Refused(Refusal::NotAfter { newest }),
            StoredReply::LogsFull => Reply::Refused(Refusal::LogsFull),
            StoredReply::NoLog => Reply::Refused(Refusal::NoLog),
        }
    }
}

/// Whether a reply is a refusal.
#[inline(always)]
fn is_refusal(reply: &Reply) -> bool
    ensures { result ≡ is_refusal reply.now }
{
    matches!(reply, Reply::Refused(_))
}

/// Keeps a reply, with the bytes that it tells behind those of a table that has room for them.
#[inline(always)]
fn keep(table: &mut Vec<u8>, reply: &Reply) -> StoredReply
    requires room { vec_len table.old + length (bytes_of reply.now) ≤ vec_capacity table.old }
    requires short { length (bytes_of reply.now) < 2 ^ 32 }
    ensures stored { reply_of_stored table.new.items result ≡ reply.now }
    ensures within { IsStored table.new.items result }
    ensures table { table.new.items ≡ table.old.items ++ bytes_of reply.now }
    ensures len { vec_len table.new ≡ vec_len table.old + length (bytes_of reply.now) }
    ensures room { vec_capacity table.old ≤ vec_capacity table.new }
{
    match reply {
        Reply::Done => StoredReply::Done,
        Reply::Chunk(handle) => StoredReply::Chunk { handle: *handle },
        Reply::Nil => StoredReply::Nil,
        Reply::Loose(number) => StoredReply::Loose { number: *number },
        Reply::Bytes(bytes) => store_bytes(table, bytes.bytes()),
        Reply::Total(total) => StoredReply::Total { total: *total },
        Reply::Logged { kind, len } => StoredReply::Logged {
            kind: *kind,
            len: *len,
        },
        Reply::At(time) => StoredReply::At { time: *time },
        Reply::Dropped(count) => StoredReply::Dropped { count: *count },
        Reply::Slots { kept, slots } => StoredReply::Slots {
            kept: *kept,
            slots: *slots,
        },
        Reply::Refused(refusal) => store_refusal(*refusal),
    }
}

/// Keeps bytes that were read, behind those of a table that has room for them.
#[inline(always)]
fn store_bytes(table: &mut Vec<u8>, bytes: &[u8]) -> StoredReply
    requires room { vec_len table.old + length bytes.now ≤ vec_capacity table.old }
    requires short { length bytes.now < 2 ^ 32 }
    ensures stored { reply_of_stored table.new.items result ≡ Bytes bytes.now }
    ensures within { IsStored table.new.items result }
    ensures table { table.new.items ≡ table.old.items ++ bytes.now }
    ensures len { vec_len table.new ≡ vec_len table.old + length bytes.now }
    ensures room { vec_capacity table.old ≤ vec_capacity table.new }
{
    let place = table.len() as u64;
    let Ok(()) = table.extend_from_slice(bytes) else {
        unreachable!()
    };
    StoredReply::Bytes {
        len: bytes.len() as u32,
        place,
    }
}

/// Keeps why a command was refused.
#[inline(always)]
fn store_refusal(refusal: Refusal) -> StoredReply
    ensures stored { (table : List ℕ) → reply_of_stored table result ≡ Refused refusal }
    ensures within { (table : List ℕ) → IsStored table result }
{
    match refusal {
        Refusal::TooLarge => StoredReply::TooLarge,
        Refusal::Quota => StoredReply::Quota,
        Refusal::Dead => StoredReply::Dead,
        Refusal::Range => StoredReply::Range,
        Refusal::NotAfter { newest } => StoredReply::NotAfter { newest },
        Refusal::LogsFull => StoredReply::LogsFull,
        Refusal::NoLog => StoredReply::NoLog,
    }
}
