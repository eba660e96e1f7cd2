//! What an object answers to a command.

use crate::blob::Blob;
use crate::command::Kind;
use crate::handle::Handle;

/// Why a command was refused. A refused command changes nothing.
#[derive(Clone, Copy, Debug, PartialEq, Eq)]
pub enum Refusal {
    /// No class has chunks of that length.
    TooLarge,
    /// The heap would hold more segments than its quota.
    Quota,
    /// The handle isn't live.
    Dead,
    /// The bytes that were named pass the end of the chunk.
    Range,
    /// The newest log has this time, and a new one must come after it.
    NotAfter { newest: u64 },
    /// As many logs as an object keeps are kept.
    LogsFull,
    /// No log has a time at or before the one asked for.
    NoLog,
}

/// The reply to one command.
#[derive(Drop, PartialEq)]
pub enum Reply {
    /// Done, with nothing to tell.
    Done,
    /// This chunk.
    Chunk(Handle),
    /// No chunk.
    Nil,
    /// A number that is no live chunk's.
    Loose(u64),
    /// The bytes that were read.
    Bytes(Blob),
    /// The sum of a chunk's bytes.
    Total(u64),
    /// A log of this kind, whose record has this many bytes.
    Logged { kind: Kind, len: u64 },
    /// The time of the log that was restored.
    At(u64),
    /// How many logs were dropped.
    Dropped(u32),
    /// How many logs are kept, and how many records they take.
    Slots { kept: u32, slots: u32 },
    /// Nothing changed, for this reason.
    Refused(Refusal),
}
