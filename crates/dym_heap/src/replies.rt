//! The answers of a heap's calls as replies.
ghost use Rattle.std.specs.Prelude.{◌≡◌};
ghost use Rattle.dym_heap.specs.Replies.{chunk_reply, moved_reply, done_reply, found_reply, total_reply};

use crate::found::Found;
use dym_base::{Handle, Refusal, Reply};

/// The reply that names a new chunk.
pub fn of_chunk(answer: Result<Handle, Refusal>) -> Reply
    ensures { result ≡ chunk_reply answer }
{
    match answer {
        Ok(h) => Reply::Chunk(h),
        Err(why) => Reply::Refused(why),
    }
}

/// The reply that names where a chunk now is, if anywhere.
pub fn of_moved(answer: Result<Option<Handle>, Refusal>) -> Reply
    ensures { result ≡ moved_reply answer }
{
    match answer {
        Ok(Some(h)) => Reply::Chunk(h),
        Ok(None) => Reply::Nil,
        Err(why) => Reply::Refused(why),
    }
}

/// The reply of a command that has nothing to tell.
pub fn of_done(answer: Result<(), Refusal>) -> Reply
    ensures { result ≡ done_reply answer }
{
    match answer {
        Ok(()) => Reply::Done,
        Err(why) => Reply::Refused(why),
    }
}

/// The reply that tells which chunk a number stands for.
pub fn of_found(answer: Result<Found, Refusal>) -> Reply
    ensures { result ≡ found_reply answer }
{
    match answer {
        Ok(Found::Nil) => Reply::Nil,
        Ok(Found::Live(h)) => Reply::Chunk(h),
        Ok(Found::Loose(n)) => Reply::Loose(n),
        Err(why) => Reply::Refused(why),
    }
}

/// The reply that tells a sum.
pub fn of_total(answer: Result<u64, Refusal>) -> Reply
    ensures { result ≡ total_reply answer }
{
    match answer {
        Ok(total) => Reply::Total(total),
        Err(why) => Reply::Refused(why),
    }
}
