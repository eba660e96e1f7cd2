//! What an export answers.
ghost use Rattle.std.specs.Prelude.{◌≡◌};
ghost use Rattle.dym_heap.specs.Replies.{done_reply};
ghost use Rattle.dym_c.specs.Statuses.{refusal_status, reply_status};

use dym_base::Refusal;

/// Done.
pub const DONE: u32 = 0;

/// Memory was wanting, and nothing was done.
pub const MEMORY: u32 = 8;

/// An argument was bad. Nothing was done.
pub const BAD: u32 = 9;

/// The object has run as many commands as it may. Nothing was done.
pub const SPENT: u32 = 10;

/// The object was closed, or open where it was to be opened. Nothing was done.
pub const STATE: u32 = 11;

/// The bytes were no checkpoint file. Nothing was done.
pub const FILE: u32 = 12;

/// The event of a message, or a bound, is before what is committed. Nothing was done.
pub const COMMITTED: u32 = 13;

/// What is sent isn't later than what sends it. Nothing was done.
pub const NOT_LATER: u32 = 14;

/// What is sent is for no process, or what comes for another one. Nothing was done.
pub const NO_PROCESS: u32 = 15;

/// Before the bound something is still to be run, or waited for. Nothing was done.
pub const UNSETTLED: u32 = 16;

/// There is nothing.
pub const NONE: u32 = 17;

/// The object's logs aren't those of the process.
pub const ASTRAY: u32 = 18;

/// The status of a refusal.
pub(crate) fn refusal_number(why: Refusal) -> u32
    ensures { result ≡ refusal_status why }
{
    match why {
        Refusal::TooLarge => 1,
        Refusal::Quota => 2,
        Refusal::Dead => 3,
        Refusal::Range => 4,
        Refusal::NotAfter { newest: _ } => 5,
        Refusal::LogsFull => 6,
        Refusal::NoLog => 7,
    }
}

/// The status of an answer of which nothing else is told.
pub(crate) fn done_number(answer: Result<(), Refusal>) -> u32
    ensures { result ≡ reply_status (done_reply answer) }
{
    match answer {
        Ok(()) => DONE,
        Err(why) => refusal_number(why),
    }
}
