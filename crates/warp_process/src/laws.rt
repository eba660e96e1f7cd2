//! What the definitions come to. Each law is the contract of a function that does nothing.
ghost use Rattle.warp_process.specs.Laws.{SentIsKept, FailuresAreReal};

use warp_base::Payload;

/// All that a process has sent is what its committed past sent, and what it keeps as sent.
pub fn sent_is_kept<P: Payload, S>()
    ensures { SentIsKept P.words S }
{}

/// A process has failed exactly where the start, or a state after committed events, is a fault of
/// the model's own.
pub fn failures_are_real<P: Payload, S>()
    ensures { FailuresAreReal P.words S }
{}
