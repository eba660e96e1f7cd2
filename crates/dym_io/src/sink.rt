//! Where bytes go.
ghost use Rattle.std.specs.Prelude.{◌≡◌, ◌<◌, ◌≤◌, length, flat_map, IfOk, OnOk, OnErr};
ghost use Rattle.std.specs.Io.KnownBytes.{Keeps};
ghost use Rattle.dym_io.specs.Faults.{RoseOnce};
ghost use Rattle.dym_io.specs.Sink.{Output, Pushes, AllFlushed, Writes};

use crate::{Failed, SinkFault};

/// A stream of bytes that grows at its end.
pub trait Sink {
    /// The bytes that were written and how many of them were flushed, where the sink tells them, and how often a call has
    /// failed. What is told at a call's start is told at its end.
    ghost output: { Self → Output };

    /// Appends the front of a piece, at least one byte, and says how many. Where it fails, nothing is appended.
    fn push(&mut self, piece: &[u8]) -> Result<usize, Failed>
        requires { 0 < length piece.now }
        ensures some { IfOk result (λ n. 0 < n) }
        ensures amount { IfOk result (λ n. n ≤ length piece.now) }
        ensures written { Pushes (output self.old) (output self.new) piece.now result };

    /// Hands all that was written on. Where it fails, the number of flushed bytes stays.
    fn flush(&mut self) -> Result<(), Failed>
        ensures written { Keeps (output self.old).written (output self.new).written }
        ensures flushed { OnOk result (AllFlushed (output self.old) (output self.new)) }
        ensures stays { OnErr result ((output self.new).flushed ≡ (output self.old).flushed) }
        ensures count { OnOk result ((output self.new).faults ≡ (output self.old).faults) }
        ensures failed { OnErr result (RoseOnce (output self.old).faults (output self.new).faults) };
}

/// Writes a whole piece. An empty one needs no call. After a fault the front of it is written.
pub fn push_all<W: Sink>(sink: &mut W, piece: &[u8]) -> Result<(), SinkFault>
    ensures { Writes (W.output sink.old) (W.output sink.new) piece.now result }
{
    let mut rest = piece;
    while !rest.is_empty() {
        let taken = sink.push(rest)?;
        rest = &rest[taken..];
    }
    Ok(())
}

/// Writes pieces one after the other as one text. After a fault the front of the text is written.
pub fn push_parts<W: Sink>(sink: &mut W, parts: &[&[u8]]) -> Result<(), SinkFault>
    ensures { Writes (W.output sink.old) (W.output sink.new) (flat_map (λ part. part.now) parts.now) result }
{
    for part in parts {
        push_all(sink, part)?;
    }
    Ok(())
}
