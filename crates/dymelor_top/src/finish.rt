//! The end of a top call.
ghost use Rattle.std.specs.Prelude.{◌≡◌, OnOk, OnErr, MatchResult};
ghost use Rattle.dym_io.specs.Faults.{RoseOnce};
ghost use Rattle.dym_io.specs.Sink.{Writes};
ghost use Rattle.dymelor_top.specs.Calls.{Finishes, last_text};
ghost use Rattle.dymelor_top.specs.Headline.{WroteAll, WroteFront};
ghost use Rattle.dymelor_top.specs.Stops.{status_of};

use crate::stop::Stop;
use dym_io::{Sink, SinkFault};
use dym_report::{write_error, write_usage};

/// Ends a call that wrote a text or was stopped: writes the line of what stopped it, where that is its answer, flushes, and
/// answers the status.
pub fn finish<W: Sink>(answered: Result<(), Stop>, sink: &mut W) -> u8
    ensures { Finishes answered (W.output sink.old) (W.output sink.new) result }
{
    let status = status_of(answered);
    if status > 2 {
        return status;
    }
    match write_last(answered, sink) {
        Ok(()) => status,
        Err(_) => 4,
    }
}

/// The status of a call that wrote a text or was stopped.
fn status_of(answered: Result<(), Stop>) -> u8
    ensures { result ≡ status_of answered }
{
    match answered {
        Ok(()) => 0,
        Err(stop) => stop.status(),
    }
}

/// Writes the line of what stopped a call, where that is its answer, and flushes.
fn write_last<W: Sink>(answered: Result<(), Stop>, sink: &mut W) -> Result<(), SinkFault>
    ensures text { MatchResult result
        (λ _. WroteAll (W.output sink.old) (W.output sink.new) (last_text answered))
        (λ _. WroteFront (W.output sink.old) (W.output sink.new) (last_text answered)) }
    ensures count { OnOk result ((W.output sink.new).faults ≡ (W.output sink.old).faults) }
    ensures fault { OnErr result (RoseOnce (W.output sink.old).faults (W.output sink.new).faults) }
{
    write_line(answered, sink)?;
    sink.flush()?;
    Ok(())
}

/// Writes the line of what stopped a call, where that is its answer.
fn write_line<W: Sink>(answered: Result<(), Stop>, sink: &mut W) -> Result<(), SinkFault>
    ensures { Writes (W.output sink.old) (W.output sink.new) (last_text answered) result }
{
    match answered {
        Err(Stop::Usage) => write_usage(sink),
        Err(Stop::Bad { line, kind }) => write_error(sink, line, kind),
        _ => Ok(()),
    }
}
