//! What the orders print besides the reports of objects.
ghost use Rattle.dym_io.specs.Sink.{Writes};
ghost use Rattle.dym_report.specs.Orders.{end_text, counts_text, events_text, error_text, usage_text};

use crate::reply::{write_number, write_numbers};
use crate::reply_text::LINE_ROOM;
use dym_base::BadKind;
use dym_io::{Sink, SinkFault, push_all, push_parts, put_named, put_text};

/// Writes the last line of a report. Its only error is that of the sink.
pub fn write_end<W: Sink>(sink: &mut W) -> Result<(), SinkFault>
    ensures { Writes (W.output sink.old) (W.output sink.new) end_text result }
{
    push_all(sink, b"end\n")
}

/// Writes how many objects and commands a script has. Its only error is that of the sink.
pub fn write_counts<W: Sink>(sink: &mut W, objects: u32, commands: u32) -> Result<(), SinkFault>
    ensures { Writes (W.output sink.old) (W.output sink.new) (counts_text objects commands) result }
{
    write_numbers(sink, b"ok ", u64::from(objects), u64::from(commands))
}

/// Writes how many events a trace has. Its only error is that of the sink.
pub fn write_events<W: Sink>(sink: &mut W, events: u32) -> Result<(), SinkFault>
    ensures { Writes (W.output sink.old) (W.output sink.new) (events_text events) result }
{
    write_number(sink, b"ok ", u64::from(events))
}

/// Writes the line of an error in an input. Its only error is that of the sink.
pub fn write_error<W: Sink>(sink: &mut W, line: u32, kind: BadKind) -> Result<(), SinkFault>
    ensures { Writes (W.output sink.old) (W.output sink.new) (error_text line kind) result }
{
    let mut front = [0; LINE_ROOM];
    let end = put_named(&mut front, 0, b"error line ", u64::from(line));
    let end = put_text(&mut front, end, b": ");
    push_parts(
        sink,
        &[&front[..end], kind.text().as_bytes(), b"\n".as_slice()],
    )
}

/// Writes what words of no order get. Its only error is that of the sink.
pub fn write_usage<W: Sink>(sink: &mut W) -> Result<(), SinkFault>
    ensures { Writes (W.output sink.old) (W.output sink.new) usage_text result }
{
    push_all(sink, b"usage\n")
}
