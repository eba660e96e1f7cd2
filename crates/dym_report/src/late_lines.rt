//! What the orders `views` and `late` print besides.
ghost use Rattle.std.specs.Prelude.{Some};
ghost use Rattle.dym_heap.specs.Meaning.{IsSound};
ghost use Rattle.dym_io.specs.Sink.{Writes};
ghost use Rattle.dym_report.specs.declared.late_lines.ViewLine.{ViewLine};
ghost use Rattle.dym_report.specs.Late.{view_line, late_line, late_end};

use crate::object_report::{write_heap, write_images};
use crate::reply::{write_number, write_reply};
use crate::reply_text::{LINE_ROOM, put_numbers};
use dym_base::Reply;
use dym_heap::Heap;
use dym_io::{Sink, SinkFault, push_all, put_named, put_text};
use dym_quota::Supply;

/// What is seen of a log: its time, how many chunks it has, and the sum of their bytes.
#[derive(Clone, Copy, Debug, PartialEq, Eq)]
pub struct ViewLine {
    pub time: u64,
    pub chunks: u32,
    pub total: u64,
}

/// What one line of a script of late events gets.
#[derive(Clone, Copy)]
pub enum LateOut<'a> {
    /// The event was accepted, and its command has this reply.
    Reply(&'a Reply),
    /// The event was before the last commit, which is this.
    Early { bound: u64 },
    /// The line was a commit.
    Committed,
}

/// Writes what is seen of an object's oldest log, where it has one. Its only error is that of the sink.
pub fn write_view<W: Sink>(sink: &mut W, line: Option<ViewLine>) -> Result<(), SinkFault>
    ensures { Writes (W.output sink.old) (W.output sink.new) (view_line line) result }
{
    match line {
        None => push_all(sink, b"view none\n"),
        Some(view) => write_seen(sink, view),
    }
}

/// Writes the line of what is seen of a log.
fn write_seen<W: Sink>(sink: &mut W, view: ViewLine) -> Result<(), SinkFault>
    ensures { Writes (W.output sink.old) (W.output sink.new) (view_line (Some view)) result }
{
    let mut line = [0; LINE_ROOM];
    let end = put_numbers(&mut line, 0, b"view ", view.time, u64::from(view.chunks));
    let end = put_named(&mut line, end, b" ", view.total);
    let end = put_text(&mut line, end, b"\n");
    push_all(sink, &line[..end])
}

/// Writes the line that a line of late events gets. Its only error is that of the sink.
pub fn write_late_line<W: Sink>(sink: &mut W, line: LateOut) -> Result<(), SinkFault>
    ensures { Writes (W.output sink.old) (W.output sink.new) (late_line line.entry) result }
{
    match line {
        LateOut::Reply(reply) => write_reply(sink, reply),
        LateOut::Early { bound } => write_number(sink, b"early ", bound),
        LateOut::Committed => push_all(sink, b"ok\n"),
    }
}

/// Writes the end of what a heap of late events gets: its counts, its live chunks, and how many commands were run for its
/// events. Its only error is that of the sink.
pub fn write_late_end<W: Sink, S: Supply>(
    sink: &mut W,
    heap: &Heap<S>,
    replayed: u64,
) -> Result<(), SinkFault>
    requires sound { IsSound heap.now }
    ensures { Writes (W.output sink.old) (W.output sink.new)
        (late_end heap.now.version heap.now.state.live replayed) result }
{
    write_heap(sink, heap)?;
    write_images(sink, heap)?;
    write_number(sink, b"replayed ", replayed)
}
