//! The summary of a script.
ghost use Rattle.dym_io.specs.Sink.{Writes};
ghost use Rattle.dym_report.specs.Orders.{summary_text};

use dym_io::{Sink, SinkFault, push_all, put_named, put_text};

/// The bytes of the longest summary.
const SUMMARY_ROOM: usize = 240;

/// What a summary counts over all objects.
#[derive(Clone, Copy, Debug, PartialEq, Eq)]
pub struct Totals {
    /// The objects of the script.
    pub objects: u32,
    /// Its commands.
    pub commands: u32,
    /// The replies that are no refusals.
    pub ok: u32,
    /// The replies that are refusals.
    pub refused: u32,
    /// The live chunks.
    pub chunks: u64,
    /// The segments held.
    pub segments: u64,
    /// The kept logs.
    pub kept: u64,
    /// The records that the kept logs take.
    pub slots: u64,
}

/// Writes the line of the summary. Its only error is that of the sink.
pub fn write_summary<W: Sink>(sink: &mut W, totals: &Totals) -> Result<(), SinkFault>
    ensures { Writes (W.output sink.old) (W.output sink.new) (summary_text totals.now) result }
{
    let mut line = [0; SUMMARY_ROOM];
    let end = put_text(&mut line, 0, b"summary");
    let end = put_named(&mut line, end, b" objects ", u64::from(totals.objects));
    let end = put_named(&mut line, end, b" commands ", u64::from(totals.commands));
    let end = put_named(&mut line, end, b" ok ", u64::from(totals.ok));
    let end = put_named(&mut line, end, b" refused ", u64::from(totals.refused));
    let end = put_named(&mut line, end, b" chunks ", totals.chunks);
    let end = put_named(&mut line, end, b" segments ", totals.segments);
    let end = put_named(&mut line, end, b" kept ", totals.kept);
    let end = put_named(&mut line, end, b" slots ", totals.slots);
    let end = put_text(&mut line, end, b"\n");
    push_all(sink, &line[..end])
}
