//! The order `late`: events that come in any order of their times, one object after another.
ghost use Rattle.std.specs.Prelude.{◌≡◌, All, flat_map};
ghost use Rattle.dym_io.specs.Sink.{WritesOr};
ghost use Rattle.dym_script.specs.Late.{late_of, late_said};
ghost use Rattle.dym_script.specs.LateArrivals.{IsLawfulLate};
ghost use Rattle.dymelor_top.specs.LateReport.{late_text};
ghost use Rattle.dymelor_top.specs.LateParts.{IsLatePart, late_part_text};
ghost use Rattle.dymelor_top.specs.Answers.{of_script, text_answer};
ghost use Rattle.dymelor_top.specs.Calls.{AnswersRead};
ghost use Rattle.dym_report.specs.declared.write_fail.WriteFail.TheVariants.{Sink as SinkFailed};

use crate::late_parts::{LatePart, late_parts};
use crate::late_run::write_late_part;
use crate::segment_store::SegmentStore;
use crate::stop::Stop;
use dym_io::Sink;
use dym_report::{WriteFail, write_end};
use dym_script::{LateScript, read_late};
use std::alloc::Global;

/// Answers with the report of a script of late events.
pub fn answer_late<W: Sink>(alloc: Global, bytes: &[u8], sink: &mut W) -> Result<(), Stop>
    ensures { AnswersRead (λ x. x ≡ of_script (λ said. text_answer (late_text said)) (late_of bytes.now))
        (W.output sink.old) (W.output sink.new) result }
{
    let script = read_late(alloc, bytes)?;
    Ok(write_late(alloc, script, sink)?)
}

/// Writes the report of a good script of late events.
fn write_late<W: Sink>(alloc: Global, script: LateScript, sink: &mut W) -> Result<(), WriteFail>
    requires { IsLawfulLate (late_said script) }
    ensures { WritesOr (λ fail. fail ≡ SinkFailed) (W.output sink.old) (W.output sink.new)
        (late_text (late_said script)) result }
{
    let parts = late_parts(alloc, script)?;
    write_late_parts(alloc, parts, sink)?;
    write_end(sink)?;
    Ok(())
}

/// Writes the parts of objects, in their order.
fn write_late_parts<W: Sink>(
    alloc: Global,
    parts: Vec<LatePart>,
    sink: &mut W,
) -> Result<(), WriteFail>
    requires { All IsLatePart parts.items }
    ensures { WritesOr (λ fail. fail ≡ SinkFailed) (W.output sink.old) (W.output sink.new)
        (flat_map late_part_text parts.items) result }
{
    let mut segment_store = SegmentStore::new(alloc);
    for part in parts {
        write_late_part(alloc, part, &mut segment_store, sink)?;
    }
    Ok(())
}
