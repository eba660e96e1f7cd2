//! The orders `run` and `views`: the objects of a script run in waves, by workers side by side.
ghost use Rattle.std.specs.Prelude.{◌≡◌, ◌+◌, ◌≤◌, true, nat_lt, All, option_map, IfOk};
ghost use Rattle.std.specs.List.{find};
ghost use Rattle.dym_io.specs.Sink.{WritesOr};
ghost use Rattle.dym_wave.specs.Parts.{IsShape};
ghost use Rattle.dym_wave.specs.Reports.{summary_of, totals_of};
ghost use Rattle.dym_report.specs.declared.write_fail.WriteFail.TheVariants.{Sink as SinkFailed};
ghost use Rattle.dym_script.specs.Scripts.{ScriptMeaning, script_of};
ghost use Rattle.dym_script.specs.ByObjects.{IsByObjects};
ghost use Rattle.dym_script.specs.Parts.{KeepsParts};
ghost use Rattle.dym_words.specs.Laws.{IsInputWithin};
ghost use Rattle.dymelor_top.specs.Answers.{in_waves, input_bytes, is_read, of_script};
ghost use Rattle.dymelor_top.specs.Calls.{AnswersInput, AnswersRead, HadOrder, ReadsSource, TellsScript};
ghost use Rattle.dymelor_top.specs.WaveTexts.{viewed_text, waves_text};

use crate::generator_text::{GeneratedSource, generated_script};
use crate::read_input::read_input;
use crate::stop::Stop;
use dym_base::BadKind;
use dym_io::{Sink, Source};
use dym_pool::Gate;
use dym_report::{Totals, WriteFail, write_end, write_summary};
use dym_script::{Part, PartCollector, WholeScript, read_parallel};
use dym_wave::{ReportOptions, Shape, WaveOptions, tally_waves, write_waves};
use dym_words::Input;
use std::alloc::{AllocError, Global};
use std::sync::Wait;
use std::thread::Threads;

/// What is written of a script whose objects run in waves.
#[derive(Clone, Copy, Debug, PartialEq, Eq)]
pub enum WaveText {
    /// Its report.
    Report,
    /// Its summary.
    Summary,
    /// Its report, with the view of each object.
    Views,
}

/// How the objects of a script run in waves, and what is written of it.
#[derive(Clone, Copy, Debug, PartialEq, Eq)]
pub struct Waves {
    pub shape: Shape,
    pub text: WaveText,
}

/// Answers with what is asked for of a script whose objects run in waves: that of the source, or the script that a seed makes, which is
/// read as any source is.
pub fn answer_in_waves<R: Threads + Wait + Send + Sync, S: Source, W: Sink, G: Gate>(
    rt: &R,
    alloc: Global,
    input: Input,
    waves: Waves,
    source: &mut S,
    sink: &mut W,
    gate: &G,
) -> Result<(), Stop>
    requires goes_on { S.goes_on source.old }
    requires input { IsInputWithin input }
    requires shape { IsShape waves.shape }
    ensures { AnswersInput HadOrder (is_read input)
        (λ bytes x. x ≡ of_script (in_waves waves.shape.segments (waves_text waves.text)) (script_of (input_bytes input bytes)))
        (record { left = S.left source.old; faults = S.faults source.old })
        (record { left = S.left source.new; faults = S.faults source.new })
        (W.output sink.old) (W.output sink.new) result }
{
    match input {
        Input::Script => answer_waves(rt, alloc, waves, source, sink, gate),
        Input::Made {
            seed,
            objects,
            commands,
        } => {
            let made = generated_script(alloc, seed, objects, commands)?;
            let mut generated = GeneratedSource { rest: &made };
            answer_waves(rt, alloc, waves, &mut generated, sink, gate)
        }
    }
}

/// Answers with what is asked for of the script that a source gives.
fn answer_waves<R: Threads + Wait + Send + Sync, S: Source, W: Sink, G: Gate>(
    rt: &R,
    alloc: Global,
    waves: Waves,
    source: &mut S,
    sink: &mut W,
    gate: &G,
) -> Result<(), Stop>
    requires goes_on { S.goes_on source.old }
    requires shape { IsShape waves.shape }
    ensures { AnswersInput HadOrder true
        (λ bytes x. x ≡ of_script (in_waves waves.shape.segments (waves_text waves.text)) (script_of bytes))
        (record { left = S.left source.old; faults = S.faults source.old })
        (record { left = S.left source.new; faults = S.faults source.new })
        (W.output sink.old) (W.output sink.new) result }
{
    let script = read_side_by_side(rt, alloc, waves.shape.workers, source)?;
    run_script(rt, alloc, waves, script, sink, gate)
}

/// Reads the script that a source gives, side by side by these workers. Its text is given up, before its objects take memory.
fn read_side_by_side<R: Threads + Sync, S: Source>(
    rt: &R,
    alloc: Global,
    workers: u32,
    source: &mut S,
) -> Result<WholeScript<PartCollector>, Stop>
    requires goes_on { S.goes_on source.old }
    requires some { 1 ≤ workers }
    ensures { ReadsSource (TellsScript (λ kept. KeepsParts kept))
        (record { left = S.left source.old; faults = S.faults source.old })
        (record { left = S.left source.new; faults = S.faults source.new }) result }
{
    let bytes = read_input(alloc, source)?;
    Ok(read_parallel(rt, alloc, workers, &bytes)?)
}

/// Runs the objects of a good script and answers with what is asked for, or with the line of the first object that may hold too much.
fn run_script<R: Threads + Wait + Send + Sync, W: Sink, G: Gate>(
    rt: &R,
    alloc: Global,
    waves: Waves,
    script: WholeScript<PartCollector>,
    sink: &mut W,
    gate: &G,
) -> Result<(), Stop>
    requires made { (s : ScriptMeaning) × IsByObjects script s }
    requires shape { IsShape waves.shape }
    ensures { (s : ScriptMeaning) → IsByObjects script s
        → AnswersRead (λ x. x ≡ in_waves waves.shape.segments (waves_text waves.text) s)
        (W.output sink.old) (W.output sink.new) result }
{
    match line_above(&script.kept.parts, waves.shape.segments) {
        Some(line) => Err(Stop::Bad {
            line,
            kind: BadKind::QuotaRange,
        }),
        None => Ok(run_fitting(rt, alloc, waves, script, sink, gate)?),
    }
}

/// The line of the first object that may hold more than so many segments.
fn line_above(parts: &[Part], segments: u32) -> Option<u32>
    ensures { result ≡ option_map (λ part. part.decl.line)
        (find (λ part. nat_lt segments part.decl.quota) parts.now) }
{
    parts
        .iter()
        .find(|part| part.decl.quota > segments)
        .map(|part| part.decl.line)
}

/// Writes what is asked for of a script whose objects fit.
fn run_fitting<R: Threads + Wait + Send + Sync, W: Sink, G: Gate>(
    rt: &R,
    alloc: Global,
    waves: Waves,
    script: WholeScript<PartCollector>,
    sink: &mut W,
    gate: &G,
) -> Result<(), WriteFail>
    requires made { (s : ScriptMeaning) × IsByObjects script s }
    requires shape { IsShape waves.shape }
    requires fits { All (λ part. part.decl.quota ≤ waves.shape.segments)
        script.kept.parts.items }
    ensures { (s : ScriptMeaning) → IsByObjects script s
        → WritesOr (λ fail. fail ≡ SinkFailed) (W.output sink.old) (W.output sink.new)
        (waves_text waves.text s) result }
{
    let shape = waves.shape;
    match waves.text {
        WaveText::Report => report_waves(rt, alloc, shape, false, script, sink, gate),
        WaveText::Summary => summarize(rt, alloc, shape, script, sink, gate),
        WaveText::Views => report_waves(rt, alloc, shape, true, script, sink, gate),
    }
}

/// Writes the report of a script whose objects fit, with the view of each object where views are told.
fn report_waves<R: Threads + Wait + Send + Sync, W: Sink, G: Gate>(
    rt: &R,
    alloc: Global,
    shape: Shape,
    views: bool,
    script: WholeScript<PartCollector>,
    sink: &mut W,
    gate: &G,
) -> Result<(), WriteFail>
    requires made { (s : ScriptMeaning) × IsByObjects script s }
    requires shape { IsShape shape }
    requires fits { All (λ part. part.decl.quota ≤ shape.segments)
        script.kept.parts.items }
    ensures { (s : ScriptMeaning) → IsByObjects script s
        → WritesOr (λ fail. fail ≡ SinkFailed) (W.output sink.old) (W.output sink.new)
        (viewed_text views s) result }
{
    let WholeScript { version, kept, .. } = script;
    let report = ReportOptions { version, views };
    let options = WaveOptions { report, shape };
    write_waves(rt, alloc, options, kept.parts, gate, sink)?;
    write_end(sink)?;
    Ok(())
}

/// Writes the summary of a script whose objects fit.
fn summarize<R: Threads + Wait + Send + Sync, W: Sink, G: Gate>(
    rt: &R,
    alloc: Global,
    shape: Shape,
    script: WholeScript<PartCollector>,
    sink: &mut W,
    gate: &G,
) -> Result<(), WriteFail>
    requires made { (s : ScriptMeaning) × IsByObjects script s }
    requires shape { IsShape shape }
    requires fits { All (λ part. part.decl.quota ≤ shape.segments) script.kept.parts.items }
    ensures { (s : ScriptMeaning) → IsByObjects script s
        → WritesOr (λ fail. fail ≡ SinkFailed) (W.output sink.old) (W.output sink.new)
        (summary_of s) result }
{
    let totals = total(rt, alloc, shape, script, gate)?;
    write_summary(sink, &totals)?;
    Ok(())
}

/// What the objects of such a script come to.
fn total<R: Threads + Wait + Send + Sync, G: Gate>(
    rt: &R,
    alloc: Global,
    shape: Shape,
    script: WholeScript<PartCollector>,
    gate: &G,
) -> Result<Totals, AllocError>
    requires made { (s : ScriptMeaning) × IsByObjects script s }
    requires shape { IsShape shape }
    requires fits { All (λ part. part.decl.quota ≤ shape.segments) script.kept.parts.items }
    ensures { IfOk result (λ totals. (s : ScriptMeaning) → IsByObjects script s → totals ≡ totals_of s) }
{
    let WholeScript { version, kept, .. } = script;
    let objects = kept.parts.len() as u32;
    let tally = tally_waves(rt, alloc, version, kept.parts, shape, gate)?;
    Ok(tally.totals(objects))
}
