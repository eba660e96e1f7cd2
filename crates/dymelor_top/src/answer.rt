//! The answers to orders that start no thread.
ghost use Rattle.std.specs.Prelude.{◌≡◌, true, Ok};
ghost use Rattle.dym_script.specs.Scripts.{ScriptMeaning, script_of};
ghost use Rattle.dym_words.specs.Laws.{IsInputWithin, IsWithin};
ghost use Rattle.dymelor_top.specs.Answers.{counts_of, input_bytes, is_read, of_script, report_or_summary, text_answer, IsTraceAnswer};
ghost use Rattle.dymelor_top.specs.Calls.{AnswersInput, AnswersOrder, AnswersRead, HadOrder, IsCounted};
ghost use Rattle.dymelor_top.specs.Headline.{without_threads};

use crate::blocks::read_source;
use crate::generator_text::{GeneratedSource, generated_script};
use crate::late_order::answer_late;
use crate::load_order::answer_loaded;
use crate::plain_order::write_plain;
use crate::read_input::read_input;
use crate::save_order::answer_saved;
use crate::stop::Stop;
use dym_base::BadKind;
use dym_base::limits::MOST_INPUT_BYTES;
use dym_gen::gen_script;
use dym_io::{Sink, Source};
use dym_report::{write_counts, write_events};
use dym_script::{Counter, PartCollector, WholeScript};
use dym_trace::{TraceAnswer, check_trace};
use dym_words::{Input, Order};
use std::alloc::Global;

/// Answers an order: all but those that run in waves, which are none here.
pub fn answer_order<R: Source, W: Sink>(
    alloc: Global,
    order: Order,
    source: &mut R,
    sink: &mut W,
) -> Result<(), Stop>
    requires goes_on { R.goes_on source.old }
    requires within { IsWithin order }
    ensures { AnswersOrder (without_threads (Ok order))
        (record { left = R.left source.old; faults = R.faults source.old })
        (record { left = R.left source.new; faults = R.faults source.new })
        (W.output sink.old) (W.output sink.new) result }
{
    match order {
        Order::Plain { input, summary } => answer_plain(alloc, input, summary, source, sink),
        Order::Check => {
            let script = read_source::<Counter, R>(alloc, source)?;
            answer_counts(&script, sink)
        }
        Order::Gen {
            seed,
            objects,
            commands,
        } => Ok(gen_script(sink, seed, objects, commands)?),
        Order::Trace => {
            let bytes = read_input(alloc, source)?;
            answer_trace(alloc, &bytes, sink)
        }
        Order::Save { name } => {
            let script = read_source::<PartCollector, R>(alloc, source)?;
            answer_saved(alloc, &name, &script, sink)
        }
        Order::Load { time } => {
            let file = read_input(alloc, source)?;
            answer_loaded(alloc, time, &file, sink)
        }
        Order::Late => {
            let bytes = read_input(alloc, source)?;
            answer_late(alloc, &bytes, sink)
        }
        Order::Run { .. } | Order::Views { .. } => Err(Stop::Usage),
    }
}

/// Answers with the report or the summary of a script: of the source, or of the script that a seed makes, which is read as any source is.
fn answer_plain<R: Source, W: Sink>(
    alloc: Global,
    input: Input,
    summary: bool,
    source: &mut R,
    sink: &mut W,
) -> Result<(), Stop>
    requires goes_on { R.goes_on source.old }
    requires input { IsInputWithin input }
    ensures { AnswersInput HadOrder (is_read input)
        (λ bytes x. x ≡ of_script (λ said. text_answer (report_or_summary summary said)) (script_of (input_bytes input bytes)))
        (record { left = R.left source.old; faults = R.faults source.old })
        (record { left = R.left source.new; faults = R.faults source.new })
        (W.output sink.old) (W.output sink.new) result }
{
    match input {
        Input::Script => answer_script(alloc, summary, source, sink),
        Input::Made {
            seed,
            objects,
            commands,
        } => {
            let made = generated_script(alloc, seed, objects, commands)?;
            let mut generated = GeneratedSource { rest: &made };
            answer_script(alloc, summary, &mut generated, sink)
        }
    }
}

/// Answers with the report or the summary of the script that a source gives.
fn answer_script<R: Source, W: Sink>(
    alloc: Global,
    summary: bool,
    source: &mut R,
    sink: &mut W,
) -> Result<(), Stop>
    requires { R.goes_on source.old }
    ensures { AnswersInput HadOrder true
        (λ bytes x. x ≡ of_script (λ said. text_answer (report_or_summary summary said)) (script_of bytes))
        (record { left = R.left source.old; faults = R.faults source.old })
        (record { left = R.left source.new; faults = R.faults source.new })
        (W.output sink.old) (W.output sink.new) result }
{
    let script = read_source::<PartCollector, R>(alloc, source)?;
    Ok(write_plain(alloc, summary, &script, sink)?)
}

/// Answers with how much a script says that was counted.
fn answer_counts<W: Sink>(script: &WholeScript<Counter>, sink: &mut W) -> Result<(), Stop>
    requires made { (s : ScriptMeaning) × IsCounted script.now s }
    ensures { (s : ScriptMeaning) → IsCounted script.now s
        → AnswersRead (λ x. x ≡ text_answer (counts_of s)) (W.output sink.old) (W.output sink.new) result }
{
    Ok(write_counts(sink, script.objects.len() as u32, script.commands)?)
}

/// Answers with how many events a good trace has.
fn answer_trace<W: Sink>(alloc: Global, bytes: &[u8], sink: &mut W) -> Result<(), Stop>
    ensures { AnswersRead (IsTraceAnswer bytes.now) (W.output sink.old) (W.output sink.new) result }
{
    if bytes.len() > MOST_INPUT_BYTES {
        return Err(Stop::Bad {
            line: 0,
            kind: BadKind::TooLong,
        });
    }
    match check_trace(alloc, bytes)? {
        TraceAnswer::Good { events } => Ok(write_events(sink, events)?),
        TraceAnswer::Bad { line } => Err(Stop::Bad {
            line,
            kind: BadKind::Step,
        }),
    }
}
