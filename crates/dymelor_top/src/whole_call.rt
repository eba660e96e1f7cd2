//! The top call that may start threads.
ghost use Rattle.std.specs.Prelude.{◌≡◌, if◌then◌else◌, map, string_bytes};
ghost use Rattle.dym_words.specs.Orders.{order};
ghost use Rattle.dymelor_top.specs.Calls.{AnswersOrder};
ghost use Rattle.dymelor_top.specs.Headline.{Headline};
ghost use Rattle.dymelor_top.specs.declared.waves.WaveText.TheVariants.{Report, Summary};

use crate::answer::answer_order;
use crate::finish::finish;
use crate::stop::Stop;
use crate::waves::{WaveText, Waves, answer_in_waves};
use dym_io::{Sink, Source};
use dym_pool::Gate;
use dym_wave::Shape;
use dym_words::{Input, Order, read_words};
use std::alloc::Global;
use std::sync::Wait;
use std::thread::Threads;

/// Serves the words of a command line, and answers the status: 0 and the whole answer, 1 for words of no order, 2 and the line of the
/// first fault of a bad input, 3 and 4 where the source or the sink failed, 5 where memory ran out.
///
/// For `run` and `views` it runs the objects of a script in waves, by workers for which it may wait; all else it serves as
/// `dymelor_still` does. The gate is told of each wave and each turn.
pub fn dymelor<R: Threads + Wait + Send + Sync, S: Source, W: Sink, G: Gate>(
    rt: &R,
    alloc: Global,
    words: &[String],
    source: &mut S,
    sink: &mut W,
    gate: &G,
) -> u8
    requires { S.goes_on source.old }
    ensures { Headline (order (map string_bytes words.now))
        (record { left = S.left source.old; faults = S.faults source.old })
        (record { left = S.left source.new; faults = S.faults source.new })
        (W.output sink.old) (W.output sink.new) result }
{
    let answered = answer_words(rt, alloc, words, source, sink, gate);
    finish(answered, sink)
}

/// Answers words of a command line.
fn answer_words<R: Threads + Wait + Send + Sync, S: Source, W: Sink, G: Gate>(
    rt: &R,
    alloc: Global,
    words: &[String],
    source: &mut S,
    sink: &mut W,
    gate: &G,
) -> Result<(), Stop>
    requires { S.goes_on source.old }
    ensures { AnswersOrder (order (map string_bytes words.now))
        (record { left = S.left source.old; faults = S.faults source.old })
        (record { left = S.left source.new; faults = S.faults source.new })
        (W.output sink.old) (W.output sink.new) result }
{
    match read_words(words)? {
        Order::Run {
            workers,
            segments,
            quantum,
            input,
            summary,
        } => {
            let shape = Shape {
                workers,
                segments,
                quantum,
            };
            let text = run_text(summary);
            answer_in_waves(rt, alloc, input, Waves { shape, text }, source, sink, gate)
        }
        Order::Views {
            workers,
            segments,
            quantum,
        } => {
            let shape = Shape {
                workers,
                segments,
                quantum,
            };
            let text = WaveText::Views;
            answer_in_waves(
                rt,
                alloc,
                Input::Script,
                Waves { shape, text },
                source,
                sink,
                gate,
            )
        }
        order => answer_order(alloc, order, source, sink),
    }
}

/// What the order `run` writes.
fn run_text(summary: bool) -> WaveText
    ensures { result ≡ if summary then Summary else Report }
{
    if summary {
        WaveText::Summary
    } else {
        WaveText::Report
    }
}
