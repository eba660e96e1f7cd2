//! The parts of objects that run in waves, written as each wave ends.
ghost use Rattle.std.specs.Prelude.{◌≡◌, ◌≤◌, ⊤, true, vec_len, All};
ghost use Rattle.dym_base.specs.declared.limits.TheConstants.{MOST_OBJECTS};
ghost use Rattle.dym_io.specs.Sink.{Appended, Stopped, WritesOr};
ghost use Rattle.dym_script.specs.OwnCommands.{IsRunnable};
ghost use Rattle.dym_report.specs.declared.write_fail.WriteFail.TheVariants.{Sink as SinkFailed};
ghost use Rattle.dym_wave.specs.Parts.{IsShape};
ghost use Rattle.dym_wave.specs.Results.{parts_text};

use crate::consumer::Consumer;
use crate::object_queue::run_all;
use crate::run_fail::RunFail;
use crate::wave_options::WaveOptions;
use crate::work::Work;
use dym_base::limits::MOST_OBJECTS;
use dym_io::{Sink, SinkFault};
use dym_pool::Gate;
use dym_report::WriteFail;
use dym_script::Part;
use std::alloc::Global;
use std::marker::PhantomData;
use std::sync::Wait;
use std::thread::Threads;

/// Each object's part is written.
struct Report<W> {
    marker: PhantomData<W>,
}

impl<R: Wait, W: Sink> Consumer<R> for Report<W> {
    type Output = W;

    type Fail = SinkFault;

    ghost use Rattle.dym_wave.specs.Results.{shown_text};

    ghost MAKES_TEXT = { true };

    ghost can_take = { λ _ _. ⊤ };

    ghost takes = { λ old s new. Appended (W.output old) (W.output new) (shown_text s) };

    ghost fails = { λ old s new _. Stopped (W.output old) (W.output new) (shown_text s) };

    const MAKES_TEXT: bool = true;

    fn take(sink: &mut W, work: &Work<R>) -> Result<(), SinkFault> {
        work.write(sink)
    }
}

/// Writes the parts of objects, in their order, and behind each the line of its view where views are told: what a viewer sees, in the
/// end, of the oldest log that the object keeps. The objects run in waves: as many side by side as have room in the segments, by these
/// workers, in turns of at most so many commands. Where views are told, each object publishes its oldest kept log at the end of each
/// turn, and a thread looks at all of them. The text is the same whatever the numbers of workers, segments and commands.
///
/// The gate is told of each wave and each turn. A call may wait for other threads.
pub fn write_waves<R: Threads + Wait + Send + Sync, G: Gate, W: Sink>(
    rt: &R,
    alloc: Global,
    options: WaveOptions,
    parts: Vec<Part>,
    gate: &G,
    sink: &mut W,
) -> Result<(), WriteFail>
    requires runnable { All IsRunnable parts.items }
    requires shape { IsShape options.shape }
    requires fits { All (λ part. part.decl.quota ≤ options.shape.segments) parts.items }
    requires objects { vec_len parts ≤ MOST_OBJECTS }
    ensures { WritesOr (λ fail. fail ≡ SinkFailed) (W.output sink.old) (W.output sink.new)
        (parts_text options.report parts.items) result }
{
    match run_all::<R, G, Report<W>>(rt, alloc, options, parts, gate, sink) {
        Ok(()) => Ok(()),
        Err(RunFail::Memory) => Err(WriteFail::Memory),
        Err(RunFail::Refused(_)) => Err(WriteFail::Sink),
    }
}
