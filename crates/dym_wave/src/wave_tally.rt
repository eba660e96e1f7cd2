//! What objects that run in waves come to.
ghost use Rattle.std.specs.Prelude.{◌≡◌, ◌+◌, ◌≤◌, false, IfOk, length, map, sum_by, vec_len, All};
ghost use Rattle.dym_base.specs.declared.limits.TheConstants.{MOST_COMMANDS, MOST_OBJECTS};
ghost use Rattle.dym_script.specs.OwnCommands.{own_of, IsRunnable};
ghost use Rattle.dym_wave.specs.Reports.{tally_all};
ghost use Rattle.dym_wave.specs.Parts.{IsShape};

use crate::consumer::Consumer;
use crate::object_queue::run_all;
use crate::report_options::ReportOptions;
use crate::shape::Shape;
use crate::wave_options::WaveOptions;
use crate::wave_sum::WaveSum;
use crate::work::Work;
use dym_base::Version;
use dym_base::limits::{MOST_COMMANDS, MOST_OBJECTS};
use dym_pool::Gate;
use dym_report::Tally;
use dym_script::Part;
use std::alloc::{AllocError, Global};
use std::convert::Infallible;
use std::sync::Wait;
use std::thread::Threads;

/// Each object is counted.
struct Count;

impl<R: Wait> Consumer<R> for Count {
    type Output = WaveSum;

    type Fail = Infallible;

    ghost use Rattle.dym_wave.specs.Sums.{CanAdd, IsSumWith};

    ghost MAKES_TEXT = { false };

    ghost can_take = { CanAdd };

    ghost takes = { IsSumWith };

    ghost fails = { λ _ _ _ _. ⊥ };

    const MAKES_TEXT: bool = false;

    fn take(sum: &mut WaveSum, work: &Work<R>) -> Result<(), Infallible> {
        sum.tally = sum.tally.and(work.tally());
        sum.objects += 1;
        Ok(())
    }
}

/// What objects come to together. They run in waves, as where their parts are written.
///
/// The gate is told of each wave and each turn. A call may wait for other threads.
pub fn tally_waves<R: Threads + Wait + Send + Sync, G: Gate>(
    rt: &R,
    alloc: Global,
    version: Version,
    parts: Vec<Part>,
    shape: Shape,
    gate: &G,
) -> Result<Tally, AllocError>
    requires runnable { All IsRunnable parts.items }
    requires shape { IsShape shape }
    requires fits { All (λ part. part.decl.quota ≤ shape.segments) parts.items }
    requires objects { vec_len parts ≤ MOST_OBJECTS }
    requires commands { sum_by (λ part. length part.commands) parts.items ≤ MOST_COMMANDS }
    ensures counted { IfOk result (λ tally. tally ≡ tally_all version (map own_of parts.items)) }
    ensures replies { IfOk result (λ tally.
        tally.ok + tally.refused ≡ sum_by (λ part. length part.commands) parts.items) }
{
    let report = ReportOptions {
        version,
        views: false,
    };
    let options = WaveOptions { report, shape };
    let mut sum = WaveSum::none();
    match run_all::<R, G, Count>(rt, alloc, options, parts, gate, &mut sum) {
        Ok(()) => Ok(sum.tally),
        Err(_) => Err(AllocError),
    }
}
