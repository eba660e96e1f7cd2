//! What becomes of the late events of one object, and its part of the report.
ghost use Rattle.std.specs.Prelude.{◌≡◌, ◌+◌, ◌<◌, ◌≤◌, [], ◌∷◌, All, false, length, count_by, flat_map, IfOk, OnOk};
ghost use Rattle.dym_base.specs.declared.limits.TheConstants.{MOST_QUOTA};
ghost use Rattle.dym_io.specs.Sink.{Writes as WritesText, WritesOr};
ghost use Rattle.dym_base.specs.declared.limits.TheConstants.{MOST_LATE_EVENTS};
ghost use Rattle.dym_report.specs.Late.{late_line};
ghost use Rattle.dym_script.specs.Late.{is_event};
ghost use Rattle.dym_script.specs.LateArrivals.{MayAct, arrival};
ghost use Rattle.dymelor_top.specs.LateReport.{outcome_at, outcome_of, outcome_text, late_part};
ghost use Rattle.dymelor_top.specs.LateParts.{IsLatePart, IsOneOf, TookIn, arrivals_by, late_part_text};
ghost use Rattle.dym_report.specs.declared.write_fail.WriteFail.TheVariants.{Sink as SinkFailed};

use crate::late_outcome::LateOutcome;
use crate::late_parts::LatePart;
use crate::segment_store::SegmentStore;
use dym_base::Name;
use dym_io::{Sink, SinkFault};
use dym_late::{LateError, LateHeap};
use dym_quota::OwnSupply;
use dym_report::{LateOut, WriteFail, write_heading, write_late_end, write_late_line};
use dym_script::LateAct;
use std::alloc::{AllocError, Global};

/// Hands in what comes for an object, and writes its part. Its segments are lent, and back when the call returns.
pub fn write_late_part<W: Sink>(
    alloc: Global,
    part: LatePart,
    segment_store: &mut SegmentStore,
    sink: &mut W,
) -> Result<(), WriteFail>
    requires { IsLatePart part }
    ensures { WritesOr (λ fail. fail ≡ SinkFailed) (W.output sink.old) (W.output sink.new)
        (late_part_text part) result }
{
    let LatePart { decl, acts } = part;
    let mut late = open_late(alloc, segment_store, decl.quota)?;
    let written = write_run(alloc, &mut late, &decl.name, acts, sink);
    segment_store.take_back(late.end(&()));
    written
}

/// A heap of late events with no event, whose segments are lent.
fn open_late(
    alloc: Global,
    segment_store: &mut SegmentStore,
    quota: u32,
) -> Result<LateHeap<OwnSupply>, AllocError>
    requires least { 1 ≤ quota }
    requires most { quota ≤ MOST_QUOTA }
    ensures events { IfOk result (λ late. late.events ≡ []) }
    ensures bound { IfOk result (λ late. late.bound ≡ 0) }
    ensures whole { IfOk result (λ late. late.broken ≡ false) }
    ensures quota { IfOk result (λ late. late.heap.quota ≡ quota) }
{
    let supply = segment_store.lend(alloc, quota)?;
    match LateHeap::open(&(), alloc, supply) {
        Ok(late) => Ok(late),
        Err((error, _)) => Err(error),
    }
}

/// Hands in what comes for a heap of late events that was just opened, and writes its object's part.
fn write_run<W: Sink>(
    alloc: Global,
    late: &mut LateHeap<OwnSupply>,
    name: &Name,
    acts: Vec<LateAct>,
    sink: &mut W,
) -> Result<(), WriteFail>
    requires events { late.old.events ≡ [] }
    requires bound { late.old.bound ≡ 0 }
    requires whole { late.old.broken ≡ false }
    requires acts { All MayAct acts.items }
    requires few { count_by is_event acts.items ≤ MOST_LATE_EVENTS }
    ensures { WritesOr (λ fail. fail ≡ SinkFailed) (W.output sink.old) (W.output sink.new)
        (late_part name.now late.old.heap.quota (arrivals_by acts.items)) result }
{
    let outcome = take_all(alloc, late, acts)?;
    write_heading(sink, name)?;
    write_lines(late, &outcome, sink)?;
    write_late_end(sink, late.heap(), late.replayed())?;
    Ok(())
}

/// Takes in all that comes for a heap of late events, and answers what became of each line.
fn take_all(
    alloc: Global,
    late: &mut LateHeap<OwnSupply>,
    acts: Vec<LateAct>,
) -> Result<Vec<LateOutcome>, AllocError>
    requires events { late.old.events ≡ [] }
    requires bound { late.old.bound ≡ 0 }
    requires whole { late.old.broken ≡ false }
    requires acts { All MayAct acts.items }
    requires few { count_by is_event acts.items ≤ MOST_LATE_EVENTS }
    ensures took { OnOk result (TookIn late.old late.new (arrivals_by acts.items)) }
    ensures outcome { IfOk result (λ outcome. outcome.items ≡ outcome_of (arrivals_by acts.items)) }
{
    let mut outcome = Vec::with_capacity(alloc, acts.len())?;
    for act in acts {
        let became = take_in(alloc, late, act)?;
        outcome.push(became)?;
    }
    Ok(outcome)
}

/// Takes in what one line says, and answers what became of it.
fn take_in(
    alloc: Global,
    late: &mut LateHeap<OwnSupply>,
    act: LateAct,
) -> Result<LateOutcome, AllocError>
    requires whole { late.old.broken ≡ false }
    requires may { MayAct act }
    requires room { length late.old.events + count_by is_event (act ∷ []) ≤ MOST_LATE_EVENTS }
    ensures took { OnOk result (TookIn late.old late.new (arrival act ∷ [])) }
    ensures outcome { IfOk result (λ outcome.
        outcome ≡ outcome_at late.old.bound (length late.old.events) (arrival act)) }
{
    match act {
        LateAct::At { time, command } => {
            let number = late.len();
            match late.put(&(), alloc, time, command) {
                Ok(_) => Ok(LateOutcome::Accepted { number }),
                Err(LateError::Early { bound, .. }) => Ok(LateOutcome::Early { bound }),
                Err(LateError::Memory) => Err(AllocError),
            }
        }
        LateAct::Commit { time } => {
            late.commit(time);
            Ok(LateOutcome::Committed)
        }
    }
}

/// Writes what each line gets, once all events are in. The only error is that of the sink.
fn write_lines<W: Sink>(
    late: &LateHeap<OwnSupply>,
    outcome: &[LateOutcome],
    sink: &mut W,
) -> Result<(), SinkFault>
    requires whole { late.now.broken ≡ false }
    requires there { All (IsOneOf (length late.now.events)) outcome.now }
    ensures { WritesText (W.output sink.old) (W.output sink.new)
        (flat_map (outcome_text late.now.heap.quota late.now.events) outcome.now) result }
{
    for line in outcome {
        write_late_line(sink, out_of(late, *line))?;
    }
    Ok(())
}

/// What a line gets.
fn out_of(late: &LateHeap<OwnSupply>, outcome: LateOutcome) -> LateOut<'_>
    requires whole { late.now.broken ≡ false }
    requires there { IsOneOf (length late.now.events) outcome }
    ensures { late_line result ≡ outcome_text late.now.heap.quota late.now.events outcome }
{
    match outcome {
        LateOutcome::Accepted { number } => LateOut::Reply(late.reply(number)),
        LateOutcome::Early { bound } => LateOut::Early { bound },
        LateOutcome::Committed => LateOut::Committed,
    }
}
