//! The order `plain`: one object after another, each part written, or counted, as its object ends.
ghost use Rattle.std.specs.Prelude.{◌≡◌, ◌≤◌, [], length, flat_map, IfOk, OnOk, All};
ghost use Rattle.dym_base.specs.Objects.{object_start, replies_from, object_after};
ghost use Rattle.dym_base.specs.declared.limits.TheConstants.{MOST_QUOTA, MOST_COMMANDS};
ghost use Rattle.dym_io.specs.Sink.{WritesOr};
ghost use Rattle.dym_object.specs.Meaning.{state_of};
ghost use Rattle.dym_report.specs.Replies.{reply_line};
ghost use Rattle.dym_script.specs.Scripts.{ScriptMeaning};
ghost use Rattle.dym_script.specs.ByObjects.{IsByObjects};
ghost use Rattle.dym_script.specs.OwnCommands.{IsRunnable, own_of};
ghost use Rattle.dym_wave.specs.Reports.{part_text, report_text, summary_of};
ghost use Rattle.dymelor_top.specs.Answers.{report_or_summary};
ghost use Rattle.dym_report.specs.declared.write_fail.WriteFail.TheVariants.{Sink as SinkFailed};

use crate::segment_store::SegmentStore;
use crate::summary::total;
use dym_base::Version;
use dym_chain::VecKeep;
use dym_commands::Commands;
use dym_io::Sink;
use dym_object::{Object, Turn};
use dym_quota::OwnSupply;
use dym_report::{Page, WriteFail, write_end, write_heading, write_state, write_summary};
use dym_script::{Part, PartCollector, WholeScript};
use std::alloc::{AllocError, Global};

/// Writes the report of a script, or its summary, one object after another.
pub fn write_plain<W: Sink>(
    alloc: Global,
    summary: bool,
    script: &WholeScript<PartCollector>,
    sink: &mut W,
) -> Result<(), WriteFail>
    requires made { (s : ScriptMeaning) × IsByObjects script.now s }
    ensures { (s : ScriptMeaning) → IsByObjects script.now s
        → WritesOr (λ fail. fail ≡ SinkFailed) (W.output sink.old) (W.output sink.new)
        (report_or_summary summary s) result }
{
    if summary {
        write_totals(alloc, script, sink)
    } else {
        write_report(alloc, script, sink)
    }
}

/// Writes the summary of a script.
fn write_totals<W: Sink>(
    alloc: Global,
    script: &WholeScript<PartCollector>,
    sink: &mut W,
) -> Result<(), WriteFail>
    requires made { (s : ScriptMeaning) × IsByObjects script.now s }
    ensures { (s : ScriptMeaning) → IsByObjects script.now s
        → WritesOr (λ fail. fail ≡ SinkFailed) (W.output sink.old) (W.output sink.new)
        (summary_of s) result }
{
    let totals = total(alloc, script)?;
    write_summary(sink, &totals)?;
    Ok(())
}

/// Writes the report of a script, one object after another.
fn write_report<W: Sink>(
    alloc: Global,
    script: &WholeScript<PartCollector>,
    sink: &mut W,
) -> Result<(), WriteFail>
    requires made { (s : ScriptMeaning) × IsByObjects script.now s }
    ensures { (s : ScriptMeaning) → IsByObjects script.now s
        → WritesOr (λ fail. fail ≡ SinkFailed) (W.output sink.old) (W.output sink.new)
        (report_text s) result }
{
    write_parts(alloc, script.version, &script.kept.parts, sink)?;
    write_end(sink)?;
    Ok(())
}

/// Writes the parts of objects, in their order.
fn write_parts<W: Sink>(
    alloc: Global,
    version: Version,
    parts: &[Part],
    sink: &mut W,
) -> Result<(), WriteFail>
    requires { All IsRunnable parts.now }
    ensures { WritesOr (λ fail. fail ≡ SinkFailed) (W.output sink.old) (W.output sink.new)
        (flat_map (λ part. part_text version (own_of part)) parts.now) result }
{
    let mut segment_store = SegmentStore::new(alloc);
    for part in parts {
        write_part(alloc, version, part, &mut segment_store, sink)?;
    }
    Ok(())
}

/// Opens an object, runs its commands and writes its part. Its segments are lent, and back when the call returns.
fn write_part<W: Sink>(
    alloc: Global,
    version: Version,
    part: &Part,
    segment_store: &mut SegmentStore,
    sink: &mut W,
) -> Result<(), WriteFail>
    requires { IsRunnable part.now }
    ensures { WritesOr (λ fail. fail ≡ SinkFailed) (W.output sink.old) (W.output sink.new)
        (part_text version (own_of part.now)) result }
{
    let object = open_object(alloc, version, segment_store, part.decl.quota)?;
    let mut turn = Turn::new(alloc, object);
    let written = write_run(&mut turn, part, sink);
    let (supply, _) = turn.into_object().end(&());
    segment_store.take_back(supply);
    written
}

/// An object with an empty heap and no log, whose segments are lent and whose records are its own.
pub fn open_object(
    alloc: Global,
    version: Version,
    segment_store: &mut SegmentStore,
    quota: u32,
) -> Result<Object<OwnSupply, VecKeep>, AllocError>
    requires least { 1 ≤ quota }
    requires most { quota ≤ MOST_QUOTA }
    ensures version { IfOk result (λ o. o.heap.version ≡ version) }
    ensures quota { IfOk result (λ o. o.heap.quota ≡ quota) }
    ensures start { IfOk result (λ o. state_of o ≡ object_start) }
    ensures base_logs { IfOk result (λ o. o.chain.base_logs ≡ []) }
    ensures ran { IfOk result (λ o. o.ran ≡ 0) }
{
    let supply = segment_store.lend(alloc, quota)?;
    let keep = VecKeep::open(alloc)?;
    match Object::open_as(alloc, supply, keep, version) {
        Ok(object) => Ok(object),
        Err((error, _, _)) => Err(error),
    }
}

/// Runs the commands of an object that was just opened, and writes its part.
fn write_run<W: Sink>(
    turn: &mut Turn<OwnSupply, VecKeep>,
    part: &Part,
    sink: &mut W,
) -> Result<(), WriteFail>
    requires runnable { IsRunnable part.now }
    requires quota { turn.old.object.heap.quota ≡ part.now.decl.quota }
    requires start { state_of turn.old.object ≡ object_start }
    requires ran { turn.old.object.ran ≡ 0 }
    ensures { WritesOr (λ fail. fail ≡ SinkFailed) (W.output sink.old) (W.output sink.new)
        (part_text turn.old.object.heap.version (own_of part.now)) result }
{
    write_heading(sink, &part.decl.name)?;
    run_and_write(turn, &part.commands, sink)?;
    let object = &turn.object;
    write_state(sink, object.heap(), object.kept(), object.slots())?;
    Ok(())
}

/// Runs commands, and writes their replies, as many together as a page has room for.
fn run_and_write<W: Sink>(
    turn: &mut Turn<OwnSupply, VecKeep>,
    commands: &Commands,
    sink: &mut W,
) -> Result<(), WriteFail>
    requires few { length commands.now ≤ MOST_COMMANDS }
    requires ran { turn.old.object.ran ≡ 0 }
    ensures replies { WritesOr (λ fail. fail ≡ SinkFailed) (W.output sink.old) (W.output sink.new)
        (flat_map reply_line (replies_from turn.old.object.heap.version turn.old.object.heap.quota
        (state_of turn.old.object) commands.now))
        result }
    ensures state { OnOk result (state_of turn.new.object
        ≡ object_after turn.old.object.heap.version turn.old.object.heap.quota
        (state_of turn.old.object) commands.now) }
    ensures version { OnOk result (turn.new.object.heap.version ≡ turn.old.object.heap.version) }
{
    let mut page = Page::new();
    for k in 0..commands.len() {
        commands.run(k, &(), turn)?;
        page.add(sink, &turn.reply)?;
    }
    page.write(sink)?;
    Ok(())
}
