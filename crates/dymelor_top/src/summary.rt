//! The order `plain --summary`: one object after another, counted as it ends.
ghost use Rattle.std.specs.Prelude.{◌≡◌, ◌+◌, ◌≤◌, ◌^◌, length, map, sum_by, count_by, IfOk, OnOk, All};
ghost use Rattle.dym_base.specs.Objects.{object_start, replies_from, object_after};
ghost use Rattle.dym_base.specs.declared.limits.TheConstants.{MOST_OBJECTS, MOST_COMMANDS, MOST_QUOTA};
ghost use Rattle.dym_object.specs.Meaning.{state_of};
ghost use Rattle.dym_script.specs.Scripts.{ScriptMeaning};
ghost use Rattle.dym_script.specs.ByObjects.{IsByObjects};
ghost use Rattle.dym_script.specs.OwnCommands.{IsRunnable, own_of};
ghost use Rattle.dym_report.specs.Summary.{is_refusal};
ghost use Rattle.dym_wave.specs.Reports.{tally_of, tally_all, totals_of};

use crate::plain_order::open_object;
use crate::segment_store::SegmentStore;
use dym_base::{Reply, Version, laws};
use dym_chain::VecKeep;
use dym_commands::Commands;
use dym_object::Turn;
use dym_quota::OwnSupply;
use dym_report::{Tally, Totals};
use dym_script::{Part, PartCollector, WholeScript};
use std::alloc::{AllocError, Global};

/// What the objects of a script come to.
pub fn total(alloc: Global, script: &WholeScript<PartCollector>) -> Result<Totals, AllocError>
    requires made { (s : ScriptMeaning) × IsByObjects script.now s }
    ensures { IfOk result (λ totals. (s : ScriptMeaning) → IsByObjects script.now s → totals ≡ totals_of s) }
{
    let tally = tally_parts(alloc, script.version, &script.kept.parts)?;
    Ok(tally.totals(script.kept.parts.len() as u32))
}

/// What objects come to together.
fn tally_parts(alloc: Global, version: Version, parts: &[Part]) -> Result<Tally, AllocError>
    requires runnable { All IsRunnable parts.now }
    requires objects { length parts.now ≤ MOST_OBJECTS }
    requires commands { sum_by (λ part. length part.commands) parts.now ≤ MOST_COMMANDS }
    ensures counted { IfOk result (λ tally. tally ≡ tally_all version (map own_of parts.now)) }
    ensures replies { IfOk result (λ tally.
        tally.ok + tally.refused ≡ sum_by (λ part. length part.commands) parts.now) }
{
    let mut tally = Tally::none();
    let mut segment_store = SegmentStore::new(alloc);
    for part in parts {
        tally = tally.and(tally_part(alloc, version, part, &mut segment_store)?);
    }
    Ok(tally)
}

/// Opens an object, runs its commands and counts what it comes to. Its segments are lent, and back when the call returns.
fn tally_part(
    alloc: Global,
    version: Version,
    part: &Part,
    segment_store: &mut SegmentStore,
) -> Result<Tally, AllocError>
    requires { IsRunnable part.now }
    ensures counted { IfOk result (λ tally. tally ≡ tally_of version (own_of part.now)) }
    ensures replies { IfOk result (λ tally. tally.ok + tally.refused ≡ length part.now.commands) }
    ensures chunks { IfOk result (λ tally. tally.chunks ≤ 2 ^ 37) }
    ensures segments { IfOk result (λ tally. tally.segments ≤ MOST_QUOTA) }
    ensures kept { IfOk result (λ tally. tally.kept ≤ 256) }
    ensures slots { IfOk result (λ tally. tally.slots ≤ 287) }
{
    let object = open_object(alloc, version, segment_store, part.decl.quota)?;
    let mut turn = Turn::new(alloc, object);
    let tally = tally_run(&mut turn, part);
    let (supply, _) = turn.into_object().end(&());
    segment_store.take_back(supply);
    tally
}

/// Runs the commands of an object that was just opened, and counts what it comes to.
fn tally_run(turn: &mut Turn<OwnSupply, VecKeep>, part: &Part) -> Result<Tally, AllocError>
    requires runnable { IsRunnable part.now }
    requires quota { turn.old.object.heap.quota ≡ part.now.decl.quota }
    requires start { state_of turn.old.object ≡ object_start }
    requires ran { turn.old.object.ran ≡ 0 }
    ensures counted { IfOk result
        (λ tally. tally ≡ tally_of turn.old.object.heap.version (own_of part.now)) }
    ensures replies { IfOk result (λ tally. tally.ok + tally.refused ≡ length part.now.commands) }
    ensures chunks { IfOk result (λ tally. tally.chunks ≤ 2 ^ 37) }
    ensures segments { IfOk result (λ tally. tally.segments ≤ MOST_QUOTA) }
    ensures kept { IfOk result (λ tally. tally.kept ≤ 256) }
    ensures slots { IfOk result (λ tally. tally.slots ≤ 287) }
{
    laws::runs_keep_logs();
    let refused = refusals(turn, &part.commands)?;
    let object = &turn.object;
    let replies = part.commands.len() as u32;
    Ok(Tally::of(
        replies,
        refused,
        object.heap(),
        object.kept(),
        object.slots(),
    ))
}

/// Runs commands of an object that ran none yet, and counts those that it refuses.
fn refusals(turn: &mut Turn<OwnSupply, VecKeep>, commands: &Commands) -> Result<u32, AllocError>
    requires few { length commands.now ≤ MOST_COMMANDS }
    requires ran { turn.old.object.ran ≡ 0 }
    ensures within { IfOk result (λ n. n ≤ length commands.now) }
    ensures counted { IfOk result (λ n. n
        ≡ count_by is_refusal (replies_from turn.old.object.heap.version turn.old.object.heap.quota
        (state_of turn.old.object) commands.now)) }
    ensures state { OnOk result (state_of turn.new.object
        ≡ object_after turn.old.object.heap.version turn.old.object.heap.quota
        (state_of turn.old.object) commands.now) }
{
    let mut refused = 0;
    for k in 0..commands.len() {
        commands.run(k, &(), turn)?;
        if is_refusal(&turn.reply) {
            refused += 1;
        }
    }
    Ok(refused)
}

/// Whether a reply is a refusal.
fn is_refusal(reply: &Reply) -> bool
    ensures { result ≡ is_refusal reply.now }
{
    matches!(reply, Reply::Refused(_))
}
