//! The order `save`: the checkpoint file of one object of a script.
ghost use Rattle.std.specs.Prelude.{◌≡◌, ◌≤◌, [], length, IsTrue, Option, None, Some, option_map, OnOk};
ghost use Rattle.std.specs.List.{find};
ghost use Rattle.std.specs.Str.{bytes_eq};
ghost use Rattle.dym_base.specs.Names.{is_name};
ghost use Rattle.dym_base.specs.Objects.{object_start};
ghost use Rattle.dym_base.specs.declared.limits.TheConstants.{MOST_COMMANDS};
ghost use Rattle.dym_object.specs.Meaning.{HasRun, IsWhole, state_of};
ghost use Rattle.dym_script.specs.Scripts.{ScriptMeaning};
ghost use Rattle.dym_script.specs.ByObjects.{IsByObjects};
ghost use Rattle.dymelor_top.specs.Checkpoints.{own_file, own_named};
ghost use Rattle.dym_script.specs.OwnCommands.{IsRunnable, own_of};
ghost use Rattle.dymelor_top.specs.Answers.{file_answer, named_answer};
ghost use Rattle.dymelor_top.specs.Calls.{AnswersRead};

use crate::plain_order::open_object;
use crate::segment_store::SegmentStore;
use crate::stop::Stop;
use dym_base::limits::MOST_INPUT_BYTES;
use dym_base::{BadKind, Name, Version};
use dym_chain::VecKeep;
use dym_ckpt::{save, saved_len};
use dym_commands::Commands;
use dym_io::Sink;
use dym_object::{LentObject, Turn, laws};
use dym_quota::OwnSupply;
use dym_script::{Part, PartCollector, WholeScript};
use std::alloc::{AllocError, Global};

/// Answers with the file of a script's object of this name, where there is one.
pub fn answer_saved<W: Sink>(
    alloc: Global,
    name: &Name,
    script: &WholeScript<PartCollector>,
    sink: &mut W,
) -> Result<(), Stop>
    requires made { (s : ScriptMeaning) × IsByObjects script.now s }
    ensures { (s : ScriptMeaning) → IsByObjects script.now s
        → AnswersRead (λ x. x ≡ named_answer s.version (own_named name.now s))
        (W.output sink.old) (W.output sink.new) result }
{
    match part_named(&script.kept.parts, name) {
        Some(part) => save_part(alloc, script.version, part, sink),
        None => Err(Stop::Bad {
            line: 0,
            kind: BadKind::Undeclared,
        }),
    }
}

/// The object of a name.
fn part_named<'a>(parts: &'a [Part], name: &Name) -> Option<&'a Part>
    ensures { option_map (λ part. part.now) result
        ≡ find (λ part. bytes_eq part.decl.name name.now) parts.now }
{
    parts.iter().find(|part| is_named(part, name))
}

/// Whether an object has a name.
fn is_named(part: &Part, name: &Name) -> bool
    ensures { result ≡ bytes_eq part.now.decl.name name.now }
{
    part.decl.name.bytes() == name.bytes()
}

/// Runs an object's own commands and writes its file.
fn save_part<W: Sink>(
    alloc: Global,
    version: Version,
    part: &Part,
    sink: &mut W,
) -> Result<(), Stop>
    requires runnable { IsRunnable part.now }
    requires named { IsTrue (is_name part.now.decl.name) }
    ensures { AnswersRead (λ x. x ≡ file_answer (own_file version (own_of part.now)))
        (W.output sink.old) (W.output sink.new) result }
{
    let mut segment_store = SegmentStore::new(alloc);
    let object = open_object(alloc, version, &mut segment_store, part.decl.quota)?;
    let mut turn = Turn::new(alloc, object);
    let ran = run_all(&mut turn, &part.commands);
    let mut object = turn.into_object().lend();
    let saved = save_run(ran, &mut object, part, sink);
    object.take_back().end(&());
    saved
}

/// Runs the commands of an object that was just opened. Their replies are not kept.
fn run_all(turn: &mut Turn<OwnSupply, VecKeep>, commands: &Commands) -> Result<(), AllocError>
    requires few { length commands.now ≤ MOST_COMMANDS }
    requires start { state_of turn.old.object ≡ object_start }
    requires base_logs { turn.old.object.chain.base_logs ≡ [] }
    requires ran { turn.old.object.ran ≡ 0 }
    ensures run { OnOk result (HasRun commands.now turn.new.object) }
    ensures version { turn.new.object.heap.version ≡ turn.old.object.heap.version }
    ensures quota { turn.new.object.heap.quota ≡ turn.old.object.heap.quota }
{
    laws::runs_go_on();
    for k in 0..commands.len() {
        commands.run(k, &(), turn)?;
    }
    Ok(())
}

/// Writes the file of an object that ran its own commands, where memory was there for all of them.
fn save_run<W: Sink>(
    ran: Result<(), AllocError>,
    object: &mut LentObject<OwnSupply, VecKeep>,
    part: &Part,
    sink: &mut W,
) -> Result<(), Stop>
    requires named { IsTrue (is_name part.now.decl.name) }
    requires run { OnOk ran (HasRun part.now.commands object.old) }
    requires quota { object.old.heap.quota ≡ part.now.decl.quota }
    requires whole { IsWhole object.old }
    ensures answered { AnswersRead
        (λ x. x ≡ file_answer (own_file object.old.heap.version (own_of part.now)))
        (W.output sink.old) (W.output sink.new) result }
    ensures same { object.new.chain ≡ object.old.chain }
{
    ran?;
    let version = object.heap().version();
    if saved_len(object, &part.decl.name) > MOST_INPUT_BYTES as u64 {
        return Err(Stop::Bad {
            line: 0,
            kind: BadKind::TooLong,
        });
    }
    Ok(save(object, &part.decl.name, part.decl.quota, version, sink)?)
}
