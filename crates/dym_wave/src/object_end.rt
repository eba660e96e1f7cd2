//! What stays of an object that ran all its commands.
ghost use Rattle.std.specs.Prelude.{◌≡◌, ◌≤◌, ℕ, true, List, Option, None, IfOk, is_some, length};
ghost use Rattle.dym_base.specs.declared.limits.TheConstants.{MOST_COMMANDS};
ghost use Rattle.dym_report.specs.declared.late_lines.ViewLine.{ViewLine};
ghost use Rattle.dym_wave.specs.Results.{IsTallyOf, shown_text};
ghost use Rattle.dym_wave.specs.States.{CanEnd, IsStarted, IsState, object_shown, ran_by, state_origin};
ghost use Rattle.dym_wave.specs.Works.{object_origin};
ghost use Rattle.dym_wave.specs.declared.work_state.WorkState.TheVariants.{Running};

use crate::part_text::text_of;
use crate::work_state::{Own, WorkSpec, WorkState};
use dym_base::limits::MOST_COMMANDS;
use dym_chain::{LogKeep, SlotKeep};
use dym_commands::Replies;
use dym_object::Object;
use dym_quota::Berth;
use dym_report::{Tally, ViewLine};
use std::alloc::AllocError;
use std::sync::Wait;

/// The state of a work that ran all its commands, once its object is ended. Where the text of its part is to be made and is long, or there is
/// no memory for it, the state stays as it is.
pub(crate) fn end_object<R: Wait>(
    state: WorkState<R>,
    with: (&R, &WorkSpec, Option<Option<ViewLine>>),
) -> (WorkState<R>, ())
    requires few { length with.1.now.commands ≤ MOST_COMMANDS }
    requires state { IsState with.1.now (is_some with.2) state }
    requires ended { CanEnd with.1.now with.2 state }
    ensures state { IsState with.entry.1.now (is_some with.entry.2) result.0 }
    ensures origin { state_origin with.entry.1.now.version result.0
        ≡ state_origin with.entry.1.now.version state }
    ensures ran { ran_by with.entry.1.now.commands result.0
        ≡ ran_by with.entry.1.now.commands state }
    ensures started { IsStarted state → IsStarted result.0 }
{
    let (rt, spec, line) = with;
    match state {
        WorkState::Running { turn, replies } => { (end_running(rt, spec, line, turn, replies), ()) }
        other => (other, ()),
    }
}

/// Ends an object that ran all its commands. Where the text of its part is to be made and can't be, it stays as it is.
fn end_running<R: Wait>(
    rt: &R,
    spec: &WorkSpec,
    line: Option<Option<ViewLine>>,
    turn: Own<R>,
    replies: Replies,
) -> WorkState<R>
    requires few { length spec.now.commands ≤ MOST_COMMANDS }
    requires state { IsState spec.now (is_some line) (Running turn replies) }
    requires ended { CanEnd spec.now line (Running turn replies) }
    ensures state { IsState spec.now (is_some line) result }
    ensures origin { state_origin spec.now.version result ≡ object_origin turn.object }
    ensures ran { ran_by spec.now.commands result ≡ length spec.now.commands }
    ensures started { IsStarted result }
{
    let Ok(text) = asked_text(spec, line, &turn.object, &replies) else {
        return WorkState::Running { turn, replies };
    };
    let tally = tally_of(&replies, &turn.object);
    let (berth, keep) = turn.into_object().end(rt);
    WorkState::Ended {
        text,
        tally,
        berth,
        keep: keep_first(keep),
    }
}

/// The text of a part, where it is to be made, and else none.
fn asked_text<R: Wait>(
    spec: &WorkSpec,
    line: Option<Option<ViewLine>>,
    object: &Object<Berth<R>, SlotKeep>,
    replies: &Replies,
) -> Result<Vec<u8>, AllocError>
    ensures { IfOk result (λ text. spec.now.makes_text ≡ true → text.items
        ≡ shown_text (object_shown spec.now.name replies.now.replies object.now line)) }
{
    if spec.makes_text {
        text_of(spec.alloc, &spec.name, replies, object, line)
    } else {
        Ok(Vec::new(spec.alloc))
    }
}

/// What an object comes to that gave these replies.
pub(crate) fn tally_of<R: Wait>(replies: &Replies, object: &Object<Berth<R>, SlotKeep>) -> Tally
    requires { length replies.now.replies ≤ MOST_COMMANDS }
    ensures { (name : List ℕ) (line : Option (Option ViewLine))
        → IsTallyOf result (object_shown name replies.now.replies object.now line) }
{
    Tally::of(
        replies.len() as u32,
        replies.refusals() as u32,
        object.heap(),
        object.kept(),
        object.slots(),
    )
}

/// A keep of which only the first record stays.
fn keep_first(mut keep: SlotKeep) -> SlotKeep
    requires { keep.lifted ≡ None }
    ensures idle { result.lifted ≡ None }
    ensures origin { result.origin ≡ keep.origin }
{
    if keep.len() > 0 {
        keep.drop_after(0);
    }
    keep
}
