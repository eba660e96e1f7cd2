//! A work as a job: its turns.
ghost use Rattle.std.specs.Prelude.{◌≡◌, ◌+◌, ◌-◌, ◌<◌, ◌≤◌, false, length, min, is_err, IfSome, OnOk, OnErr};
ghost use Rattle.dym_base.specs.declared.limits.TheConstants.{MOST_COMMANDS};
ghost use Rattle.dym_wave.specs.Publications.{IsPublished, ViewGrows};
ghost use Rattle.dym_wave.specs.States.{RanFirst};
ghost use Rattle.dym_wave.specs.Works.{left_of, number_of, object_origin, origin_of};

use crate::object_end::end_object;
use crate::object_setup::open_object;
use crate::publication::{last_line, publish_where_told};
use crate::work::Work;
use crate::work_origin::WorkOrigin;
use crate::work_state::{Own, WorkSpec, WorkState};
use core::mem::replace_with;
use dym_base::limits::MOST_COMMANDS;
use dym_commands::{Commands, Replies};
use dym_pool::Job;
use dym_view::Publisher;
use std::alloc::AllocError;
use std::sync::Wait;

impl<R: Wait + Send + Sync> Job<R> for Work<R> {
    type Origin = WorkOrigin;

    ghost use Rattle.dym_wave.specs.Works.{left_of, number_of, origin_of};

    ghost number_of = { number_of };

    ghost left_of = { left_of };

    ghost origin_of = { origin_of };

    fn number(&self) -> u32 {
        self.spec.number
    }

    fn left(&self) -> u32 {
        if self.short {
            return 0;
        }
        let commands = self.spec.commands.len();
        match &self.state {
            WorkState::Waiting { .. } => commands as u32,
            WorkState::Running { turn: _, replies } => (commands - replies.len()) as u32,
            WorkState::Ended { .. } => 0,
        }
    }

    fn turn(&mut self, rt: &R)
        requires { 0 < left_of self.old }
        ensures number { number_of self.new ≡ number_of self.old }
        ensures origin { origin_of self.new ≡ origin_of self.old }
        ensures left { left_of self.new < left_of self.old }
        ensures view { ViewGrows self.old.view self.new.view }
        ensures grown { self.old.ran ≤ self.new.ran }
        ensures ran { self.new.short ≡ false
            → self.new.ran ≡ self.old.ran + min self.old.origin.quantum (left_of self.old) }
    {
        replace_with(&mut self.state, &self.spec, open_object::<R>);
        let WorkState::Running { turn, replies } = &mut self.state else {
            self.short = true;
            return;
        };
        let ran = run_turn(rt, &self.spec, turn, replies, &mut self.publisher);
        let all = replies.len() == self.spec.commands.len();
        self.short = ran.is_err();
        if all && !self.short {
            let line = last_line(&self.publisher);
            replace_with(&mut self.state, (rt, &self.spec, line), end_object::<R>);
        }
    }
}

/// Runs a turn's commands of an object, and publishes the oldest log that is kept then. Where memory is wanting, no more is run, and
/// nothing is published.
fn run_turn<R: Wait>(
    rt: &R,
    spec: &WorkSpec,
    turn: &mut Own<R>,
    replies: &mut Replies,
    publisher: &mut Option<Publisher>,
) -> Result<(), AllocError>
    requires ran { RanFirst spec.now.commands turn.old.object replies.old }
    requires few { length spec.now.commands ≤ MOST_COMMANDS }
    requires left { length replies.old.replies < length spec.now.commands }
    requires quantum { 1 ≤ spec.now.quantum }
    requires published { IfSome publisher.old
        (IsPublished turn.old.object.heap.version turn.old.object.heap.quota spec.now.commands
        (length replies.old.replies) false) }
    ensures ran { RanFirst spec.now.commands turn.new.object replies.new }
    ensures origin { object_origin turn.new.object ≡ object_origin turn.old.object }
    ensures grown { length replies.old.replies ≤ length replies.new.replies }
    ensures all { OnOk result (length replies.new.replies ≡ length replies.old.replies
        + min spec.now.quantum (length spec.now.commands - length replies.old.replies)) }
    ensures published { IfSome publisher.new
        (IsPublished turn.new.object.heap.version turn.new.object.heap.quota spec.now.commands
        (length replies.new.replies) (is_err result)) }
    ensures view { ViewGrows publisher.old publisher.new }
{
    let left = (spec.commands.len() - replies.len()) as u32;
    run_some(rt, &spec.commands, spec.quantum.min(left), turn, replies)?;
    publish_where_told(rt, spec.alloc, turn, publisher)
}

/// Runs so many of the commands that are left, or those up to one that finds no memory.
fn run_some<R: Wait>(
    rt: &R,
    commands: &Commands,
    count: u32,
    turn: &mut Own<R>,
    replies: &mut Replies,
) -> Result<(), AllocError>
    requires ran { RanFirst commands.now turn.old.object replies.old }
    requires few { length commands.now ≤ MOST_COMMANDS }
    requires left { length replies.old.replies + count ≤ length commands.now }
    ensures ran { RanFirst commands.now turn.new.object replies.new }
    ensures origin { object_origin turn.new.object ≡ object_origin turn.old.object }
    ensures grown { length replies.old.replies ≤ length replies.new.replies }
    ensures all { OnOk result
        (length replies.new.replies ≡ length replies.old.replies + count) }
{
    for _ in 0..count {
        run_next(rt, commands, turn, replies)?;
    }
    Ok(())
}

/// Runs the next command, and keeps its reply. Only memory can be wanting: the command then wasn't run.
fn run_next<R: Wait>(
    rt: &R,
    commands: &Commands,
    turn: &mut Own<R>,
    replies: &mut Replies,
) -> Result<(), AllocError>
    requires ran { RanFirst commands.now turn.old.object replies.old }
    requires few { length commands.now ≤ MOST_COMMANDS }
    requires left { length replies.old.replies < length commands.now }
    ensures ran { RanFirst commands.now turn.new.object replies.new }
    ensures origin { object_origin turn.new.object ≡ object_origin turn.old.object }
    ensures one { OnOk result
        (length replies.new.replies ≡ length replies.old.replies + 1) }
    ensures none { OnErr result (length replies.new.replies ≡ length replies.old.replies) }
{
    commands.run(replies.len(), rt, turn)?;
    replies.push(&turn.reply);
    Ok(())
}
