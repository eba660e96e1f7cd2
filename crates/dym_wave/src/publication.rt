//! How a work publishes its object's oldest kept log.
ghost use Rattle.std.specs.Prelude.{◌≡◌, ◌<◌, length, option_map, IfOk, IfSome, OnOk};
ghost use Rattle.dym_base.specs.declared.limits.TheConstants.{COUNT_LIMIT};
ghost use Rattle.dym_object.specs.Meaning.{state_of};
ghost use Rattle.dym_view.specs.Commits.{committed, oldest};
ghost use Rattle.dym_view.specs.Histories.{last_commit};
ghost use Rattle.dym_wave.specs.Lines.{commit_view, glance_view};
ghost use Rattle.dym_wave.specs.Publications.{MayShow, MoreBy, MoreWhere, oldest_commit};

use crate::work_state::Own;
use core::mem::replace_with;
use dym_chain::KeptLogs;
use dym_object::{Object, Turn};
use dym_report::ViewLine;
use dym_view::{Commit, Glance, Publisher, commit_of};
use std::alloc::{AllocError, Global};
use std::sync::Wait;

/// Where there is a publisher, publishes by it the oldest kept log of an object, as `publish_oldest` does.
pub(crate) fn publish_where_told<R: Wait>(
    rt: &R,
    alloc: Global,
    turn: &mut Own<R>,
    publisher: &mut Option<Publisher>,
) -> Result<(), AllocError>
    requires room { IfSome publisher.old (λ p. length p.commits < COUNT_LIMIT) }
    requires later { IfSome publisher.old (λ p. MayShow (last_commit p.commits)
        (oldest_commit (state_of turn.old.object))) }
    ensures object { turn.new.object ≡ turn.old.object }
    ensures more { MoreWhere (oldest_commit (state_of turn.old.object))
        publisher.old publisher.new }
    ensures shown { OnOk result (IfSome publisher.new
        (λ p. last_commit p.commits ≡ oldest_commit (state_of turn.old.object))) }
{
    match publisher {
        Some(publisher) => publish_oldest(rt, alloc, turn, publisher),
        None => Ok(()),
    }
}

/// Publishes the oldest kept log of an object, where it isn't the last one that was published. Only memory can be wanting: the history then
/// stands as it was.
///
/// The log is copied only where its time is another than that of the last commit.
fn publish_oldest<R: Wait>(
    rt: &R,
    alloc: Global,
    turn: &mut Own<R>,
    publisher: &mut Publisher,
) -> Result<(), AllocError>
    requires room { length publisher.old.commits < COUNT_LIMIT }
    requires later { MayShow (last_commit publisher.old.commits)
        (oldest_commit (state_of turn.old.object)) }
    ensures object { turn.new.object ≡ turn.old.object }
    ensures more { MoreBy (oldest_commit (state_of turn.old.object)) publisher.old publisher.new }
    ensures shown { OnOk result (last_commit publisher.new.commits
        ≡ oldest_commit (state_of turn.old.object)) }
{
    if replace_with(turn, (), oldest_time::<R>) == publisher.last_time() {
        return Ok(());
    }
    match replace_with(turn, alloc, oldest_log::<R>)? {
        Some(commit) => publisher.publish(rt, alloc, commit),
        None => Ok(()),
    }
}

/// The time of an object's oldest kept log, where one is kept.
fn oldest_time<R: Wait>(turn: Own<R>, _nothing: ()) -> (Own<R>, Option<u64>)
    ensures object { result.0.object ≡ turn.object }
    ensures time { result.1 ≡ option_map (λ e. e.time) (oldest turn.object.chain.logs) }
{
    let Turn {
        alloc,
        object,
        reply,
    } = turn;
    let lent = object.lend();
    let time = time_of(&lent);
    let object = lent.take_back();
    let turn = Turn {
        alloc,
        object,
        reply,
    };
    (turn, time)
}

/// The time of the oldest kept log.
fn time_of<L: KeptLogs>(logs: &L) -> Option<u64>
    ensures { result ≡ option_map (λ e. e.time) (oldest (L.meaning logs.now).logs) }
{
    if logs.kept() == 0 {
        return None;
    }
    Some(logs.entry(0).time)
}

/// An object's oldest kept log as a commit, where one is kept.
fn oldest_log<R: Wait>(turn: Own<R>, alloc: Global) -> (Own<R>, Result<Option<Commit>, AllocError>)
    ensures object { result.0.object ≡ turn.object }
    ensures commit { IfOk result.1 (λ commit.
        commit ≡ option_map committed (oldest turn.object.chain.logs)) }
{
    let Turn {
        alloc: own,
        object,
        reply,
    } = turn;
    let (heap, mut chain, ran) = object.into_parts();
    let commit = commit_of(alloc, &mut chain);
    let object = Object::of_parts(heap, chain, ran);
    let turn = Turn {
        alloc: own,
        object,
        reply,
    };
    (turn, commit)
}

/// The line of the last commit, where there is a publisher.
pub(crate) fn last_line(publisher: &Option<Publisher>) -> Option<Option<ViewLine>>
    ensures { result ≡ option_map (λ p. option_map commit_view (last_commit p.commits)) publisher.now }
{
    match publisher {
        Some(publisher) => Some(line_of(publisher)),
        None => None,
    }
}

/// The last commit of a publisher, as it is printed.
fn line_of(publisher: &Publisher) -> Option<ViewLine>
    ensures { result ≡ option_map commit_view (last_commit publisher.now.commits) }
{
    match publisher.last() {
        Some(glance) => Some(line_of_glance(glance)),
        None => None,
    }
}

/// A commit at a glance, as it is printed.
fn line_of_glance(glance: Glance) -> ViewLine
    ensures { result ≡ glance_view glance }
{
    ViewLine {
        time: glance.time,
        chunks: glance.chunks,
        total: glance.total,
    }
}
