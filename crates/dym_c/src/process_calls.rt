//! Running a process: the calls of `include/dymelor_process.h`.
ghost use Rattle.std.specs.Prelude.{◌≡◌, ◌+◌, Bool, Some};
ghost use Rattle.warp_object.specs.Processes.{IsRecorded};
ghost use Rattle.dym_c.specs.declared.process_content.Phase.TheVariants as phases;
ghost use Rattle.dym_c.specs.declared.process_content.Start.{Start as StartMeaning};
ghost use Rattle.dym_c.specs.Events.{message_of_c};
ghost use Rattle.dym_c.specs.ProcessCalls.{IsNextTime, flag};
ghost use Rattle.dym_c.specs.ProcessExports.{IsTaking, IsBeginning, IsReplaying, IsSending, IsEnding, IsCommitting};
ghost use Rattle.dym_c.specs.ProcessMeanings.{words};
ghost use Rattle.dym_c.specs.ProcessRuns.{begin_number, commit_number, HasBegun, HasBegunReplay, HasSent, HasKeptFirst, HasEnded, HasEndedStart, HasTakenIn, HasCommittedBefore, HasCommittedIn};

use crate::events::{DymData, DymEvent, DymMessage, draft_from_c, event_for_c, message_from_c};
use crate::object_content::ObjectContent;
use crate::process::DymProcess;
use crate::process_content::{Phase, ProcessContent, Start};
use crate::process_results::drop_first;
use crate::status::{
    ASTRAY, BAD, COMMITTED, DONE, MEMORY, NO_PROCESS, NONE, NOT_LATER, SPENT, STATE, UNSETTLED,
};
use std::alloc::Global;
use warp_base::{Draft, Event, Message};
use warp_object::{
    BeginError, CommitError, EndError, ObjectProcess, OpenError, SendError, TakeError,
};

/// The event was run before.
pub(crate) const REPLAYED: u32 = 1;

/// No chunk of the object is touched.
pub(crate) const UNTOUCHED: u32 = 2;

/// Takes a message, and tells how many events were undone.
#[unsafe(no_mangle)]
pub extern "C" fn dym_process_take(
    process: &mut DymProcess,
    message: &DymMessage,
    undone: &mut u64,
) -> u32
    ensures { IsTaking process.old.kept.value (message_of_c message.now) result undone.old undone.new process.new.kept.value }
{
    let Some(message) = message_from_c(message) else {
        return BAD;
    };
    let Some(inside) = process.kept.inside() else {
        return STATE;
    };
    let Phase::Running(running) = &mut inside.phase else {
        return STATE;
    };
    take(running, message, &mut inside.out, undone)
}

/// Takes a message, and tells how many events were undone.
fn take(
    running: &mut ObjectProcess<DymData>,
    message: Message<DymData>,
    out: &mut Vec<Message<DymData>>,
    undone: &mut u64,
) -> u32
    requires { IsRecorded words running.old }
    ensures recorded { IsRecorded words running.new }
    ensures taken { HasTakenIn running.old running.new message out.old.items out.new.items result undone.old undone.new }
{
    let before = running.date();
    match running.take(message, out) {
        Ok(()) => {
            *undone = before - running.date();
            DONE
        }
        Err(TakeError::Open) => STATE,
        Err(TakeError::Elsewhere) => NO_PROCESS,
        Err(TakeError::Memory) => MEMORY,
        Err(TakeError::Committed) => COMMITTED,
    }
}

/// The time of the next event that wasn't run yet.
#[unsafe(no_mangle)]
pub extern "C" fn dym_process_next(process: &mut DymProcess, time: &mut u64) -> u32
    ensures told { IsNextTime process.old.kept.value result time.old time.new }
    ensures same { (process.new.kept.value ≡ process.old.kept.value) × (process.new.object.value ≡ process.old.object.value) }
{
    let Some(inside) = process.kept.inside() else {
        return STATE;
    };
    let Some(running) = inside.running() else {
        return STATE;
    };
    match running.next_event() {
        Some(event) => {
            *time = event.time;
            DONE
        }
        None => NONE,
    }
}

/// The status where no event is handed out.
fn begin_status(why: BeginError) -> u32
    ensures { result ≡ begin_number why }
{
    match why {
        BeginError::Open => STATE,
        BeginError::Memory => MEMORY,
        BeginError::Spent => SPENT,
        BeginError::Astray => ASTRAY,
    }
}

/// How an event is handed out: whether it was run before, and whether no chunk is touched.
fn how_begun(is_replayed: bool, state: &ObjectContent) -> u32
    ensures { (untouched : Bool) × (result ≡ flag is_replayed + (flag untouched + flag untouched)) }
{
    let replayed = if is_replayed { REPLAYED } else { 0 };
    let untouched = if state.object.changed() == 0 {
        UNTOUCHED
    } else {
        0
    };
    replayed + untouched
}

/// Hands out the event that is to be run on the object, and tells how.
#[unsafe(no_mangle)]
pub extern "C" fn dym_process_begin(
    process: &mut DymProcess,
    event: &mut DymEvent,
    how: &mut u32,
) -> u32
    ensures { IsBeginning process.old.kept.value process.old.object.value result event.old event.new how.old how.new
        process.new.kept.value process.new.object.value }
{
    let Some(inside) = process.kept.inside() else {
        return STATE;
    };
    let Some(state) = process.object.inside() else {
        return STATE;
    };
    let Phase::Running(running) = &mut inside.phase else {
        return STATE;
    };
    begin(running, state, event, how)
}

/// Hands out the event that is to be run on the object, and tells how.
fn begin(
    running: &mut ObjectProcess<DymData>,
    state: &mut ObjectContent,
    event: &mut DymEvent,
    how: &mut u32,
) -> u32
    requires { IsRecorded words running.old }
    ensures recorded { IsRecorded words running.new }
    ensures begun { HasBegun state.old running.old state.new running.new result event.old event.new how.old how.new }
{
    state.look();
    let begun = running.begin(&mut state.object);
    state.copy_logged_heap();
    match begun {
        Ok(Some(given)) => {
            *event = event_for_c(&given.event);
            *how = how_begun(given.is_replayed, state);
            DONE
        }
        Ok(None) => NONE,
        Err(why) => begin_status(why),
    }
}

/// Hands out the event that is to be run on the object once more, where there is one, and tells how.
#[unsafe(no_mangle)]
pub extern "C" fn dym_process_replay(
    process: &mut DymProcess,
    event: &mut DymEvent,
    how: &mut u32,
) -> u32
    ensures { IsReplaying process.old.kept.value process.old.object.value result event.old event.new how.old how.new
        process.new.kept.value process.new.object.value }
{
    let Some(inside) = process.kept.inside() else {
        return STATE;
    };
    let Some(state) = process.object.inside() else {
        return STATE;
    };
    let Phase::Running(running) = &mut inside.phase else {
        return STATE;
    };
    replay(running, state, event, how)
}

/// Hands out the event that is to be run on the object once more, where there is one, and tells how.
fn replay(
    running: &mut ObjectProcess<DymData>,
    state: &mut ObjectContent,
    event: &mut DymEvent,
    how: &mut u32,
) -> u32
    requires { IsRecorded words running.old }
    ensures recorded { IsRecorded words running.new }
    ensures begun { HasBegunReplay state.old running.old state.new running.new result event.old event.new how.old how.new }
{
    state.look();
    let begun = running.begin_replay(&mut state.object);
    state.copy_logged_heap();
    match begun {
        Ok(Some(given)) => {
            *event = event_for_c(&given);
            *how = how_begun(true, state);
            DONE
        }
        Ok(None) => NONE,
        Err(why) => begin_status(why),
    }
}

/// Sends an event, by the event that is handed out or by the start.
#[unsafe(no_mangle)]
pub extern "C" fn dym_process_send(process: &mut DymProcess, event: &DymEvent) -> u32
    ensures { IsSending process.old.kept.value event.now result process.new.kept.value }
{
    let Some(inside) = process.kept.inside() else {
        return STATE;
    };
    let draft = draft_from_c(event);
    match &mut inside.phase {
        Phase::Starting(start) => send_first(start, draft),
        Phase::Running(running) => send(running, draft),
    }
}

/// Sends an event by the start.
fn send_first(start: &mut Start, draft: Draft<DymData>) -> u32
    ensures { HasKeptFirst start.old start.new draft result }
{
    if draft.receiver >= start.processes {
        return NO_PROCESS;
    }
    match start.keep(draft) {
        Ok(()) => DONE,
        Err(_) => MEMORY,
    }
}

/// Sends an event by the event that is handed out.
fn send(running: &mut ObjectProcess<DymData>, draft: Draft<DymData>) -> u32
    requires { IsRecorded words running.old }
    ensures recorded { IsRecorded words running.new }
    ensures sent { HasSent running.old running.new draft result }
{
    match running.send(draft) {
        Ok(()) => DONE,
        Err(SendError::Idle) => STATE,
        Err(SendError::NotLater) => NOT_LATER,
        Err(SendError::NoProcess) => NO_PROCESS,
        Err(SendError::Memory) => MEMORY,
    }
}

/// Ends the event that is handed out, or the start.
#[unsafe(no_mangle)]
pub extern "C" fn dym_process_end(alloc: Global, process: &mut DymProcess) -> u32
    ensures { IsEnding process.old.kept.value process.old.object.value result process.new.kept.value process.new.object.value }
{
    let Some(inside) = process.kept.inside() else {
        return STATE;
    };
    let Some(state) = process.object.inside() else {
        return STATE;
    };
    match &mut inside.phase {
        Phase::Starting(_) => end_start(alloc, inside, state),
        Phase::Running(running) => end(running, state, &mut inside.out),
    }
}

/// Ends the event that is handed out.
fn end(
    running: &mut ObjectProcess<DymData>,
    state: &ObjectContent,
    out: &mut Vec<Message<DymData>>,
) -> u32
    requires { IsRecorded words running.old }
    ensures recorded { IsRecorded words running.new }
    ensures ended { HasEnded state.now running.old running.new out.old.items out.new.items result }
{
    match running.end(&state.object, out) {
        Ok(()) => DONE,
        Err(EndError::Idle) => STATE,
        Err(EndError::Memory) => MEMORY,
        Err(EndError::Counts) => SPENT,
    }
}

/// Ends the start: the object is the state in which the process starts.
fn end_start(alloc: Global, inside: &mut ProcessContent, state: &mut ObjectContent) -> u32
    ensures { (start : StartMeaning) → inside.old.phase ≡ phases.Starting start → HasEndedStart inside.old start state.old result (Some inside.new) (Some state.new) }
{
    let Phase::Starting(start) = &mut inside.phase else {
        return STATE;
    };
    state.look();
    let opened = ObjectProcess::open(
        alloc,
        start.number,
        start.processes,
        start.period,
        &mut state.object,
        &start.firsts,
        &mut inside.out,
    );
    match opened {
        Ok(running) => {
            state.copy_heap();
            inside.phase = Phase::Running(running);
            DONE
        }
        Err(OpenError::Memory) => MEMORY,
        Err(OpenError::Spent) => SPENT,
        Err(OpenError::Logged) => ASTRAY,
        Err(OpenError::NoProcess) => NO_PROCESS,
    }
}

/// Commits all events before a bound, and tells how many.
#[unsafe(no_mangle)]
pub extern "C" fn dym_process_commit(
    process: &mut DymProcess,
    bound: u64,
    committed: &mut u64,
) -> u32
    ensures { IsCommitting process.old.kept.value process.old.object.value bound result committed.old committed.new
        process.new.kept.value process.new.object.value }
{
    let Some(inside) = process.kept.inside() else {
        return STATE;
    };
    let Some(state) = process.object.inside() else {
        return STATE;
    };
    let Phase::Running(running) = &mut inside.phase else {
        return STATE;
    };
    commit_before(running, state, bound, &mut inside.committed, committed)
}

/// Commits all events before a bound: none before 0.
fn commit_before(
    running: &mut ObjectProcess<DymData>,
    state: &mut ObjectContent,
    bound: u64,
    committed: &mut Vec<Event<DymData>>,
    told: &mut u64,
) -> u32
    requires { IsRecorded words running.old }
    ensures recorded { IsRecorded words running.new }
    ensures committed { HasCommittedBefore state.old running.old state.new running.new bound
        committed.old.items committed.new.items result told.old told.new }
{
    if let Some(last) = bound.checked_sub(1) {
        return commit(running, state, last, committed, told);
    }
    if running.is_open() {
        return STATE;
    }
    committed.clear();
    *told = 0;
    DONE
}

/// Commits all events up to a time, and tells how many. Those of the commit before are dropped.
fn commit(
    running: &mut ObjectProcess<DymData>,
    state: &mut ObjectContent,
    last: u64,
    committed: &mut Vec<Event<DymData>>,
    told: &mut u64,
) -> u32
    requires { IsRecorded words running.old }
    ensures recorded { IsRecorded words running.new }
    ensures committed { HasCommittedIn state.old running.old state.new running.new last
        committed.old.items committed.new.items result told.old told.new }
{
    let before = committed.len();
    match running.commit(&mut state.object, last, committed) {
        Ok(()) => {}
        Err(why) => return commit_status(why),
    }
    drop_first(committed, before);
    *told = committed.len() as u64;
    DONE
}

/// The status where nothing is committed.
fn commit_status(why: CommitError) -> u32
    ensures { result ≡ commit_number why }
{
    match why {
        CommitError::Open => STATE,
        CommitError::Backward => COMMITTED,
        CommitError::Unsettled => UNSETTLED,
        CommitError::Spent => SPENT,
        CommitError::Memory => MEMORY,
    }
}
