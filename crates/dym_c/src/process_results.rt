//! What C takes from a process, and what it is told of one.
ghost use Rattle.std.specs.Prelude.{◌≡◌, ◌≤◌, ◌++◌, drop, take, map, min, length, vec_len};
ghost use Rattle.dym_c.specs.ProcessCalls.{IsProgress, IsTellingProgress, IsSettingPeriod, IsMovingMessages, IsMovingEvents};
ghost use Rattle.dym_c.specs.Events.{c_event, c_message};

use crate::events::{DymData, DymEvent, DymMessage, event_for_c, message_for_c};
use crate::process::DymProcess;
use crate::process_content::{Phase, ProcessContent};
use crate::status::{DONE, STATE};
use warp_base::{Event, Message};

/// How far a process is.
#[repr(C)]
#[derive(Clone, Copy)]
pub struct DymProgress {
    pub ran: u64,
    pub replays: u64,
    pub logged: u64,
    pub outbox: u64,
    pub is_open: u32,
}

/// How far a process is.
#[unsafe(no_mangle)]
pub extern "C" fn dym_process_progress(process: &mut DymProcess, progress: &mut DymProgress) -> u32
    ensures told { IsTellingProgress process.old.kept.value result progress.old progress.new }
    ensures same { (process.new.kept.value ≡ process.old.kept.value) × (process.new.object.value ≡ process.old.object.value) }
{
    let Some(inside) = process.kept.inside() else {
        return STATE;
    };
    *progress = progress_of(inside);
    DONE
}

/// How far a process is: one whose start isn't ended has run nothing.
fn progress_of(inside: &ProcessContent) -> DymProgress
    ensures { IsProgress inside.now result }
{
    let outbox = inside.out.len() as u64;
    match inside.running() {
        None => DymProgress {
            ran: 0,
            replays: 0,
            logged: 0,
            outbox,
            is_open: 1,
        },
        Some(running) => DymProgress {
            ran: running.date(),
            replays: running.replays(),
            logged: running.newest_log(),
            outbox,
            is_open: if running.is_open() { 1 } else { 0 },
        },
    }
}

/// Changes after how many events a log is taken.
#[unsafe(no_mangle)]
pub extern "C" fn dym_process_period(process: &mut DymProcess, period: u64) -> u32
    ensures set { IsSettingPeriod process.old.kept.value period result process.new.kept.value }
    ensures object { process.new.object.value ≡ process.old.object.value }
{
    let Some(inside) = process.kept.inside() else {
        return STATE;
    };
    match &mut inside.phase {
        Phase::Starting(start) => start.period = period,
        Phase::Running(running) => running.set_period(period),
    }
    DONE
}

/// Moves the first messages that are to be delivered to where `messages` begin, as many as have room there.
#[unsafe(no_mangle)]
pub extern "C" fn dym_process_outbox(
    process: &mut DymProcess,
    messages: &mut [DymMessage],
    count: &mut u64,
) -> u32
    ensures moved { IsMovingMessages process.old.kept.value result messages.old messages.new count.old count.new process.new.kept.value }
    ensures object { process.new.object.value ≡ process.old.object.value }
{
    let Some(inside) = process.kept.inside() else {
        return STATE;
    };
    *count = move_messages(&mut inside.out, messages);
    DONE
}

/// Moves the first messages.
fn move_messages(out: &mut Vec<Message<DymData>>, messages: &mut [DymMessage]) -> u64
    ensures count { result ≡ min (length messages.old) (length out.old.items) }
    ensures moved { messages.new ≡ map c_message (take result out.old.items) ++ drop result messages.old }
    ensures left { out.new.items ≡ drop result out.old.items }
{
    let moved = messages.len().min(out.len());
    for place in 0..moved {
        messages[place] = message_for_c(&out[place]);
    }
    drop_first(out, moved);
    moved as u64
}

/// Moves the first events that the last commit committed to where `events` begin, as many as have room there.
#[unsafe(no_mangle)]
pub extern "C" fn dym_process_committed(
    process: &mut DymProcess,
    events: &mut [DymEvent],
    count: &mut u64,
) -> u32
    ensures moved { IsMovingEvents process.old.kept.value result events.old events.new count.old count.new process.new.kept.value }
    ensures object { process.new.object.value ≡ process.old.object.value }
{
    let Some(inside) = process.kept.inside() else {
        return STATE;
    };
    *count = move_events(&mut inside.committed, events);
    DONE
}

/// Moves the first events.
fn move_events(committed: &mut Vec<Event<DymData>>, events: &mut [DymEvent]) -> u64
    ensures count { result ≡ min (length events.old) (length committed.old.items) }
    ensures moved { events.new ≡ map c_event (take result committed.old.items) ++ drop result events.old }
    ensures left { committed.new.items ≡ drop result committed.old.items }
{
    let moved = events.len().min(committed.len());
    for place in 0..moved {
        events[place] = event_for_c(&committed[place]);
    }
    drop_first(committed, moved);
    moved as u64
}

/// Drops the first elements of a list.
pub(crate) fn drop_first<T: Copy>(list: &mut Vec<T>, count: usize)
    requires { count ≤ vec_len list.old }
    ensures { list.new.items ≡ drop count list.old.items }
{
    let left = list.len() - count;
    list.copy_within(count.., 0);
    list.truncate(left);
}
