//! Commands about the logs of an object.
ghost use Rattle.std.specs.Prelude.{◌≡◌, ◌-◌, ◌<◌, Some};
ghost use Rattle.dym_base.specs.declared.command.Command.TheVariants.{Restore, Prune, Logs};
ghost use Rattle.dym_c.specs.AskedCommands.{asked_log};
ghost use Rattle.dym_c.specs.Calls.{status_of, reply_of, IsAfter, IsCounted, Wanting, IsTaken};
ghost use Rattle.dym_c.specs.OutValues.{kind_after, time_after, dropped_after, none_dropped, slots_after};

use crate::object::DymObject;
use crate::out_values::{DymSlots, c_kind, kind_of_c};
use crate::status::{BAD, DONE, MEMORY, refusal_number};
use dym_undo::LogError;

/// Logs the heap at a time, as a full log for kind 0 and as an incremental one for kind 1, and tells the kind that it is.
#[unsafe(no_mangle)]
pub extern "C" fn dym_log(object: &mut DymObject, kind: u32, time: u64, logged: &mut u32) -> u32
    ensures status { Wanting result
        (IsTaken (reply_of object.old.value (asked_log kind time)))
        (result ≡ status_of object.old.value (asked_log kind time)) }
    ensures after { Wanting result
        (object.new.value ≡ object.old.value)
        (IsAfter object.old.value (asked_log kind time) object.new.value) }
    ensures out_value { Wanting result
        (logged.new ≡ logged.old)
        (logged.new ≡ kind_after (reply_of object.old.value (asked_log kind time)) logged.old) }
{
    let Some(want) = kind_of_c(kind) else {
        return BAD;
    };
    let inside = match object.ready() {
        Ok(inside) => inside,
        Err(status) => return status,
    };
    inside.look();
    match inside.object.log_as(time, want) {
        Ok(kind) => {
            inside.copy_heap();
            *logged = c_kind(kind);
            DONE
        }
        Err(LogError::Refused(why)) => refusal_number(why),
        Err(LogError::Memory) => MEMORY,
    }
}

/// Restores the last log at or before a time, and tells its time; the later logs leave.
#[unsafe(no_mangle)]
pub extern "C" fn dym_restore(object: &mut DymObject, time: u64, at: &mut u64) -> u32
    ensures status { result ≡ status_of object.old.value (Some (Restore time)) }
    ensures after { IsAfter object.old.value (Some (Restore time)) object.new.value }
    ensures out_value { at.new ≡ time_after (reply_of object.old.value
        (Some (Restore time))) at.old }
{
    let inside = match object.ready() {
        Ok(inside) => inside,
        Err(status) => return status,
    };
    inside.look();
    match inside.object.restore(&(), time) {
        Ok(time) => {
            inside.copy_heap();
            *at = time;
            DONE
        }
        Err(why) => refusal_number(why),
    }
}

/// Restores the last log before a time, and tells its time; the later logs leave. No log is before time 0.
#[unsafe(no_mangle)]
pub extern "C" fn dym_restore_before(object: &mut DymObject, time: u64, at: &mut u64) -> u32
    ensures at_zero { time ≡ 0 → IsCounted object.old.value 7 result object.new.value
        × (at.new ≡ at.old) }
    ensures status { 0 < time → result ≡ status_of object.old.value (Some (Restore (time - 1))) }
    ensures after { 0 < time → IsAfter object.old.value
        (Some (Restore (time - 1))) object.new.value }
    ensures out_value { 0 < time → at.new ≡ time_after
        (reply_of object.old.value (Some (Restore (time - 1)))) at.old }
{
    let inside = match object.ready() {
        Ok(inside) => inside,
        Err(status) => return status,
    };
    inside.look();
    match inside.object.restore_before(&(), time) {
        Ok(time) => {
            inside.copy_heap();
            *at = time;
            DONE
        }
        Err(why) => refusal_number(why),
    }
}

/// Drops the logs before the last one at or before a bound, and tells how many.
#[unsafe(no_mangle)]
pub extern "C" fn dym_prune(object: &mut DymObject, bound: u64, dropped: &mut u32) -> u32
    ensures status { result ≡ status_of object.old.value (Some (Prune bound)) }
    ensures after { IsAfter object.old.value (Some (Prune bound)) object.new.value }
    ensures out_value { dropped.new ≡ dropped_after
        (reply_of object.old.value (Some (Prune bound))) dropped.old }
{
    let inside = match object.ready() {
        Ok(inside) => inside,
        Err(status) => return status,
    };
    *dropped = inside.object.prune(bound);
    DONE
}

/// Drops the logs before the last one that is before a bound, and tells how many. No log is before time 0.
#[unsafe(no_mangle)]
pub extern "C" fn dym_prune_before(object: &mut DymObject, bound: u64, dropped: &mut u32) -> u32
    ensures at_zero { bound ≡ 0 → IsCounted object.old.value 0 result object.new.value
        × (dropped.new ≡ none_dropped object.old.value dropped.old) }
    ensures status { 0 < bound → result ≡ status_of object.old.value (Some (Prune (bound - 1))) }
    ensures after { 0 < bound → IsAfter object.old.value
        (Some (Prune (bound - 1))) object.new.value }
    ensures out_value { 0 < bound → dropped.new
        ≡ dropped_after (reply_of object.old.value (Some (Prune (bound - 1)))) dropped.old }
{
    let inside = match object.ready() {
        Ok(inside) => inside,
        Err(status) => return status,
    };
    *dropped = inside.object.prune_before(bound);
    DONE
}

/// How many logs are kept, and how many records a chain of them has.
#[unsafe(no_mangle)]
pub extern "C" fn dym_logs(object: &mut DymObject, logs: &mut DymSlots) -> u32
    ensures status { result ≡ status_of object.old.value (Some Logs) }
    ensures after { IsAfter object.old.value (Some Logs) object.new.value }
    ensures out_value { logs.new ≡ slots_after (reply_of object.old.value (Some Logs)) logs.old }
{
    let inside = match object.ready() {
        Ok(inside) => inside,
        Err(status) => return status,
    };
    let (kept, slots) = inside.object.logs();
    *logs = DymSlots { kept, slots };
    DONE
}
