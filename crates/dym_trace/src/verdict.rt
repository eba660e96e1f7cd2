//! The verdict on a whole trace.

ghost use Rattle.std.specs.Prelude.{◌≤◌, length, IfOk, IsTrue};
ghost use Rattle.dym_trace.specs.Machine.{IsSound, Does};
ghost use Rattle.dym_trace.specs.Verdict.{LineStep, OneReading, OneVerdict, IsVerdict};

use crate::answer::TraceAnswer;
use crate::cut::first_line;
use crate::event_reader::read_event;
use crate::machine::Machine;
use dym_base::limits::MOST_INPUT_BYTES;
use dym_slots::each_step_keeps_facts;
use std::alloc::{AllocError, Global};

/// Judges a trace of at most 16,777,216 bytes: whether each of its lines is an event and a step from the state that
/// the lines before it reach, and where not, the first line that isn't. An error is want of memory alone.
pub fn check_trace(alloc: Global, bytes: &[u8]) -> Result<TraceAnswer, AllocError>
    requires { length bytes.now ≤ MOST_INPUT_BYTES }
    ensures { IfOk result (λ answer. IsVerdict bytes.now answer) }
{
    let mut machine = Machine::start(alloc)?;
    let mut rest = bytes;
    let mut events: u32 = 0;
    while !rest.is_empty() {
        let (line, after) = first_line(rest);
        if !takes(&mut machine, line)? {
            return Ok(TraceAnswer::Bad { line: events + 1 });
        }
        events += 1;
        rest = after;
    }
    Ok(TraceAnswer::Good { events })
}

/// Whether the line is an event that is a step of the machine, which then does it.
fn takes(machine: &mut Machine, line: &[u8]) -> Result<bool, AllocError>
    requires { IsSound machine.old }
    ensures does { IfOk result (Does (LineStep line.now) machine.old machine.new) }
    ensures sound { IfOk result (λ done. IsTrue done → IsSound machine.new) }
{
    one_reading();
    each_step_keeps_facts();
    match read_event(line) {
        Some(event) => machine.step(event),
        None => Ok(false),
    }
}

/// A line is at most one event.
pub fn one_reading()
    ensures { OneReading }
{}

/// A trace has exactly one verdict.
pub fn one_verdict()
    ensures { OneVerdict }
{}
