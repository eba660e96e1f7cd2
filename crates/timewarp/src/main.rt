//! The program `timewarp`: it simulates a model, and tells how many events it ran and a checksum of
//! all states.
//!
//! Below stand `warp_run` and `warp_models`. Its one contract is that of `simulate`: what is told
//! is of the end of the run in order.
#![tactic(auto)]

mod progress;
mod report;
mod share;
#[cfg(test)]
mod tests;
mod trace;
mod watch;
mod words;

use crate::report::simulate;
use crate::share::Share;
use crate::watch::open_watch;
use crate::words::{Order, read_words};
use std::env;
use std::io::{self, ErrorKind};
use std::process::ExitCode;
use std::rt::Env;
use std::sync::Wait;
use std::thread::Threads;
use std::time::{Clock, Instant};
use warp_run::{Failure, Observer};

/// The status where the words are bad.
const WORDS: u8 = 1;

/// The status where the model came to a fault of its own.
const FAULT: u8 = 2;

/// The status where more events are run than 64 bits count.
const TOO_MANY: u8 = 3;

/// The status where the trace can't be written, as output in `dymelor`.
const TRACE: u8 = 4;

/// The status where there is no memory, as in `dymelor`.
const MEMORY: u8 = 5;

const USAGE: &str =
    "usage: timewarp phold|cells|queues [--end T] [--processes N] [--seed S] [OPTION VALUE]..

It simulates a model of N processes up to the time T, and prints how many events
stand, and a checksum of all states at the end. Whatever the workers, both are
those of a run in order, one event after the other.

ahead   by workers, which run ahead of what is certain: [--workers N], else as many
        as processors; [--window TICKS ahead], else chosen as they run; [--log-every
        EVENTS a copy of a state]; [--progress], a line each second; [--trace FILE],
        which examples/warp/draw draws; or --in-order, with none of these
phold   J jobs of each process hop among all: [--jobs J] [--remote R of 1000 hops]
        [--lookahead L] [--mean M of what is random of a delay] [--work TURNS]
        [--state BYTES] [--changed BYTES of it by each event]
cells   calls in the cells of a mobile network: [--channels C of a cell]
        [--interval I between calls] [--duration D] [--stay S in a cell], means all
queues  a ring of stations with J jobs each: [--jobs J] [--half-life H of a service]
        [--travel D, and a tick] [--room R of a station, beyond which it is a fault]";

fn main(rt: HostRuntime) -> io::Result<ExitCode> {
    let words = match words_behind_the_name(&rt) {
        Ok(words) => words,
        Err(error) if error.kind() == ErrorKind::OutOfMemory => {
            return Ok(ExitCode::from(MEMORY));
        }
        Err(error) => return Err(error),
    };
    let Some(order) = read_words(&words) else {
        eprintln!(rt; "{}", USAGE)?;
        return Ok(ExitCode::from(WORDS));
    };
    let mut watch = match open_watch(&rt, &order) {
        Ok(watch) => watch,
        Err(error) => return Ok(ExitCode::from(tell_no_trace(&rt, &error)?)),
    };
    let status = run(&rt, &order, &mut watch)?;
    let closed = match watch.close() {
        Ok(()) => 0,
        Err(error) => tell_no_trace(&rt, &error)?,
    };
    Ok(ExitCode::from(if status == 0 { closed } else { status }))
}

/// Simulates what the words ask for, and tells what it comes to. The result is the program's status.
fn run<R, O>(rt: &R, order: &Order<'_>, observer: O) -> io::Result<u8>
where
    R: Threads + Wait + Sync + Clock + Print + Eprint + AllocGlobal,
    O: Observer,
{
    let start = Instant::now(rt)?;
    let status = match simulate(rt, rt.alloc(), order, observer) {
        Ok(report) => {
            println!(rt; "committed {}", report.committed)?;
            println!(rt; "checksum {:016x}", report.checksum)?;
            if report.rounds > 0 {
                let efficiency = Share::of(report.committed, report.counts.ran);
                eprintln!(rt; "rollbacks {}", report.counts.rollbacks)?;
                eprintln!(rt; "efficiency {efficiency}")?;
                eprintln!(rt; "rounds {}", report.rounds)?;
            }
            0
        }
        Err(Failure::Fault { process }) => {
            eprintln!(rt; "the model came to a fault in process {process}")?;
            FAULT
        }
        Err(Failure::TooManyEvents) => {
            eprintln!(rt; "more events than 64 bits count")?;
            TOO_MANY
        }
        Err(Failure::OutOfMemory) => {
            eprintln!(rt; "there is no memory")?;
            MEMORY
        }
    };
    let time = start.elapsed(rt)?;
    eprintln!(rt; "time {} us", time.as_micros())?;
    Ok(status)
}

/// Tells why there is no trace, or not all of it. The result is the status for it.
fn tell_no_trace<R: Eprint>(rt: &R, error: &io::Error) -> io::Result<u8> {
    eprintln!(rt; "the trace can't be written: {error}")?;
    if error.kind() == ErrorKind::OutOfMemory {
        Ok(MEMORY)
    } else {
        Ok(TRACE)
    }
}

/// The words behind the program's name.
fn words_behind_the_name<R: Env + AllocGlobal>(rt: &R) -> io::Result<Vec<String>> {
    let words = env::args(rt)?.skip(1).collect(rt.alloc())?;
    Ok(words)
}
