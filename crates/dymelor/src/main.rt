//! The program: its words, standard input and standard output go to the top call, whose answer is
//! the exit status.
//!
//! It prints nothing else. It stands on `dymelor_top`, and on nothing that it could decide by
//! itself.
#![tactic(auto)]

use dym_io::{StdSink, StdSource};
use dym_pool::FreeGate;
use dymelor_top::dymelor;
use std::env;
use std::io::{self, BufWriter, ErrorKind};
use std::process::ExitCode;
use std::rt::Env;

/// The status where memory ran out before the top call.
const MEMORY: u8 = 5;

/// The status where the system refused the words for another cause.
const WORDS: u8 = 6;

/// The bytes that are gathered before they are written to standard output.
const OUTPUT_BUFFER: usize = 1 << 18;

fn main(rt: HostRuntime) -> ExitCode {
    let alloc = rt.alloc();
    let words = match read_words(&rt) {
        Ok(words) => words,
        Err(error) if error.kind() == ErrorKind::OutOfMemory => return ExitCode::from(MEMORY),
        Err(_) => return ExitCode::from(WORDS),
    };
    let mut source = StdSource::new(rt.stdin());
    let writer = match BufWriter::with_capacity(alloc, OUTPUT_BUFFER, rt.stdout()) {
        Ok(writer) => writer,
        Err(_) => return ExitCode::from(MEMORY),
    };
    let mut sink = StdSink::new(writer);
    let status = dymelor(&rt, alloc, &words, &mut source, &mut sink, &FreeGate);
    ExitCode::from(status)
}

/// The words after the program's name.
fn read_words<R: Env + AllocGlobal>(rt: &R) -> io::Result<Vec<String>> {
    let words = env::args(rt)?.skip(1).collect(rt.alloc())?;
    Ok(words)
}
