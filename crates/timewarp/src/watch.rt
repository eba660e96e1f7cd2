//! What the program tells of a run while it goes on.
use crate::progress::ProgressLines;
use crate::trace::Trace;
use crate::words::Order;
use std::fs;
use std::io::{self, Write};
use std::rt::Files;
use std::time::Clock;
use warp_run::{Observer, RoundReport};

/// The lines of progress, and the trace, where they are asked for.
#[derive(Drop)]
pub struct Watch<'a, R, W: Write + Drop> {
    lines: ProgressLines<'a, R>,
    trace: Option<Trace<'a, R, W>>,
}

/// What the words ask for; the trace goes to a file, which is made anew.
pub fn open_watch<'a, R: Clock + Eprint + Files + AllocGlobal>(
    rt: &'a R,
    order: &Order<'_>,
) -> io::Result<Watch<'a, R, R::File>> {
    let trace = match order.trace {
        Some(name) => Some(Trace::new(rt, fs::create(rt, name)?)?),
        None => None,
    };
    Ok(Watch::new(ProgressLines::new(rt, order.progress), trace))
}

impl<'a, R: Clock + Eprint + AllocGlobal, W: Write + Drop> Watch<'a, R, W> {
    pub fn new(lines: ProgressLines<'a, R>, trace: Option<Trace<'a, R, W>>) -> Self {
        Watch { lines, trace }
    }

    /// Ends the trace. The error is that of the first line that couldn't be written.
    pub fn close(self) -> io::Result<()> {
        match self.trace {
            Some(trace) => trace.close(),
            None => Ok(()),
        }
    }
}

impl<'a, R: Clock + Eprint + AllocGlobal, W: Write + Drop> Observer for Watch<'a, R, W> {
    fn asks_times(&self) -> bool {
        self.trace.is_some()
    }

    fn observe(&mut self, report: &RoundReport) {
        self.lines.note(report);
    }

    fn observe_times(&mut self, bound: u64, times: &[u64]) {
        if let Some(trace) = &mut self.trace {
            trace.note(bound, times);
        }
    }
}
