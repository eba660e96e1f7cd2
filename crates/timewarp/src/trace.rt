//! A trace of a run: to what time each process has come, over wall time.
use std::io::{self, BufWriter, Write};
use std::time::{Clock, Instant};

/// Lines that `examples/warp/draw` draws. A WALL is in nanoseconds of one clock.
///
/// | Line | What it says |
/// |---|---|
/// | `run WALL PROCESS TIME` | the last event of the process that stands is of this time; 0 where none does |
/// | `back WALL PROCESS TIME FROM` | before it was of the time FROM: what is later than TIME was undone |
/// | `bound WALL TIME` | nothing before this time can change any more |
///
/// They stand for the start and for the end of each round. What comes between is not in them: several
/// rollbacks of a process are one line, or none where it has got further than it was.
#[derive(Drop)]
pub struct Trace<'a, R, W: Write + Drop> {
    rt: &'a R,
    start: Instant,
    out: BufWriter<W>,
    /// The times that were told last.
    times: Vec<u64>,
    /// Why not all was written.
    error: Option<io::Error>,
}

/// Writes what has become of a process's time.
fn write_time<W: Write>(
    out: &mut W,
    wall: u128,
    process: usize,
    before: u64,
    time: u64,
) -> io::Result<()> {
    if time < before {
        writeln!(out, "back {wall} {process} {time} {before}")?;
    }
    if time != before {
        writeln!(out, "run {wall} {process} {time}")?;
    }
    Ok(())
}

/// Writes what has become of the times of all processes.
fn write_times<W: Write>(out: &mut W, wall: u128, before: &[u64], times: &[u64]) -> io::Result<()> {
    for (process, (before, time)) in before.iter().zip(times).enumerate() {
        write_time(out, wall, process, *before, *time)?;
    }
    Ok(())
}

/// Writes the times with which a trace begins.
fn write_first<W: Write>(out: &mut W, wall: u128, times: &[u64]) -> io::Result<()> {
    for (process, time) in times.iter().enumerate() {
        writeln!(out, "run {wall} {process} {time}")?;
    }
    Ok(())
}

impl<'a, R: Clock + AllocGlobal, W: Write + Drop> Trace<'a, R, W> {
    /// A trace that begins now.
    pub fn new(rt: &'a R, out: W) -> io::Result<Self> {
        Ok(Trace {
            rt,
            start: Instant::now(rt)?,
            out: BufWriter::new(rt.alloc(), out)?,
            times: Vec::new(rt.alloc()),
            error: None,
        })
    }

    /// Notes to what times all processes have come. After an error nothing more is noted.
    pub fn note(&mut self, bound: u64, times: &[u64]) {
        if self.error.is_none() {
            self.error = self.write(bound, times).err();
        }
    }

    fn write(&mut self, bound: u64, times: &[u64]) -> io::Result<()> {
        let wall = self.start.elapsed(self.rt)?.as_nanos();
        if self.times.is_empty() {
            write_first(&mut self.out, wall, times)?;
        } else {
            write_times(&mut self.out, wall, &self.times, times)?;
        }
        writeln!(self.out, "bound {wall} {bound}")?;
        self.times.clear();
        self.times.extend_from_slice(times)?;
        Ok(())
    }

    /// Ends the trace. The error is that of the first line that couldn't be written.
    pub fn close(self) -> io::Result<()> {
        let Trace { mut out, error, .. } = self;
        match error {
            Some(error) => Err(error),
            None => out.flush(),
        }
    }
}

#[cfg(test)]
mod tests {
    use super::*;
    use std::test::Fail;

    #[test]
    fn a_time_goes_on_or_back(rt: HostRuntime) -> Result<(), Fail> {
        let mut out: Vec<u8> = Vec::new(rt.alloc());
        write_first(&mut out, 60, &[0, 0])?;
        write_times(&mut out, 70, &[0, 0], &[5, 0])?;
        write_times(&mut out, 80, &[5, 0], &[3, 9])?;
        write_times(&mut out, 90, &[3, 9], &[0, 9])?;
        let text =
            "run 60 0 0\nrun 60 1 0\nrun 70 0 5\nback 80 0 3 5\nrun 80 0 3\nrun 80 1 9\nback 90 0 0 3\nrun 90 0 0\n";
        assert_eq!(rt; out.as_slice(), text.as_bytes());
        Ok(())
    }
}
