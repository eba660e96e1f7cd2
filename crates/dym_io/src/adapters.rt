//! The standard library's readers and writers as sources and sinks: the edge of what is proved.
ghost use Rattle.std.specs.Prelude.{◌≡◌, false, None};

use crate::faults::Count;
use crate::{Failed, Sink, Source};
use std::io::{Read, Write};

/// A reader of the standard library as a source. It tells its bytes where the reader does, as those in memory do. Each error of
/// the reader is a fault, an interrupted call too, since nothing bounds how often one would have to be made again. Once the
/// reader has given its end or an error, it is read no more.
#[derive(Drop)]
pub struct StdSource<R> {
    reader: R,
    faults: Count,
    is_done: bool,
}

impl<R: Read> StdSource<R> {
    /// A source over this reader, with no fault so far.
    pub fn new(reader: R) -> StdSource<R>
        ensures left { ⟦<StdSource<R> as Source>⟧.left result ≡ R.remaining reader }
        ensures faults { ⟦<StdSource<R> as Source>⟧.faults result ≡ 0 }
        ensures goes_on { ⟦<StdSource<R> as Source>⟧.goes_on result }
    {
        StdSource {
            reader,
            faults: Count::zero(),
            is_done: false,
        }
    }
}

impl<R: Read> Source for StdSource<R> {
    ghost left = { λ s. R.remaining s.reader };

    ghost faults = { λ s. s.faults.value };

    ghost goes_on = { λ s. s.is_done ≡ false };

    fn pull(&mut self, out: &mut [u8]) -> Result<usize, Failed> {
        match self.reader.read(out) {
            Ok(amount) => {
                self.is_done = amount == 0;
                Ok(amount)
            }
            Err(_) => {
                self.is_done = true;
                Err(self.faults.failed())
            }
        }
    }
}

/// A writer of the standard library as a sink. Each error of the writer is a fault, and so is a call that takes nothing. It
/// tells its bytes where the writer does, and never what was flushed.
#[derive(Drop)]
pub struct StdSink<W> {
    writer: W,
    faults: Count,
}

impl<W: Write> StdSink<W> {
    /// A sink over this writer, with no fault so far.
    pub fn new(writer: W) -> StdSink<W>
        ensures { ⟦<StdSink<W> as Sink>⟧.output result
            ≡ record { written = W.contents writer; flushed = None; faults = 0 } }
    {
        StdSink {
            writer,
            faults: Count::zero(),
        }
    }
}

impl<W: Write> Sink for StdSink<W> {
    ghost output = { λ s. record { written = W.contents s.writer; flushed = None; faults = s.faults.value } };

    fn push(&mut self, piece: &[u8]) -> Result<usize, Failed> {
        match self.writer.write(piece) {
            Ok(amount) if amount > 0 => Ok(amount),
            _ => Err(self.faults.failed()),
        }
    }

    fn flush(&mut self) -> Result<(), Failed> {
        match self.writer.flush() {
            Ok(()) => Ok(()),
            Err(_) => Err(self.faults.failed()),
        }
    }
}
