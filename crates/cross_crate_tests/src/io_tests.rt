//! The adapters of a reader and a writer of the standard library: no call follows an end or a fault, and a flush is passed on. That bytes
//! pass them whole each row of the built program shows.
use dym_io::{ReadFail, Sink, StdSink, StdSource, push_all, read_whole};
use std::alloc::{AllocError, Global};
use std::io;
use std::io::{ErrorKind, Read, Write};

const TEXT: &[u8] = b"object a 1";

/// Gives or takes four bytes in each call but one, which fails or gives nothing.
#[derive(Drop)]
struct Once {
    calls: usize,
    at: usize,
    fails: bool,
}

impl Once {
    fn new(at: usize, fails: bool) -> Once {
        Once {
            calls: 0,
            at,
            fails,
        }
    }

    fn call(&mut self) -> io::Result<usize> {
        let is_other = self.calls == self.at;
        self.calls = self.calls.saturating_add(1);
        match (is_other, self.fails) {
            (true, true) => Err(io::Error::from(ErrorKind::Interrupted)),
            (true, false) => Ok(0),
            _ => Ok(4),
        }
    }
}

impl Read for Once {
    fn read(&mut self, buf: &mut [u8]) -> io::Result<usize> {
        let amount = self.call()?.min(buf.len());
        buf[..amount].fill(b'x');
        Ok(amount)
    }
}

impl Write for Once {
    fn write(&mut self, buf: &[u8]) -> io::Result<usize> {
        Ok(self.call()?.min(buf.len()))
    }

    fn flush(&mut self) -> io::Result<()> {
        self.call()?;
        Ok(())
    }
}

/// How many bytes are read of a reader, 99 where it fails, and how many calls of it were made.
fn read_calls(alloc: Global, at: usize, fails: bool) -> Result<[usize; 2], AllocError> {
    let mut reader = Once::new(at, fails);
    let len = match read_whole(alloc, &mut StdSource::new(&mut reader), 20) {
        Ok(bytes) => bytes.len(),
        Err(ReadFail::Source) => 99,
        Err(ReadFail::Memory) => return Err(AllocError),
    };
    Ok([len, reader.calls])
}

/// Whether the text is written and flushed, and how many calls of the writer were made.
fn write_calls(at: usize, fails: bool) -> (bool, usize) {
    let mut writer = Once::new(at, fails);
    let mut sink = StdSink::new(&mut writer);
    let is_written = push_all(&mut sink, TEXT).is_ok() && sink.flush().is_ok();
    drop(sink);
    (is_written, writer.calls)
}

#[test]
fn no_call_follows_an_end_or_a_fault(rt: HostRuntime) -> Result<(), AllocError> {
    for (at, fails, read, wrote) in [
        (0, true, [99, 1], (false, 1)),
        (1, true, [99, 2], (false, 2)),
        (1, false, [4, 2], (false, 2)),
        (2, false, [8, 3], (false, 3)),
        (3, true, [99, 4], (false, 4)),
        (9, true, [20, 5], (true, 4)),
    ] {
        assert!(rt; read_calls(rt.alloc(), at, fails)? == read, "{at}");
        assert!(rt; write_calls(at, fails) == wrote, "{at}");
    }
    Ok(())
}
