//! What a line of a script asks of an object.

use crate::blob::Blob;
use crate::handle::Handle;

/// The two versions of a script. In version 1 a chunk's length is the size of its class, in version 2 it is the length that
/// was asked.
#[derive(Clone, Copy, Debug, PartialEq, Eq)]
pub enum Version {
    One,
    Two,
}

/// The two kinds of log: the whole heap, or what was touched since the log before.
#[derive(Clone, Copy, Debug, PartialEq, Eq)]
pub enum Kind {
    Full,
    Inc,
}

/// One command to an object. `None` in the place of a handle is nil.
#[derive(Clone, Drop, PartialEq)]
pub enum Command {
    Malloc {
        len: u64,
    },
    Calloc {
        n: u64,
        len: u64,
    },
    Realloc {
        h: Option<Handle>,
        len: u64,
    },
    Free {
        h: Option<Handle>,
    },
    Write {
        h: Handle,
        at: u32,
        bytes: Blob,
    },
    Fill {
        h: Handle,
        at: u32,
        len: u32,
        byte: u8,
    },
    Read {
        h: Handle,
        at: u32,
        len: u32,
    },
    Link {
        h: Handle,
        at: u32,
        to: Option<Handle>,
    },
    Follow {
        h: Handle,
        at: u32,
    },
    Sum {
        h: Handle,
    },
    Log {
        time: u64,
    },
    Ilog {
        time: u64,
    },
    Restore {
        time: u64,
    },
    Prune {
        bound: u64,
    },
    Logs,
}
