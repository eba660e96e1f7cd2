//! What is asked of an object.
ghost use Rattle.std.specs.Prelude.{◌≡◌, ◌≤◌, IfOk};
ghost use Rattle.dym_base.specs.declared.limits.TheConstants.{SEGMENT_BYTES};
ghost use Rattle.dym_commands.specs.Requests.{asks};
ghost use Rattle.dym_commands.specs.Reads.{read_room};

use crate::hex_bytes::HexBytes;
use dym_base::limits::SEGMENT_BYTES;
use dym_base::{Command, Handle};
use std::alloc::{AllocError, Global};

/// What is asked of an object, by how the bytes of a write are held: as the word of a line, or borrowed.
#[derive(Drop)]
pub enum Request<Bytes> {
    /// A command that has all that it needs.
    Plain(Command),
    /// A write, whose bytes stand elsewhere.
    Write { h: Handle, at: u32, bytes: Bytes },
}

impl<'a> Request<HexBytes<'a>> {
    /// A copy of the command, with bytes of its own. Only memory for these can be wanting.
    pub fn command(&self, alloc: Global) -> Result<Command, AllocError>
        ensures { IfOk result (λ command. command ≡ asks self.now) }
    {
        match self {
            Request::Plain(command) => command.clone(),
            Request::Write { h, at, bytes } => Ok(Command::Write {
                h: *h,
                at: *at,
                bytes: bytes.blob(alloc)?,
            }),
        }
    }

    /// How many bytes the reply tells at most.
    #[inline(always)]
    pub(crate) fn read_room(&self) -> usize
        ensures room { result ≡ read_room (asks self.now) }
        ensures small { result ≤ SEGMENT_BYTES }
    {
        match self {
            Request::Plain(Command::Read { len, .. }) if *len <= SEGMENT_BYTES => *len as usize,
            _ => 0,
        }
    }
}
