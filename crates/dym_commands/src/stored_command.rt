//! One command in 16 bytes, and the tables that have what doesn't fit.
ghost use Rattle.std.specs.Prelude.{◌≡◌, ◌+◌, ◌≤◌, ◌<◌, ◌^◌, [], ◌∷◌, ◌++◌, length, drop, IfOk, OnOk, OnErr};
ghost use Rattle.dym_base.specs.declared.command.Command.TheVariants.{Calloc, Write};
ghost use Rattle.dym_commands.specs.Handles.{handle_of};
ghost use Rattle.dym_commands.specs.Requests.{asks, asks_borrowed};
ghost use Rattle.dym_commands.specs.StoredCommands.{bytes_at, command_of, IsFit, IsStored, Still};

use crate::hex_bytes::HexBytes;
use crate::packed_handle::{PackedHandle, pack, pack_or_nil, unpack, unpack_or_nil};
use crate::request::Request;
use dym_base::{Command, Handle};
use std::alloc::{AllocError, Global};
use std::mem::size_of;

/// A command in 16 bytes: its handles without gaps, and what doesn't fit in the tables, in a row or from a place on.
#[derive(Clone, Copy)]
pub enum StoredCommand {
    Malloc {
        len: u64,
    },
    Calloc {
        n: u32,
        len: u32,
    },
    /// The two numbers are a row.
    WideCalloc {
        row: u32,
    },
    Realloc {
        h: Option<PackedHandle>,
        len: u64,
    },
    Free {
        h: Option<PackedHandle>,
    },
    Write {
        h: PackedHandle,
        len: u16,
        at: u32,
        place: u32,
    },
    /// The place and the length are a row.
    WideWrite {
        h: PackedHandle,
        at: u32,
        row: u32,
    },
    Fill {
        h: PackedHandle,
        byte: u8,
        at: u32,
        len: u32,
    },
    Read {
        h: PackedHandle,
        at: u32,
        len: u32,
    },
    Link {
        h: PackedHandle,
        to: Option<PackedHandle>,
        at: u32,
    },
    Follow {
        h: PackedHandle,
        at: u32,
    },
    Sum {
        h: PackedHandle,
    },
    Log {
        time: u64,
    },
    Ilog {
        time: u64,
    },
    Restore {
        time: u64,
    },
    Prune {
        bound: u64,
    },
    Logs,
}

const _: () = prove!(size_of::<StoredCommand>() == 16);

/// Two numbers that are too wide for a kept command.
#[derive(Clone, Copy)]
pub struct Wide {
    pub first: u64,
    pub second: u64,
}

/// What doesn't fit into kept commands. A table only grows at its end, so that what was kept stays.
#[derive(Drop)]
pub struct Tables {
    /// The bytes of the writes, one after another.
    pub bytes: Vec<u8>,
    /// The numbers that are too wide.
    pub wide: Vec<Wide>,
}

impl Tables {
    /// Tables with nothing in them.
    pub fn new(alloc: Global) -> Tables
        ensures { length result.wide.items ≡ 0 }
    {
        Tables {
            bytes: Vec::new(alloc),
            wide: Vec::new(alloc),
        }
    }

    /// Keeps what a line asks.
    #[inline(always)]
    pub fn store(&mut self, asked: &Request<HexBytes<'_>>) -> Result<StoredCommand, AllocError>
        requires { length self.old.wide.items < 2 ^ 32 }
        ensures same_rows { OnErr result (self.new.wide.items ≡ self.old.wide.items) }
        ensures still { Still self.old self.new }
        ensures stored { IfOk result (IsStored self.old self.new (asks asked.now)) }
    {
        match asked {
            Request::Plain(command) => self.store_plain(command),
            Request::Write { h, at, bytes } => {
                let place = self.bytes.len();
                bytes.append_to(&mut self.bytes)?;
                self.store_write(*h, *at, place)
            }
        }
    }

    /// Keeps a command.
    #[inline(always)]
    fn store_plain(&mut self, command: &Command) -> Result<StoredCommand, AllocError>
        requires { length self.old.wide.items < 2 ^ 32 }
        ensures same_rows { OnErr result (self.new.wide.items ≡ self.old.wide.items) }
        ensures still { Still self.old self.new }
        ensures stored { IfOk result (IsStored self.old self.new command.now) }
    {
        let stored = match *command {
            Command::Malloc { len } => StoredCommand::Malloc { len },
            Command::Calloc { n, len } => return self.store_calloc(n, len),
            Command::Realloc { h, len } => {
                let h = pack_or_nil(h);
                StoredCommand::Realloc { h, len }
            }
            Command::Free { h } => StoredCommand::Free { h: pack_or_nil(h) },
            Command::Write { h, at, ref bytes } => {
                let place = self.bytes.len();
                self.bytes.extend_from_slice(bytes.bytes())?;
                return self.store_write(h, at, place);
            }
            Command::Fill { h, at, len, byte } => {
                let h = pack(h);
                StoredCommand::Fill { h, byte, at, len }
            }
            Command::Read { h, at, len } => {
                let h = pack(h);
                StoredCommand::Read { h, at, len }
            }
            Command::Link { h, at, to } => {
                let (h, to) = (pack(h), pack_or_nil(to));
                StoredCommand::Link { h, to, at }
            }
            Command::Follow { h, at } => StoredCommand::Follow { h: pack(h), at },
            Command::Sum { h } => StoredCommand::Sum { h: pack(h) },
            Command::Log { time } => StoredCommand::Log { time },
            Command::Ilog { time } => StoredCommand::Ilog { time },
            Command::Restore { time } => StoredCommand::Restore { time },
            Command::Prune { bound } => StoredCommand::Prune { bound },
            Command::Logs => StoredCommand::Logs,
        };
        Ok(stored)
    }

    /// Keeps a calloc, in a row where a number is above 32 bits.
    #[inline(always)]
    fn store_calloc(&mut self, n: u64, len: u64) -> Result<StoredCommand, AllocError>
        requires { length self.old.wide.items < 2 ^ 32 }
        ensures same_rows { OnErr result (self.new.wide.items ≡ self.old.wide.items) }
        ensures still { Still self.old self.new }
        ensures stored { IfOk result (IsStored self.old self.new (Calloc n len)) }
    {
        if n > u64::from(u32::MAX) || len > u64::from(u32::MAX) {
            let row = self.store_wide(n, len)?;
            return Ok(StoredCommand::WideCalloc { row });
        }
        Ok(StoredCommand::Calloc {
            n: n as u32,
            len: len as u32,
        })
    }

    /// Keeps a write of the bytes from a place on, in a row where the place is above 32 bits or their number above 16.
    #[inline(always)]
    fn store_write(&mut self, h: Handle, at: u32, place: usize) -> Result<StoredCommand, AllocError>
        requires few { length self.old.wide.items < 2 ^ 32 }
        requires within { place ≤ length self.old.bytes.items }
        ensures same_rows { OnErr result (self.new.wide.items ≡ self.old.wide.items) }
        ensures still { Still self.old self.new }
        ensures stored { IfOk result (IsStored self.old self.new (Write h at (drop place self.old.bytes.items))) }
    {
        let h = pack(h);
        let len = self.bytes.len() - place;
        if place > u32::MAX as usize || len > u16::MAX as usize {
            let row = self.store_wide(place as u64, len as u64)?;
            return Ok(StoredCommand::WideWrite { h, at, row });
        }
        Ok(StoredCommand::Write {
            h,
            len: len as u16,
            at,
            place: place as u32,
        })
    }

    /// Keeps two wide numbers in a row of their own.
    fn store_wide(&mut self, first: u64, second: u64) -> Result<u32, AllocError>
        requires { length self.old.wide.items < 2 ^ 32 }
        ensures bytes { self.new.bytes.items ≡ self.old.bytes.items }
        ensures same { OnErr result (self.new.wide.items ≡ self.old.wide.items) }
        ensures row { OnOk result
            (self.new.wide.items ≡ self.old.wide.items ++ (record { first = first; second = second }) ∷ []) }
        ensures last { IfOk result (λ row. row ≡ length self.old.wide.items) }
    {
        let row = self.wide.len() as u32;
        self.wide.push(Wide { first, second })?;
        Ok(row)
    }

    /// What a kept command asks, with the bytes of a write where they stand.
    #[inline(always)]
    pub fn request(&self, stored: &StoredCommand) -> Request<&[u8]>
        requires { IsFit self.now stored.now }
        ensures { asks_borrowed result ≡ command_of self.now stored.now }
    {
        Request::Plain(match *stored {
            StoredCommand::Malloc { len } => Command::Malloc { len },
            StoredCommand::Calloc { n, len } => {
                let (n, len) = (u64::from(n), u64::from(len));
                Command::Calloc { n, len }
            }
            StoredCommand::WideCalloc { row } => {
                let wide = self.wide[row as usize];
                let (n, len) = (wide.first, wide.second);
                Command::Calloc { n, len }
            }
            StoredCommand::Realloc { h, len } => {
                let h = unpack_or_nil(h);
                Command::Realloc { h, len }
            }
            StoredCommand::Free { h } => Command::Free {
                h: unpack_or_nil(h),
            },
            StoredCommand::Write { h, len, at, place } => {
                return self.write_request(h, at, place as usize, len as usize);
            }
            StoredCommand::WideWrite { h, at, row } => {
                let Wide { first, second } = self.wide[row as usize];
                return self.write_request(h, at, first as usize, second as usize);
            }
            StoredCommand::Fill { h, byte, at, len } => {
                let h = unpack(h);
                Command::Fill { h, at, len, byte }
            }
            StoredCommand::Read { h, at, len } => {
                let h = unpack(h);
                Command::Read { h, at, len }
            }
            StoredCommand::Link { h, to, at } => {
                let (h, to) = (unpack(h), unpack_or_nil(to));
                Command::Link { h, at, to }
            }
            StoredCommand::Follow { h, at } => Command::Follow { h: unpack(h), at },
            StoredCommand::Sum { h } => Command::Sum { h: unpack(h) },
            StoredCommand::Log { time } => Command::Log { time },
            StoredCommand::Ilog { time } => Command::Ilog { time },
            StoredCommand::Restore { time } => Command::Restore { time },
            StoredCommand::Prune { bound } => Command::Prune { bound },
            StoredCommand::Logs => Command::Logs,
        })
    }

    /// A write of so many bytes that stand from a place on.
    #[inline(always)]
    fn write_request(&self, h: PackedHandle, at: u32, place: usize, len: usize) -> Request<&[u8]>
        requires { place + len ≤ length self.now.bytes.items }
        ensures { asks_borrowed result ≡ Write (handle_of h) at (bytes_at self.now place len) }
    {
        Request::Write {
            h: unpack(h),
            at,
            bytes: &self.bytes[place..place + len],
        }
    }
}
