//! A source and a sink in memory, whose calls fail where that was asked for.
ghost use Rattle.std.specs.Prelude.{◌≡◌, ◌⊎◌, ◌↔◌, ◌≤◌, ◌<◌, ◌++◌, [], length, take, drop, Some, Ok, IsErr, Contains, IfOk, OnOk, OnErr, ⊤};
ghost use Rattle.std.specs.Io.KnownBytes.{Keeps};
ghost use Rattle.dym_io.specs.Faults.{RoseOnce, counted};
ghost use Rattle.dym_io.specs.Source.{Takes, IsEmptyAtEnd};
ghost use Rattle.dym_io.specs.Sink.{Pushes, AllFlushed};
ghost use Rattle.dym_io.specs.Memory.{given, accepted, output_of, SourceFails, SinkFails, IsFull};

use crate::faults::Count;
use crate::{Failed, Sink, Source};
use std::alloc::{AllocError, Global};
use std::marker::Model;

/// The calls of an object so far, and those that fail, numbered from 0.
#[derive(Drop)]
struct Calls {
    fails: Vec<u32>,
    made: Count,
    faults: Count,
}

impl Calls {
    fn new(fails: Vec<u32>) -> Calls
        ensures fails { result.fails.items ≡ fails.items }
        ensures made { result.made.value ≡ 0 }
        ensures faults { result.faults.value ≡ 0 }
    {
        Calls {
            fails,
            made: Count::zero(),
            faults: Count::zero(),
        }
    }

    /// Counts a call, and a fault where the call is among those that fail.
    fn begin(&mut self) -> Result<(), Failed>
        ensures fails { IsErr result ↔ Contains self.old.fails.items self.old.made.value }
        ensures kept { self.new.fails ≡ self.old.fails }
        ensures made { self.new.made.value ≡ counted self.old.made.value }
        ensures ok { OnOk result (self.new.faults ≡ self.old.faults) }
        ensures err { OnErr result (self.new.faults.value ≡ counted self.old.faults.value) }
    {
        let call = self.made.value;
        self.made.raise();
        if self.fails.iter().any(|failing| u64::from(*failing) == call) {
            return Err(self.faults.failed());
        }
        Ok(())
    }
}

/// Bytes in memory that are given in small pieces.
#[derive(Drop)]
pub struct MemSource {
    bytes: Vec<u8>,
    taken: usize,
    piece: usize,
    calls: Calls,
}

impl Model for MemSource {
    ghost use Rattle.std.specs.Prelude.{◌≤◌, ◌<◌, drop, vec_len};
    ghost use Rattle.dym_io.specs.Memory.{MemInput};

    ghost Value = { MemInput };

    ghost view = { λ s. record {
      left = drop s.taken s.bytes.items;
      piece = s.piece;
      fails = s.calls.fails.items;
      calls = s.calls.made.value;
      faults = s.calls.faults.value;
    } };

    ghost invariant = { λ s. (s.taken ≤ vec_len s.bytes) × (0 < s.piece) };
}

impl MemSource {
    /// A source of these bytes that gives at most `piece` of them in a call. The calls that `fails` names, numbered from 0,
    /// fail and take nothing.
    pub fn new(bytes: Vec<u8>, piece: usize, fails: Vec<u32>) -> MemSource
        requires { 0 < piece }
        ensures { result ≡ record {
          left = bytes.items;
          piece = piece;
          fails = fails.items;
          calls = 0;
          faults = 0;
        } }
    {
        MemSource {
            bytes,
            taken: 0,
            piece,
            calls: Calls::new(fails),
        }
    }
}

impl Source for MemSource {
    ghost left = { λ s. Some s.left };

    ghost faults = { λ s. s.faults };

    ghost goes_on = { λ s. ⊤ };

    fn pull(&mut self, out: &mut [u8]) -> Result<usize, Failed>
        requires room { 0 < length out.old }
        requires goes_on { ⊤ }
        ensures amount { IfOk result (λ n. n ≤ length out.new) }
        ensures taken { Takes (Some self.old.left) (Some self.new.left) out.new result }
        ensures end { IfOk result (IsEmptyAtEnd (Some self.old.left)) }
        ensures more { IfOk result (λ n. 0 < n → ⊤) }
        ensures count { OnOk result (self.new.faults ≡ self.old.faults) }
        ensures failed { OnErr result (RoseOnce self.old.faults self.new.faults) }

        // Which calls fail, and what the others give.
        ensures fails { IsErr result ↔ SourceFails self.old }
        ensures given { OnOk result (result ≡ Ok (given self.old (length out.old))) }
        ensures after_ok { IfOk result (λ n. self.new ≡ record self.old {
          left = drop n self.old.left;
          calls = counted self.old.calls;
        }) }
        ensures after_err { OnErr result (self.new ≡ record self.old {
          calls = counted self.old.calls;
          faults = counted self.old.faults;
        }) }
    {
        self.calls.begin()?;
        let left = self.bytes.len() - self.taken;
        let amount = out.len().min(self.piece).min(left);
        out[..amount].copy_from_slice(&self.bytes[self.taken..self.taken + amount]);
        self.taken += amount;
        Ok(amount)
    }
}

/// Bytes in memory that are taken in small pieces, into a room of fixed size.
#[derive(Drop)]
pub struct MemSink {
    bytes: Vec<u8>,
    flushed: usize,
    room: usize,
    piece: usize,
    calls: Calls,
}

impl Model for MemSink {
    ghost use Rattle.std.specs.Prelude.{◌≤◌, ◌<◌, vec_len, vec_capacity};
    ghost use Rattle.dym_io.specs.Memory.{MemOutput};

    ghost Value = { MemOutput };

    ghost view = { λ s. record {
      written = s.bytes.items;
      flushed = s.flushed;
      room = s.room;
      piece = s.piece;
      fails = s.calls.fails.items;
      calls = s.calls.made.value;
      faults = s.calls.faults.value;
    } };

    ghost invariant = { λ s. (vec_len s.bytes ≤ s.room) × (s.room ≤ vec_capacity s.bytes) × (0 < s.piece) };
}

impl MemSink {
    /// An empty sink that holds at most `room` bytes and takes at most `piece` of them in a call. A push into a full one fails,
    /// and so do the calls that `fails` names, numbered from 0. The room is taken here: no later call allocates.
    pub fn new(
        alloc: Global,
        room: usize,
        piece: usize,
        fails: Vec<u32>,
    ) -> Result<MemSink, AllocError>
        requires { 0 < piece }
        ensures { IfOk result (λ sink. sink ≡ record {
          written = [];
          flushed = 0;
          room = room;
          piece = piece;
          fails = fails.items;
          calls = 0;
          faults = 0;
        }) }
    {
        Ok(MemSink {
            bytes: Vec::with_capacity(alloc, room)?,
            flushed: 0,
            room,
            piece,
            calls: Calls::new(fails),
        })
    }

    /// The bytes that were written.
    pub fn bytes(&self) -> &[u8]
        ensures { result.now ≡ self.now.written }
    {
        &self.bytes
    }

    /// Gives up the sink, and hands out the bytes that were written.
    pub fn into_bytes(self) -> Vec<u8>
        ensures { result.items ≡ self.written }
    {
        let MemSink {
            bytes,
            flushed: _,
            room: _,
            piece: _,
            calls: _,
        } = self;
        bytes
    }
}

impl Sink for MemSink {
    ghost output = { output_of };

    fn push(&mut self, piece: &[u8]) -> Result<usize, Failed>
        requires { 0 < length piece.now }
        ensures some { IfOk result (λ n. 0 < n) }
        ensures amount { IfOk result (λ n. n ≤ length piece.now) }
        ensures written { Pushes (output_of self.old) (output_of self.new) piece.now result }

        // Which calls fail, and what the others take.
        ensures fails { IsErr result ↔ (SinkFails self.old ⊎ IsFull self.old) }
        ensures accepted { OnOk result (result ≡ Ok (accepted self.old (length piece.now))) }
        ensures after_ok { IfOk result (λ n. self.new ≡ record self.old {
          written = self.old.written ++ take n piece.now;
          calls = counted self.old.calls;
        }) }
        ensures after_err { OnErr result (self.new ≡ record self.old {
          calls = counted self.old.calls;
          faults = counted self.old.faults;
        }) }
    {
        self.calls.begin()?;
        if self.bytes.len() == self.room {
            return Err(self.calls.faults.failed());
        }
        let amount = piece
            .len()
            .min(self.piece)
            .min(self.room - self.bytes.len());
        self.bytes.extend_from_slice(&piece[..amount]).unwrap();
        Ok(amount)
    }

    fn flush(&mut self) -> Result<(), Failed>
        ensures written { Keeps (output_of self.old).written (output_of self.new).written }
        ensures flushed { OnOk result (AllFlushed (output_of self.old) (output_of self.new)) }
        ensures stays { OnErr result ((output_of self.new).flushed ≡ (output_of self.old).flushed) }
        ensures count { OnOk result (self.new.faults ≡ self.old.faults) }
        ensures failed { OnErr result (RoseOnce self.old.faults self.new.faults) }

        // Which calls fail.
        ensures fails { IsErr result ↔ SinkFails self.old }
        ensures after_ok { OnOk result (self.new ≡ record self.old {
          flushed = length self.old.written;
          calls = counted self.old.calls;
        }) }
        ensures after_err { OnErr result (self.new ≡ record self.old {
          calls = counted self.old.calls;
          faults = counted self.old.faults;
        }) }
    {
        self.calls.begin()?;
        self.flushed = self.bytes.len();
        Ok(())
    }
}
