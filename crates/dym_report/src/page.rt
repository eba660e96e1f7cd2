//! Lines that wait until they are written together.
ghost use Rattle.std.specs.Prelude.{◌≡◌, ◌≤◌, [], ◌++◌, OnOk, OnErr};
ghost use Rattle.dym_base.specs.declared.reply.Reply.TheVariants.{Bytes};
ghost use Rattle.dym_io.specs.Sink.{Writes, Leaves, Stopped};
ghost use Rattle.dym_report.specs.Replies.{reply_line};
ghost use Rattle.dym_report.specs.declared.page.TheConstants.{PAGE_ROOM};

use crate::hex_text::write_hex_line;
use crate::reply::write_reply;
use crate::reply_text::{has_bytes_room, has_room, put_bytes_line, put_line};
use dym_base::Reply;
use dym_io::{Sink, SinkFault, push_all};
use std::marker::Model;

/// The bytes of a page.
const PAGE_ROOM: usize = 2_048;

/// A page of lines that aren't written yet. It is seen as their text.
#[derive(Drop)]
pub struct Page {
    bytes: [u8; PAGE_ROOM],
    end: usize,
}

impl Model for Page {
    ghost use Rattle.std.specs.Prelude.{List, ℕ, ◌≤◌, take};
    ghost use Rattle.dym_report.specs.declared.page.TheConstants.{PAGE_ROOM};

    ghost Value = { List ℕ };

    ghost view = { λ p. take p.end p.bytes };

    ghost invariant = { λ p. p.end ≤ PAGE_ROOM };
}

impl Page {
    /// A page with no line.
    pub fn new() -> Page
        ensures { result ≡ [] }
    {
        Page {
            bytes: [0; PAGE_ROOM],
            end: 0,
        }
    }

    /// Adds the line of a reply. The lines before it are written where they leave no room for it. The only error is that of
    /// the sink.
    #[inline(always)]
    pub fn add<W: Sink>(&mut self, sink: &mut W, reply: &Reply) -> Result<(), SinkFault>
        ensures added { OnOk result (Leaves (W.output sink.old) (W.output sink.new)
            (self.old ++ reply_line reply.now) self.new) }
        ensures stopped { OnErr result (Stopped (W.output sink.old) (W.output sink.new)
            (self.old ++ reply_line reply.now)) }
    {
        if !has_room(PAGE_ROOM - self.end, reply) {
            return self.add_behind(sink, reply);
        }
        self.end = put_line(&mut self.bytes, self.end, reply);
        Ok(())
    }

    /// Writes the lines, and then adds the line of a reply, or writes it too where it is longer than a page.
    #[inline(never)]
    fn add_behind<W: Sink>(&mut self, sink: &mut W, reply: &Reply) -> Result<(), SinkFault>
        ensures added { OnOk result (Leaves (W.output sink.old) (W.output sink.new)
            (self.old ++ reply_line reply.now) self.new) }
        ensures stopped { OnErr result (Stopped (W.output sink.old) (W.output sink.new)
            (self.old ++ reply_line reply.now)) }
    {
        self.write(sink)?;
        if !has_room(PAGE_ROOM, reply) {
            return write_reply(sink, reply);
        }
        self.end = put_line(&mut self.bytes, 0, reply);
        Ok(())
    }

    /// Adds the line of bytes that were read, as `add` does that of a reply that tells them.
    #[inline(always)]
    pub fn add_bytes<W: Sink>(&mut self, sink: &mut W, bytes: &[u8]) -> Result<(), SinkFault>
        ensures added { OnOk result (Leaves (W.output sink.old) (W.output sink.new)
            (self.old ++ reply_line (Bytes bytes.now)) self.new) }
        ensures stopped { OnErr result (Stopped (W.output sink.old) (W.output sink.new)
            (self.old ++ reply_line (Bytes bytes.now))) }
    {
        if !has_bytes_room(PAGE_ROOM - self.end, bytes) {
            return self.add_bytes_behind(sink, bytes);
        }
        self.end = put_bytes_line(&mut self.bytes, self.end, bytes);
        Ok(())
    }

    /// Writes the lines, and then adds the line of bytes, or writes it too where it is longer than a page.
    #[inline(never)]
    fn add_bytes_behind<W: Sink>(&mut self, sink: &mut W, bytes: &[u8]) -> Result<(), SinkFault>
        ensures added { OnOk result (Leaves (W.output sink.old) (W.output sink.new)
            (self.old ++ reply_line (Bytes bytes.now)) self.new) }
        ensures stopped { OnErr result (Stopped (W.output sink.old) (W.output sink.new)
            (self.old ++ reply_line (Bytes bytes.now))) }
    {
        self.write(sink)?;
        if !has_bytes_room(PAGE_ROOM, bytes) {
            return write_hex_line(sink, b"ok ", bytes);
        }
        self.end = put_bytes_line(&mut self.bytes, 0, bytes);
        Ok(())
    }

    /// Writes the lines, after which the page has none. The only error is that of the sink.
    pub fn write<W: Sink>(&mut self, sink: &mut W) -> Result<(), SinkFault>
        ensures written { Writes (W.output sink.old) (W.output sink.new) self.old result }
        ensures empty { OnOk result (self.new ≡ []) }
    {
        push_all(sink, &self.bytes[..self.end])?;
        self.end = 0;
        Ok(())
    }
}
