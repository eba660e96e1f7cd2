//! An object's part, written from replies that are kept in little memory.
ghost use Rattle.std.specs.Prelude.{◌≡◌, ◌<◌, ◌++◌, length, flat_map, slice_get, IfOk, IfSome, OnOk, OnErr};
ghost use Rattle.dym_io.specs.Sink.{Writes, Leaves, Stopped};
ghost use Rattle.dym_report.specs.Replies.{reply_line};
ghost use Rattle.dym_wave.specs.Results.{shown_text};
ghost use Rattle.dym_wave.specs.States.{object_shown};
ghost use Rattle.dym_wave.specs.Views.{view_line_text};

use dym_base::{Name, Reply};
use dym_chain::LogKeep;
use dym_commands::Replies;
use dym_io::{MemSink, Sink, SinkFault};
use dym_object::Object;
use dym_quota::Supply;
use dym_report::{Page, ViewLine, write_heading, write_state, write_view};
use std::alloc::{AllocError, Global};

/// About the bytes of a reply's line, and those of what stands around the replies.
const ROOM_OF_REPLY: usize = 20;

const ROOM_OF_STATE: usize = 576;

/// A part with more replies is written when its wave is over. The text of one takes at most about 64 KiB.
const MOST_REPLIES_OF_TEXT: usize = 3_250;

/// The text of an object's part, where there is memory for it and it isn't long.
pub(crate) fn text_of<S: Supply, K: LogKeep>(
    alloc: Global,
    name: &Name,
    replies: &Replies,
    object: &Object<S, K>,
    line: Option<Option<ViewLine>>,
) -> Result<Vec<u8>, AllocError>
    ensures { IfOk result (λ text. text.items
        ≡ shown_text (object_shown name.now replies.now.replies object.now line)) }
{
    if replies.len() > MOST_REPLIES_OF_TEXT {
        return Err(AllocError);
    }
    let room = ROOM_OF_STATE + replies.len() * ROOM_OF_REPLY;
    let mut sink = MemSink::new(alloc, room, room, Vec::new(alloc))?;
    match write_part(&mut sink, name, replies, object, line) {
        Ok(()) => Ok(sink.into_bytes()),
        Err(_) => Err(AllocError),
    }
}

/// Writes an object's part, and the line of its view where that is told. Its only error is that of the sink.
pub(crate) fn write_part<W: Sink, S: Supply, K: LogKeep>(
    sink: &mut W,
    name: &Name,
    replies: &Replies,
    object: &Object<S, K>,
    line: Option<Option<ViewLine>>,
) -> Result<(), SinkFault>
    ensures { Writes (W.output sink.old) (W.output sink.new)
        (shown_text (object_shown name.now replies.now.replies object.now line)) result }
{
    write_heading(sink, name)?;
    write_replies(sink, replies)?;
    write_state(sink, object.heap(), object.kept(), object.slots())?;
    write_view_line(sink, line)
}

/// Writes the line of a view, where one is told.
fn write_view_line<W: Sink>(sink: &mut W, line: Option<Option<ViewLine>>) -> Result<(), SinkFault>
    ensures { Writes (W.output sink.old) (W.output sink.new) (view_line_text line) result }
{
    match line {
        Some(line) => write_view(sink, line),
        None => Ok(()),
    }
}

/// Writes the lines of replies, in order, as many together as a page has room for. Its only error is that of the sink.
fn write_replies<W: Sink>(sink: &mut W, replies: &Replies) -> Result<(), SinkFault>
    ensures { Writes (W.output sink.old) (W.output sink.new)
        (flat_map reply_line replies.now.replies) result }
{
    let mut page = Page::new();
    let mut reply = Reply::Done;
    for k in 0..replies.len() {
        add_reply(&mut page, sink, replies, k, &mut reply)?;
    }
    page.write(sink)
}

/// Adds the line of reply `k`, which counts from 0 on. The place is one for a reply that is made anew.
#[inline(always)]
fn add_reply<W: Sink>(
    page: &mut Page,
    sink: &mut W,
    replies: &Replies,
    k: usize,
    place: &mut Reply,
) -> Result<(), SinkFault>
    requires { k < length replies.now.replies }
    ensures added { OnOk result (IfSome (slice_get replies.now.replies k)
        (λ reply. Leaves (W.output sink.old) (W.output sink.new)
        (page.old ++ reply_line reply) page.new)) }
    ensures stopped { OnErr result (IfSome (slice_get replies.now.replies k)
        (λ reply. Stopped (W.output sink.old) (W.output sink.new) (page.old ++ reply_line reply))) }
{
    match replies.reply_into(k, place) {
        Some(bytes) => page.add_bytes(sink, bytes),
        None => page.add(sink, place),
    }
}
