//! Replies as text.
ghost use Rattle.std.specs.Prelude.{◌≡◌, ◌≤◌, ◌++◌, length, drop, decimal, codes, flat_map, IfSome};
ghost use Rattle.dym_io.specs.Sink.{Writes};
ghost use Rattle.dym_report.specs.Replies.{reply_line};

use crate::hex_text::write_hex_line;
use crate::page::Page;
use crate::reply_text::{LINE_ROOM, put_line, put_numbers};
use dym_base::Reply;
use dym_io::{Sink, SinkFault, push_all, put_named, put_text};

/// Writes the line of one reply. Its only error is that of the sink.
pub fn write_reply<W: Sink>(sink: &mut W, reply: &Reply) -> Result<(), SinkFault>
    ensures { Writes (W.output sink.old) (W.output sink.new) (reply_line reply.now) result }
{
    match reply {
        Reply::Bytes(bytes) => write_hex_line(sink, b"ok ", bytes.bytes()),
        _ => {
            let mut line = [0; LINE_ROOM];
            let end = put_line(&mut line, 0, reply);
            push_all(sink, &line[..end])
        }
    }
}

/// Writes the lines of replies, in order. Its only error is that of the sink.
pub fn write_replies<W: Sink>(sink: &mut W, replies: &[Reply]) -> Result<(), SinkFault>
    ensures { Writes (W.output sink.old) (W.output sink.new)
        (flat_map reply_line replies.now) result }
{
    let mut page = Page::new();
    for reply in replies {
        page.add(sink, reply)?;
    }
    page.write(sink)
}

/// Writes a line of a word and a number.
pub fn write_number<W: Sink>(sink: &mut W, word: &[u8], number: u64) -> Result<(), SinkFault>
    requires { length word.now ≤ 20 }
    ensures { Writes (W.output sink.old) (W.output sink.new)
        (word.now ++ decimal number ++ codes "\n") result }
{
    let mut line = [0; LINE_ROOM];
    let end = put_named(&mut line, 0, word, number);
    let end = put_text(&mut line, end, b"\n");
    push_all(sink, &line[..end])
}

/// Writes a line of a word and two numbers.
pub fn write_numbers<W: Sink>(
    sink: &mut W,
    word: &[u8],
    first: u64,
    second: u64,
) -> Result<(), SinkFault>
    requires { length word.now ≤ 20 }
    ensures { Writes (W.output sink.old) (W.output sink.new)
        (word.now ++ decimal first ++ codes " " ++ decimal second ++ codes "\n") result }
{
    let mut line = [0; LINE_ROOM];
    let end = put_numbers(&mut line, 0, word, first, second);
    let end = put_text(&mut line, end, b"\n");
    push_all(sink, &line[..end])
}
