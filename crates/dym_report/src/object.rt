//! The parts of the report of one object.
ghost use Rattle.std.specs.Prelude.{◌≡◌, ◌≤◌, ◌++◌, length, take};
ghost use Rattle.dym_io.specs.Sink.{Writes};
ghost use Rattle.dym_report.specs.declared.reply_text.TheConstants.{LINE_ROOM};
ghost use Rattle.dym_report.specs.Handles.{handle_text};
ghost use Rattle.dym_report.specs.Objects.{heading, length_text, image_line, logs_line};

use crate::hex_text::{trimmed, write_hex_line};
use crate::reply::write_numbers;
use crate::reply_text::{LINE_ROOM, put_handle};
use dym_base::{Handle, Name, Version};
use dym_io::{Sink, SinkFault, push_parts, put_named, put_text};

/// Writes the line that names an object. Its only error is that of the sink.
pub fn write_heading<W: Sink>(sink: &mut W, name: &Name) -> Result<(), SinkFault>
    ensures { Writes (W.output sink.old) (W.output sink.new) (heading name.now) result }
{
    push_parts(
        sink,
        &[b"object ".as_slice(), name.bytes(), b"\n".as_slice()],
    )
}

/// Writes the line of a live chunk with these bytes. Its only error is that of the sink.
pub fn write_image<W: Sink>(
    sink: &mut W,
    version: Version,
    handle: Handle,
    bytes: &[u8],
) -> Result<(), SinkFault>
    ensures { Writes (W.output sink.old) (W.output sink.new)
        (image_line version handle bytes.now) result }
{
    let mut head = [0; LINE_ROOM];
    let end = put_image_head(&mut head, version, handle, bytes.len());
    write_hex_line(sink, &head[..end], trimmed(bytes))
}

/// Puts what stands before the bytes of a live chunk.
fn put_image_head(buffer: &mut [u8], version: Version, handle: Handle, len: usize) -> usize
    requires { LINE_ROOM ≤ length buffer.old }
    ensures end { result ≤ length buffer.new }
    ensures text { take result buffer.new ≡ handle_text handle ++ length_text version len }
{
    let end = put_handle(buffer, 0, handle);
    match version {
        Version::One => put_text(buffer, end, b" "),
        Version::Two => {
            let end = put_named(buffer, end, b" ", len as u64);
            put_text(buffer, end, b" ")
        }
    }
}

/// Writes how many logs are kept, and how many records they take. Its only error is that of the sink.
pub fn write_logs<W: Sink>(sink: &mut W, kept: u32, slots: u32) -> Result<(), SinkFault>
    ensures { Writes (W.output sink.old) (W.output sink.new) (logs_line kept slots) result }
{
    write_numbers(sink, b"logs ", u64::from(kept), u64::from(slots))
}
