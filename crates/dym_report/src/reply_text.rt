//! Replies that are put behind the text that begins a buffer, by the calls of dym_io.
ghost use Rattle.std.specs.Prelude.{◌≡◌, ◌+◌, ◌*◌, ◌<◌, ◌≤◌, ◌^◌, ◌++◌, true, length, take, decimal, codes};
ghost use Rattle.hex.specs.Hex.{encode_lower};
ghost use Rattle.dym_base.specs.declared.reply.Reply.TheVariants.{Bytes};
ghost use Rattle.dym_report.specs.Replies.{reply_line, reply_text, kind_text, refusal_text, line_room};
ghost use Rattle.dym_report.specs.Handles.{handle_text, size_of};
ghost use Rattle.dym_report.specs.Hex.{hex_text};

use dym_base::limits::GREATEST_EXPONENT;
use dym_base::{Handle, Kind, Refusal, Reply};
use dym_io::{put_named, put_number, put_text};
use hex::encode_to_slice;

/// The bytes of the longest short line.
pub(crate) const LINE_ROOM: usize = 80;

/// Whether so many bytes are enough for the line of a reply.
#[inline(always)]
pub(crate) fn has_room(room: usize, reply: &Reply) -> bool
    ensures { (result ≡ true) → line_room reply.now ≤ room }
{
    room >= LINE_ROOM
        && match reply {
            Reply::Bytes(bytes) => bytes.bytes().len() <= (room - LINE_ROOM) / 2,
            _ => true,
        }
}

/// Whether so many bytes are enough for the line of a reply that shows these bytes, which were read.
#[inline(always)]
pub(crate) fn has_bytes_room(room: usize, bytes: &[u8]) -> bool
    ensures { (result ≡ true) → line_room (Bytes bytes.now) ≤ room }
{
    room >= LINE_ROOM && bytes.len() <= (room - LINE_ROOM) / 2
}

/// Puts the line of a reply.
#[inline(always)]
pub(crate) fn put_line(buffer: &mut [u8], start: usize, reply: &Reply) -> usize
    requires { start + line_room reply.now ≤ length buffer.old }
    ensures end { result ≤ length buffer.new }
    ensures text { take result buffer.new ≡ take start buffer.old ++ reply_line reply.now }
{
    let end = match reply {
        Reply::Done => put_text(buffer, start, b"ok"),
        Reply::Chunk(handle) => put_chunk(buffer, start, *handle),
        Reply::Nil => put_text(buffer, start, b"ok nil"),
        Reply::Loose(number) => put_named(buffer, start, b"loose ", *number),
        Reply::Bytes(bytes) => put_bytes(buffer, start, bytes.bytes()),
        Reply::Total(total) => put_named(buffer, start, b"ok ", *total),
        Reply::Logged { kind, len } => put_logged(buffer, start, *kind, *len),
        Reply::At(time) => put_named(buffer, start, b"ok ", *time),
        Reply::Dropped(count) => put_named(buffer, start, b"ok ", u64::from(*count)),
        Reply::Slots { kept, slots } => {
            put_numbers(buffer, start, b"ok ", u64::from(*kept), u64::from(*slots))
        }
        Reply::Refused(refusal) => put_refusal(buffer, start, *refusal),
    };
    put_text(buffer, end, b"\n")
}

/// Puts the line of bytes that were read.
#[inline(always)]
pub(crate) fn put_bytes_line(buffer: &mut [u8], start: usize, bytes: &[u8]) -> usize
    requires { start + line_room (Bytes bytes.now) ≤ length buffer.old }
    ensures end { result ≤ length buffer.new }
    ensures text { take result buffer.new ≡ take start buffer.old ++ reply_line (Bytes bytes.now) }
{
    let end = put_bytes(buffer, start, bytes);
    put_text(buffer, end, b"\n")
}

#[inline(always)]
fn put_chunk(buffer: &mut [u8], start: usize, handle: Handle) -> usize
    requires { start + 44 ≤ length buffer.old }
    ensures room { result ≤ start + 44 }
    ensures text { take result buffer.new
        ≡ take start buffer.old ++ codes "ok " ++ handle_text handle }
{
    let end = put_text(buffer, start, b"ok ");
    put_handle(buffer, end, handle)
}

fn put_bytes(buffer: &mut [u8], start: usize, bytes: &[u8]) -> usize
    requires { start + (4 + 2 * length bytes.now) ≤ length buffer.old }
    ensures room { result ≤ start + (4 + 2 * length bytes.now) }
    ensures text { take result buffer.new
        ≡ take start buffer.old ++ codes "ok " ++ hex_text bytes.now }
{
    if bytes.is_empty() {
        return put_text(buffer, start, b"ok -");
    }
    let end = put_text(buffer, start, b"ok ");
    put_hex(buffer, end, bytes)
}

fn put_logged(buffer: &mut [u8], start: usize, kind: Kind, len: u64) -> usize
    requires { start + 28 ≤ length buffer.old }
    ensures room { result ≤ start + 28 }
    ensures text { take result buffer.new
        ≡ take start buffer.old ++ codes "ok " ++ kind_text kind ++ codes " " ++ decimal len }
{
    match kind {
        Kind::Full => put_named(buffer, start, b"ok full ", len),
        Kind::Inc => put_named(buffer, start, b"ok inc ", len),
    }
}

fn put_refusal(buffer: &mut [u8], start: usize, refusal: Refusal) -> usize
    requires { start + 29 ≤ length buffer.old }
    ensures room { result ≤ start + 29 }
    ensures text { take result buffer.new ≡ take start buffer.old ++ refusal_text refusal }
{
    match refusal {
        Refusal::TooLarge => put_text(buffer, start, b"toolarge"),
        Refusal::Quota => put_text(buffer, start, b"quota"),
        Refusal::Dead => put_text(buffer, start, b"dead"),
        Refusal::Range => put_text(buffer, start, b"range"),
        Refusal::NotAfter { newest } => put_named(buffer, start, b"notafter ", newest),
        Refusal::LogsFull => put_text(buffer, start, b"logsfull"),
        Refusal::NoLog => put_text(buffer, start, b"nolog"),
    }
}

/// Puts a word and two numbers.
#[inline(always)]
pub(crate) fn put_numbers(
    buffer: &mut [u8],
    start: usize,
    word: &[u8],
    first: u64,
    second: u64,
) -> usize
    requires { start + length word.now + 41 ≤ length buffer.old }
    ensures room { result ≤ start + length word.now + 41 }
    ensures text { take result buffer.new
        ≡ take start buffer.old ++ (word.now ++ decimal first ++ codes " " ++ decimal second) }
{
    let end = put_named(buffer, start, word, first);
    put_named(buffer, end, b" ", second)
}

/// Puts a handle.
#[inline(always)]
pub(crate) fn put_handle(buffer: &mut [u8], start: usize, handle: Handle) -> usize
    requires { start + 41 ≤ length buffer.old }
    ensures room { result ≤ start + 41 }
    ensures text { take result buffer.new ≡ take start buffer.old ++ handle_text handle }
{
    let end = put_number(buffer, start, size(handle.exp));
    put_named(buffer, end, b":", u64::from(handle.index))
}

/// The bytes of a chunk of a class, and 0 where the exponent is above those of all classes.
fn size(exp: u8) -> u64
    ensures { result ≡ size_of exp }
{
    if exp <= GREATEST_EXPONENT {
        1 << exp
    } else {
        0
    }
}

/// Puts the hexadecimal digits of some bytes.
fn put_hex(buffer: &mut [u8], start: usize, bytes: &[u8]) -> usize
    requires { start + 2 * length bytes.now ≤ length buffer.old }
    ensures end { result ≡ start + 2 * length bytes.now }
    ensures text { take result buffer.new ≡ take start buffer.old ++ encode_lower bytes.now }
{
    let end = start + 2 * bytes.len();
    let _ = encode_to_slice(bytes, &mut buffer[start..end]);
    end
}
