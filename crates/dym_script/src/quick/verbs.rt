//! The commands of the table in the usual spelling, each read off at the front of a text: a space, the verb, its operands
//! with a space before each, and the line end. What is asked goes into a place, and the text after the line is left.
ghost use Rattle.std.specs.Prelude.{IfSome};
ghost use Rattle.dym_script.specs.Quick.{Demands};

use crate::quick::operands::{
    after_byte, after_verb, byte_value, handle, handle_or_nil, hex, number, number_32, read_len,
};
use crate::verb::Verb;
use dym_base::Command;
use dym_commands::{HexBytes, Request};

/// Of the verbs that make, change and free chunks.
#[inline(always)]
pub fn chunk_verb<'a>(
    verb: Verb,
    text: &'a [u8],
    asked: &mut Request<HexBytes<'a>>,
) -> Option<&'a [u8]>
    ensures { IfSome result (λ after. Demands text.now asked.new after.now) }
{
    match verb {
        Verb::Malloc => {
            let rest = after_verb(text, b"\0 malloc", 7)?;
            let (len, rest) = number(rest)?;
            *asked = Request::Plain(Command::Malloc { len });
            after_byte(rest, b'\n')
        }
        Verb::Calloc => {
            let rest = after_verb(text, b"\0 calloc", 7)?;
            let (n, rest) = number(rest)?;
            let (len, rest) = number(rest)?;
            *asked = Request::Plain(Command::Calloc { n, len });
            after_byte(rest, b'\n')
        }
        Verb::Realloc => {
            let end = after_verb(text, b"\0 reallo", 7)?;
            let rest = after_byte(end, b'c')?;
            let (h, rest) = handle_or_nil(rest)?;
            let (len, rest) = number(rest)?;
            *asked = Request::Plain(Command::Realloc { h, len });
            after_byte(rest, b'\n')
        }
        Verb::Free => {
            let rest = after_verb(text, b"\0\0\0 free", 5)?;
            let (h, rest) = handle_or_nil(rest)?;
            *asked = Request::Plain(Command::Free { h });
            after_byte(rest, b'\n')
        }
        _ => None,
    }
}

/// Of the verbs that write and read bytes.
#[inline(always)]
pub fn bytes_verb<'a>(
    verb: Verb,
    text: &'a [u8],
    asked: &mut Request<HexBytes<'a>>,
) -> Option<&'a [u8]>
    ensures { IfSome result (λ after. Demands text.now asked.new after.now) }
{
    match verb {
        Verb::Write => {
            let rest = after_verb(text, b"\0\0 write", 6)?;
            let (h, rest) = handle(rest)?;
            let (at, rest) = number_32(rest)?;
            let (bytes, rest) = hex(rest)?;
            *asked = Request::Write { h, at, bytes };
            after_byte(rest, b'\n')
        }
        Verb::Fill => {
            let rest = after_verb(text, b"\0\0\0 fill", 5)?;
            let (h, rest) = handle(rest)?;
            let (at, rest) = number_32(rest)?;
            let (len, rest) = number_32(rest)?;
            let (byte, rest) = byte_value(rest)?;
            *asked = Request::Plain(Command::Fill { h, at, len, byte });
            after_byte(rest, b'\n')
        }
        Verb::Read => {
            let rest = after_verb(text, b"\0\0\0 read", 5)?;
            let (h, rest) = handle(rest)?;
            let (at, rest) = number_32(rest)?;
            let (len, rest) = read_len(rest)?;
            *asked = Request::Plain(Command::Read { h, at, len });
            after_byte(rest, b'\n')
        }
        _ => None,
    }
}

/// Of the verbs that chain chunks and sum their bytes.
#[inline(always)]
pub fn link_verb<'a>(
    verb: Verb,
    text: &'a [u8],
    asked: &mut Request<HexBytes<'a>>,
) -> Option<&'a [u8]>
    ensures { IfSome result (λ after. Demands text.now asked.new after.now) }
{
    match verb {
        Verb::Link => {
            let rest = after_verb(text, b"\0\0\0 link", 5)?;
            let (h, rest) = handle(rest)?;
            let (at, rest) = number_32(rest)?;
            let (to, rest) = handle_or_nil(rest)?;
            *asked = Request::Plain(Command::Link { h, at, to });
            after_byte(rest, b'\n')
        }
        Verb::Follow => {
            let rest = after_verb(text, b"\0 follow", 7)?;
            let (h, rest) = handle(rest)?;
            let (at, rest) = number_32(rest)?;
            *asked = Request::Plain(Command::Follow { h, at });
            after_byte(rest, b'\n')
        }
        Verb::Sum => {
            let rest = after_verb(text, b"\0\0\0\0 sum", 4)?;
            let (h, rest) = handle(rest)?;
            *asked = Request::Plain(Command::Sum { h });
            after_byte(rest, b'\n')
        }
        _ => None,
    }
}

/// Of the verbs that log, restore and prune.
#[inline(always)]
pub fn log_verb<'a>(
    verb: Verb,
    text: &'a [u8],
    asked: &mut Request<HexBytes<'a>>,
) -> Option<&'a [u8]>
    ensures { IfSome result (λ after. Demands text.now asked.new after.now) }
{
    match verb {
        Verb::Log => {
            let rest = after_verb(text, b"\0\0\0\0 log", 4)?;
            let (time, rest) = number(rest)?;
            *asked = Request::Plain(Command::Log { time });
            after_byte(rest, b'\n')
        }
        Verb::Ilog => {
            let rest = after_verb(text, b"\0\0\0 ilog", 5)?;
            let (time, rest) = number(rest)?;
            *asked = Request::Plain(Command::Ilog { time });
            after_byte(rest, b'\n')
        }
        Verb::Restore => {
            let end = after_verb(text, b"\0 restor", 7)?;
            let rest = after_byte(end, b'e')?;
            let (time, rest) = number(rest)?;
            *asked = Request::Plain(Command::Restore { time });
            after_byte(rest, b'\n')
        }
        Verb::Prune => {
            let rest = after_verb(text, b"\0\0 prune", 6)?;
            let (bound, rest) = number(rest)?;
            *asked = Request::Plain(Command::Prune { bound });
            after_byte(rest, b'\n')
        }
        Verb::Logs => {
            let rest = after_verb(text, b"\0\0\0 logs", 5)?;
            *asked = Request::Plain(Command::Logs);
            after_byte(rest, b'\n')
        }
        _ => None,
    }
}
