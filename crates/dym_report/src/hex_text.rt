//! Bytes as hexadecimal text.
ghost use Rattle.std.specs.Prelude.{◌≡◌, ◌+◌, ◌*◌, ◌<◌, ◌≤◌, ◌==◌, ◌++◌, length, codes};
ghost use Rattle.std.specs.List.{list_all};
ghost use Rattle.hex.specs.Hex.{encode_lower};
ghost use Rattle.dym_io.specs.Sink.{Writes};
ghost use Rattle.dym_report.specs.declared.hex_text.TheConstants.{SHORT, PIECE};
ghost use Rattle.dym_report.specs.Hex.{hex_text, trimmed};

use dym_io::{Sink, SinkFault, push_all, push_parts};
use hex::encode_to_slice;

/// The most bytes whose line is written at once.
const SHORT: usize = 64;

/// The most bytes whose digits are written at once.
const PIECE: usize = 2_048;

/// The bytes that are looked at together for zeros: first many, then few.
const LARGE_BLOCK: usize = 1_024;

const SMALL_BLOCK: usize = 32;

/// Writes a line of a text and the digits of some bytes, or `-` where there are none. Its only error is that of the sink.
pub fn write_hex_line<W: Sink>(sink: &mut W, front: &[u8], bytes: &[u8]) -> Result<(), SinkFault>
    ensures { Writes (W.output sink.old) (W.output sink.new)
        (front.now ++ hex_text bytes.now ++ codes "\n") result }
{
    if bytes.is_empty() {
        return push_parts(sink, &[front, b"-\n".as_slice()]);
    }
    if bytes.len() <= SHORT {
        return write_short(sink, front, bytes);
    }
    write_long(sink, front, bytes)
}

/// Writes a line of a text and the digits of a few bytes.
fn write_short<W: Sink>(sink: &mut W, front: &[u8], bytes: &[u8]) -> Result<(), SinkFault>
    requires { length bytes.now ≤ SHORT }
    ensures { Writes (W.output sink.old) (W.output sink.new)
        (front.now ++ encode_lower bytes.now ++ codes "\n") result }
{
    let mut buffer = [0; 2 * SHORT];
    let digits = &mut buffer[..2 * bytes.len()];
    let _ = encode_to_slice(bytes, digits);
    push_parts(sink, &[front, digits, b"\n".as_slice()])
}

/// Writes a line of a text and the digits of many bytes.
#[tactic(auto, using(dym_io::specs::Laws::writing))]
fn write_long<W: Sink>(sink: &mut W, front: &[u8], bytes: &[u8]) -> Result<(), SinkFault>
    ensures { Writes (W.output sink.old) (W.output sink.new)
        (front.now ++ encode_lower bytes.now ++ codes "\n") result }
{
    push_all(sink, front)?;
    write_last(sink, bytes)
}

/// Writes the digits of some bytes, and the end of the line.
#[tactic(auto, using(dym_io::specs::Laws::writing))]
fn write_last<W: Sink>(sink: &mut W, bytes: &[u8]) -> Result<(), SinkFault>
    ensures { Writes (W.output sink.old) (W.output sink.new)
        (encode_lower bytes.now ++ codes "\n") result }
{
    write_digits(sink, bytes)?;
    push_all(sink, b"\n")
}

/// Writes the digits of some bytes, piece by piece.
fn write_digits<W: Sink>(sink: &mut W, bytes: &[u8]) -> Result<(), SinkFault>
    ensures { Writes (W.output sink.old) (W.output sink.new) (encode_lower bytes.now) result }
{
    let mut rest = bytes;
    'pieces: while !rest.is_empty() {
        let (piece, after) = rest.split_at(rest.len().min(PIECE));
        write_piece(sink, piece)?;
        rest = after;
    }
    Ok(())
}

/// Writes the digits of one piece.
fn write_piece<W: Sink>(sink: &mut W, bytes: &[u8]) -> Result<(), SinkFault>
    requires { length bytes.now ≤ PIECE }
    ensures { Writes (W.output sink.old) (W.output sink.new) (encode_lower bytes.now) result }
{
    let mut buffer = [0; 2 * PIECE];
    let digits = &mut buffer[..2 * bytes.len()];
    let _ = encode_to_slice(bytes, digits);
    push_all(sink, digits)
}

/// The bytes without the zero bytes at their end.
pub fn trimmed(bytes: &[u8]) -> &[u8]
    ensures { result.now ≡ trimmed bytes.now }
{
    let rest = without_zero_blocks(bytes, LARGE_BLOCK);
    without_zero_bytes(without_zero_blocks(rest, SMALL_BLOCK))
}

/// The bytes without the blocks of zero bytes of this size at their end.
fn without_zero_blocks(bytes: &[u8], size: usize) -> &[u8]
    requires { 0 < size }
    ensures { trimmed result.now ≡ trimmed bytes.now }
{
    let mut rest = bytes;
    'blocks: while rest.len() >= size {
        let (front, block) = rest.split_at(rest.len() - size);
        if !is_zero(block) {
            break;
        }
        rest = front;
    }
    rest
}

/// Whether all bytes of a block are zero. It reads them all, so that it may read many at once.
fn is_zero(block: &[u8]) -> bool
    ensures { result ≡ list_all (λ b. b == 0) block.now }
{
    let mut greatest = 0;
    for byte in block {
        greatest = greatest.max(*byte);
    }
    greatest == 0
}

/// The bytes without the zero bytes at their end, where these are few.
fn without_zero_bytes(bytes: &[u8]) -> &[u8]
    ensures { result.now ≡ trimmed bytes.now }
{
    let mut rest = bytes;
    'bytes: while !rest.is_empty() && rest[rest.len() - 1] == 0 {
        rest = &rest[..rest.len() - 1];
    }
    rest
}
