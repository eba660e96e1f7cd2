//! The operands of a line in the usual spelling, each read off at the front of a text.
ghost use Rattle.std.specs.Prelude.{◌≡◌, ℕ, get_or, ◌<◌, ◌-◌, ◌^◌, ◌∷◌, ◌++◌, length, drop, IfSome};
ghost use Rattle.dym_script.specs.Quick.{Begins};
ghost use Rattle.dym_script.specs.Words.{number_to, handle_of, handle_or_nil_of};
ghost use Rattle.dym_commands.specs.Hexes.{hex_of};

use crate::quick::numerals::{digits_to, first_word};
use crate::quick::sizes::size;
use dym_base::Handle;
use dym_base::limits::MOST_READ_BYTES;
use dym_commands::HexBytes;

/// The text after a verb and the space before it, which have fewer than eight bytes and are compared at once: `padded` ends with
/// them. Nothing is said where the text has fewer than eight bytes.
#[inline(always)]
pub fn after_verb<'a>(text: &'a [u8], padded: &[u8; 8], length: usize) -> Option<&'a [u8]>
    requires some { 0 < length }
    requires few { length < 8 }
    ensures { IfSome result (λ rest. text.now ≡ drop (8 - length) padded.now ++ rest.now) }
{
    bytes_fit(padded);
    let word = first_word(text)?;
    if word << (64 - 8 * length) != u64::from_le_bytes(*padded) {
        return None;
    }
    Some(&text[length..])
}

/// The text after a byte.
#[inline(always)]
pub fn after_byte(text: &[u8], byte: u8) -> Option<&[u8]>
    ensures { IfSome result (λ rest. text.now ≡ byte ∷ rest.now) }
{
    let [first, rest @ ..] = text else {
        return None;
    };
    if *first != byte {
        return None;
    }
    Some(rest)
}

/// A law: each of the bytes fits in eight bits.
#[inline(always)]
fn bytes_fit(bytes: &[u8])
    ensures { (k : ℕ) → get_or bytes.now k 0 < 256 }
{
    let _ = bytes.len();
}

/// A number.
#[inline(always)]
pub fn number(text: &[u8]) -> Option<(u64, &[u8])>
    ensures { IfSome result (λ cut. Begins (number_to (2 ^ 64 - 1)) text.now cut.0 cut.1.now) }
{
    digits_to(u64::MAX, after_byte(text, b' ')?)
}

/// A number below `2^32`.
#[inline(always)]
pub fn number_32(text: &[u8]) -> Option<(u32, &[u8])>
    ensures { IfSome result (λ cut. Begins (number_to (2 ^ 32 - 1)) text.now cut.0 cut.1.now) }
{
    let (number, rest) = digits_to(u64::from(u32::MAX), after_byte(text, b' ')?)?;
    Some((number as u32, rest))
}

/// The value of a byte.
#[inline(always)]
pub fn byte_value(text: &[u8]) -> Option<(u8, &[u8])>
    ensures { IfSome result (λ cut. Begins (number_to 255) text.now cut.0 cut.1.now) }
{
    let (number, rest) = digits_to(u64::from(u8::MAX), after_byte(text, b' ')?)?;
    Some((number as u8, rest))
}

/// How many bytes to read.
#[inline(always)]
pub fn read_len(text: &[u8]) -> Option<(u32, &[u8])>
    ensures { IfSome result (λ cut. Begins (number_to MOST_READ_BYTES) text.now cut.0 cut.1.now) }
{
    let (number, rest) = digits_to(u64::from(MOST_READ_BYTES), after_byte(text, b' ')?)?;
    Some((number as u32, rest))
}

/// A handle.
#[inline(always)]
pub fn handle(text: &[u8]) -> Option<(Handle, &[u8])>
    ensures { IfSome result (λ cut. Begins handle_of text.now cut.0 cut.1.now) }
{
    let (exp, digits) = size(after_byte(text, b' ')?)?;
    let (number, rest) = digits_to(u64::from(u32::MAX), digits)?;
    let index = number as u32;
    Some((Handle { exp, index }, rest))
}

/// A handle, or the word for nil.
#[inline(always)]
pub fn handle_or_nil(text: &[u8]) -> Option<(Option<Handle>, &[u8])>
    ensures { IfSome result (λ cut. Begins handle_or_nil_of text.now cut.0 cut.1.now) }
{
    if let Some((handle, rest)) = handle(text) {
        return Some((Some(handle), rest));
    }
    match text {
        [b' ', b'n', b'i', b'l', rest @ ..] => Some((None, rest)),
        _ => None,
    }
}

/// A word that writes bytes.
#[inline(always)]
pub fn hex(text: &[u8]) -> Option<(HexBytes<'_>, &[u8])>
    ensures { IfSome result (λ cut. Begins hex_of text.now cut.0 cut.1.now) }
{
    HexBytes::at_front(after_byte(text, b' ')?)
}
