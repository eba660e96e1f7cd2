//! What the words of a line stand for.
ghost use Rattle.std.specs.Prelude.{◌≡◌, ◌≤◌, ◌-◌, ◌^◌, ◌==◌, not, length, codes, IfSome, is_some};
ghost use Rattle.std.specs.Str.{bytes_eq};
ghost use Rattle.std.specs.List.{list_all, prefix_len};
ghost use Rattle.std.specs.Option.{ok_or};
ghost use Rattle.dym_base.specs.declared.bad_kind.BadKind.TheVariants as bad;
ghost use Rattle.dym_commands.specs.Hexes.{hex_of};
ghost use Rattle.dym_script.specs.Words.{number_to, exponent_of, handle_of, handle_or_nil_of};

use dym_base::limits::MOST_READ_BYTES;
use dym_base::{BadKind, Handle};
use dym_commands::HexBytes;

/// No number has more digits.
const MOST_DIGITS: usize = 20;

/// The number that a word writes, where it writes one of at most 20 digits and that is at most `most`.
#[tactic(auto, unfolding(crate::specs::Words::number_to))]
pub fn number_to(most: u64, word: &[u8]) -> Option<u64>
    ensures value { result ≡ number_to most word.now }
    ensures within { IfSome result (λ number. number ≤ most) }
{
    if word.is_empty() || word.len() > MOST_DIGITS {
        return None;
    }
    let mut value = 0u64;
    for digit in word {
        if !digit.is_ascii_digit() {
            return None;
        }
        value = value.checked_mul(10)?.checked_add(u64::from(digit - b'0'))?;
    }
    if value > most {
        return None;
    }
    Some(value)
}

/// A number, or what is wrong with the word.
pub fn number_of(word: &[u8]) -> Result<u64, BadKind>
    ensures { result ≡ ok_or (number_to (2 ^ 64 - 1) word.now) bad.Number }
{
    number_to(u64::MAX, word).ok_or(BadKind::Number)
}

/// A number below `2^32`.
pub fn number_32_of(word: &[u8]) -> Result<u32, BadKind>
    ensures { result ≡ ok_or (number_to (2 ^ 32 - 1) word.now) bad.Number }
{
    let number = number_to(u64::from(u32::MAX), word).ok_or(BadKind::Number)?;
    Ok(number as u32)
}

/// The value of a byte.
pub fn byte_of(word: &[u8]) -> Result<u8, BadKind>
    ensures { result ≡ ok_or (number_to 255 word.now) bad.Number }
{
    let number = number_to(u64::from(u8::MAX), word).ok_or(BadKind::Number)?;
    Ok(number as u8)
}

/// How many bytes to read.
pub fn read_len_of(word: &[u8]) -> Result<u32, BadKind>
    ensures { result ≡ ok_or (number_to MOST_READ_BYTES word.now) bad.Number }
{
    let number = number_to(u64::from(MOST_READ_BYTES), word).ok_or(BadKind::Number)?;
    Ok(number as u32)
}

/// The handle that a word names.
pub fn handle_of(word: &[u8]) -> Result<Handle, BadKind>
    ensures { result ≡ ok_or (handle_of word.now) bad.Handle }
{
    named_handle(word).ok_or(BadKind::Handle)
}

/// The handle that a word names, or nil.
#[tactic(auto, unfolding(crate::specs::Words::handle_or_nil_of))]
pub fn handle_or_nil_of(word: &[u8]) -> Result<Option<Handle>, BadKind>
    ensures { result ≡ ok_or (handle_or_nil_of word.now) bad.Handle }
{
    if word == b"nil".as_slice() {
        return Ok(None);
    }
    let handle = handle_of(word)?;
    Ok(Some(handle))
}

/// The bytes that a word writes.
pub fn bytes_of(word: &[u8]) -> Result<HexBytes<'_>, BadKind>
    ensures { result ≡ ok_or (hex_of word.now) bad.Hex }
{
    HexBytes::of_word(word).ok_or(BadKind::Hex)
}

/// The handle that a word names, where it names one.
#[tactic(auto, unfolding(crate::specs::Words::handle_of))]
fn named_handle(word: &[u8]) -> Option<Handle>
    ensures { result ≡ handle_of word.now }
{
    let colon = colon_at(word);
    if colon == word.len() {
        return None;
    }
    let (size, rest) = word.split_at(colon);
    let (_, index) = rest.split_at(1);
    let exp = exponent_of(size)?;
    let index = number_to(u64::from(u32::MAX), index)?;
    Some(Handle {
        exp,
        index: index as u32,
    })
}

/// The class exponent of a chunk size.
#[tactic(auto, unfolding(crate::specs::Words::exponent_of))]
fn exponent_of(word: &[u8]) -> Option<u8>
    ensures { result ≡ exponent_of word.now }
{
    match word {
        b"32" => Some(5),
        b"64" => Some(6),
        b"128" => Some(7),
        b"256" => Some(8),
        b"512" => Some(9),
        b"1024" => Some(10),
        b"2048" => Some(11),
        b"4096" => Some(12),
        b"8192" => Some(13),
        b"16384" => Some(14),
        b"32768" => Some(15),
        b"65536" => Some(16),
        _ => None,
    }
}

/// How many bytes stand before the first colon.
fn colon_at(word: &[u8]) -> usize
    ensures value { result ≡ prefix_len (λ byte. not (byte == 58)) word.now }
    ensures within { result ≤ length word.now }
{
    word.iter().take_while(|byte| **byte != b':').count()
}
