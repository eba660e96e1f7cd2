//! Hexadecimal digits.
ghost use Rattle.std.specs.Prelude.{◌≡◌, ◌≤◌, ◌<◌, ◌*◌, true, Some, Ok, length, take, IfSome};
ghost use Rattle.std.specs.List.{list_all};
ghost use Rattle.hex.specs.Hex.{is_hex_digit, hex_digit_value, decode_of};

use memchr::memchr;

/// More digits than these are tested all at once.
const FEW_DIGITS: usize = 16;

/// The value of a hexadecimal digit, in either case. The last four bits of an A are 1, and letters alone are 64 and more.
#[inline(always)]
fn digit_value(byte: u8) -> u8
    requires { is_hex_digit byte ≡ true }
    ensures value { hex_digit_value byte ≡ Some result }
    ensures small { result < 16 }
{
    byte % 16 + byte / 64 * 9
}

/// How many hexadecimal digits stand before the first byte that is none, or before the end of a line with many digits.
#[inline(always)]
pub fn digits_at_front(text: &[u8]) -> Option<usize>
    ensures within { IfSome result (λ count. count ≤ length text.now) }
    ensures digits { IfSome result (λ count. list_all is_hex_digit (take count text.now) ≡ true) }
{
    let (front, _) = text.split_at(text.len().min(FEW_DIGITS));
    for (at, byte) in front.iter().enumerate() {
        if !is_hex_digit(*byte) {
            return Some(at);
        }
    }
    many_digits_at_front(text)
}

/// How many hexadecimal digits stand before the end of a line, where they are many and end there. They are tested all at once.
#[inline(never)]
fn many_digits_at_front(text: &[u8]) -> Option<usize>
    ensures within { IfSome result (λ count. count ≤ length text.now) }
    ensures digits { IfSome result (λ count. list_all is_hex_digit (take count text.now) ≡ true) }
{
    let end = memchr(b'\n', text)?;
    let (digits, _) = text.split_at(end);
    if !are_digits(digits) {
        return None;
    }
    Some(end)
}

/// Whether each byte is a hexadecimal digit. No byte ends the walk, so that many are tested at once.
pub fn are_digits(word: &[u8]) -> bool
    ensures { result ≡ list_all is_hex_digit word.now }
{
    let mut all = true;
    for byte in word {
        all &= is_hex_digit(*byte);
    }
    all
}

/// Whether this is a hexadecimal digit. All tests are made, since which of them holds can't be foretold.
#[inline(always)]
fn is_hex_digit(byte: u8) -> bool
    ensures { result ≡ is_hex_digit byte }
{
    let is_digit = (b'0' <= byte) & (byte <= b'9');
    let is_small = (b'a' <= byte) & (byte <= b'f');
    let is_capital = (b'A' <= byte) & (byte <= b'F');
    is_digit | is_small | is_capital
}

/// Decodes hexadecimal digits into room for half as many bytes.
pub fn decode_digits(digits: &[u8], room: &mut [u8])
    requires half { length digits.now ≡ 2 * length room.old }
    requires digits { list_all is_hex_digit digits.now ≡ true }
    ensures length { length room.new ≡ length room.old }
    ensures decoded { decode_of digits.now ≡ Ok room.new }
{
    for i in 0..room.len() {
        room[i] = digit_value(digits[2 * i]) * 16 + digit_value(digits[2 * i + 1]);
    }
}
