//! The digits of numbers. Those of at most six digits are made from words, without a loop.
ghost use Rattle.std.specs.Prelude.{◌≡◌, ◌+◌, ◌<◌, ◌≤◌, ◌^◌, ◌++◌, length, take, decimal};

use crate::text::put_text;
use crate::text::word::{digit, digits, put_word};
use itoa::write_digits;

/// The digits of the greatest number.
const MOST_DIGITS: usize = 20;

/// Puts a name and a number.
#[inline(always)]
pub fn put_named(buffer: &mut [u8], end: usize, name: &[u8], n: u64) -> usize
    requires room { end + length name.now + 20 ≤ length buffer.old }
    ensures few { n < 1000000 → result ≤ end + length name.now + 6 }
    ensures most { result ≤ end + length name.now + 20 }
    ensures text { take result buffer.new ≡ take end buffer.old ++ name.now ++ decimal n }
{
    let end = put_text(buffer, end, name);
    put_number(buffer, end, n)
}

/// Puts a number. What stands behind it may change.
#[inline(always)]
pub fn put_number(buffer: &mut [u8], end: usize, n: u64) -> usize
    requires room { end + 20 ≤ length buffer.old }
    ensures few { n < 1000000 → result ≤ end + 6 }
    ensures most { result ≤ end + 20 }
    ensures text { take result buffer.new ≡ take end buffer.old ++ decimal n }
{
    if n < 1_000 {
        put_short(buffer, end, n as u32)
    } else if n < 1_000_000 {
        put_thousands(buffer, end, n as u32)
    } else {
        put_long(buffer, end, n)
    }
}

/// Puts a number of at most three digits. What stands behind it may change.
#[inline(always)]
pub fn put_short(buffer: &mut [u8], end: usize, n: u32) -> usize
    requires small { n < 1000 }
    requires room { end + 4 ≤ length buffer.old }
    ensures short { result ≤ end + 3 }
    ensures text { take result buffer.new ≡ take end buffer.old ++ decimal n }
{
    put_word(buffer, end, digits(n))
}

/// Puts a number of four, five or six digits.
#[inline(always)]
fn put_thousands(buffer: &mut [u8], end: usize, n: u32) -> usize
    requires large { 1000 ≤ n }
    requires small { n < 1000000 }
    requires room { end + 6 ≤ length buffer.old }
    ensures short { result ≤ end + 6 }
    ensures text { take result buffer.new ≡ take end buffer.old ++ decimal n }
{
    let end = put_short(buffer, end, n / 1_000);
    let last = [digit(n / 100 % 10), digit(n / 10 % 10), digit(n % 10)];
    put_text(buffer, end, &last)
}

/// Puts a number of any length.
#[inline(never)]
fn put_long(buffer: &mut [u8], end: usize, n: u64) -> usize
    requires room { end + 20 ≤ length buffer.old }
    ensures short { result ≤ end + 20 }
    ensures text { take result buffer.new ≡ take end buffer.old ++ decimal n }
{
    let mut digits = [0; MOST_DIGITS];
    let start = write_digits(n, &mut digits, MOST_DIGITS);
    put_text(buffer, end, &digits[start..])
}
