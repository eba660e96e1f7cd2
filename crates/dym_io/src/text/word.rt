//! Words of at most four bytes. Each is kept in four bytes, so that its copy needs no branch for its length.
ghost use Rattle.std.specs.Prelude.{◌≡◌, ◌+◌, ◌<◌, ◌≤◌, ◌++◌, length, take, decimal};

use crate::text::put_text;

/// The first `len` of four bytes.
#[derive(Clone, Copy)]
pub struct Word {
    pub bytes: [u8; 4],
    pub len: usize,
    ghost short: { len ≤ 4 },
}

/// Puts a word. What stands behind it may change.
#[inline(always)]
pub fn put_word(buffer: &mut [u8], end: usize, word: Word) -> usize
    requires room { end + 4 ≤ length buffer.old }
    ensures end { result ≡ end + word.len }
    ensures text { take result buffer.new ≡ take end buffer.old ++ take word.len word.bytes }
{
    put_text(buffer, end, &word.bytes);
    end + word.len
}

/// The digits of a number of at most three digits.
#[inline(always)]
pub(crate) fn digits(n: u32) -> Word
    requires { n < 1000 }
    ensures text { take result.len result.bytes ≡ decimal n }
    ensures short { result.len ≤ 3 }
{
    let ones = digit(n % 10);
    let tens = digit(n / 10 % 10);
    let hundreds = digit(n / 100);
    if n < 10 {
        Word {
            bytes: [ones, 0, 0, 0],
            len: 1,
        }
    } else if n < 100 {
        Word {
            bytes: [tens, ones, 0, 0],
            len: 2,
        }
    } else {
        Word {
            bytes: [hundreds, tens, ones, 0],
            len: 3,
        }
    }
}

/// The digit of a number below 10.
#[inline(always)]
pub(crate) fn digit(n: u32) -> u8
    requires { n < 10 }
    ensures { result ≡ 48 + n }
{
    b'0' + n as u8
}
