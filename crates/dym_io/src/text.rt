//! Composing texts in a buffer, one behind the other, so that many lines are written together. Each call leaves what the buffer
//! begins with up to `end`, puts its text behind, and answers where that ends. It takes no memory.
ghost use Rattle.std.specs.Prelude.{◌≡◌, ◌+◌, ◌≤◌, ◌++◌, length, take};

mod number;
mod word;

pub use number::{put_named, put_number, put_short};
pub use word::{Word, put_word};

/// Puts a text.
#[inline(always)]
pub fn put_text(buffer: &mut [u8], end: usize, text: &[u8]) -> usize
    requires room { end + length text.now ≤ length buffer.old }
    ensures end { result ≡ end + length text.now }
    ensures text { take result buffer.new ≡ take end buffer.old ++ text.now }
{
    let after = end + text.len();
    buffer[end..after].copy_from_slice(text);
    after
}
