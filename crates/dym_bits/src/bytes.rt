//! Between the words of a bitmap and its bytes.

ghost use Rattle.std.specs.Prelude.{◌≡◌, ℕ, ◌<◌, slice_index, ◌+◌, ◌-◌, ◌*◌, ◌≤◌, ◌++◌, length, take, drop};
ghost use Rattle.dym_bits.specs.Bits.{digits, bits_of, bits_of_bytes, clear_bits};

use dym_base::limits::MOST_CHUNKS;

/// Bits of one word.
pub(crate) const WORD_BITS: u32 = 64;

/// Words of one bitmap.
pub(crate) const WORDS: usize = (MOST_CHUNKS / WORD_BITS) as usize;

/// Bytes of one bitmap.
pub const BITMAP_BYTES: usize = (MOST_CHUNKS / 8) as usize;

/// The word whose bits are those of fewer than eight bytes, and clear past them.
fn word_of_few(bytes: &[u8]) -> u64
    requires { length bytes.now < 8 }
    ensures { digits 64 result ≡ bits_of_bytes bytes.now ++ clear_bits (64 - 8 * length bytes.now) }
{
    let mut eight = [0; 8];
    eight[..bytes.len()].copy_from_slice(bytes);
    u64::from_le_bytes(eight)
}

/// The word whose bits are those of the eight bytes from `at` on, or of those that are left, and clear past them.
pub(crate) fn word_at(bytes: &[u8], at: usize) -> u64
    requires { at ≤ length bytes.now }
    ensures { digits 64 result ≡ bits_of_bytes (take 8 (drop at bytes.now))
        ++ clear_bits (64 - 8 * (length bytes.now - at)) }
{
    if bytes.len() - at < 8 {
        return word_of_few(&bytes[at..]);
    }
    let eight = &bytes[at..at + 8];
    u64::from_le_bytes([
        eight[0], eight[1], eight[2], eight[3], eight[4], eight[5], eight[6], eight[7],
    ])
}

/// The bytes whose bits are those of the words.
pub(crate) fn bytes_of(words: &[u64; WORDS]) -> [u8; BITMAP_BYTES]
    ensures { bits_of_bytes result ≡ bits_of 64 words.now }
{
    let mut room = [0; BITMAP_BYTES];
    for q in 0..WORDS {
        room[8 * q..8 * q + 8].copy_from_slice(&words[q].to_le_bytes());
    }
    room
}

/// A law: each of the bytes fits in eight bits.
pub(crate) fn bytes_fit(bytes: &[u8])
    ensures { (k : ℕ) → slice_index bytes.now k < 256 }
{
    let _ = bytes.len();
}
