//! Searches in the words of a bitmap.

ghost use Rattle.std.specs.Prelude.{◌≡◌, ℕ, ◌≤◌, true, false, not, ◌&&◌, ◌||◌, MatchOption};
ghost use Rattle.dym_bits.specs.Bits.{bits_of, bit_in, AreZeroFrom, IsSet, IsClear, IsNextSet};

use crate::bytes::{WORD_BITS, WORDS};
use dym_base::limits::MOST_CHUNKS;

/// The least set index that is at least `from`, where no bit from `limit` on is set.
pub(crate) fn next_set_in(words: &[u64; WORDS], from: u32, limit: u32) -> Option<u32>
    requires limit { limit ≤ MOST_CHUNKS }
    requires clear { (k : ℕ) → limit ≤ k → IsClear (bits_of 64 words.now) k }
    ensures { MatchOption result ((k : ℕ) → from ≤ k → IsClear (bits_of 64 words.now) k)
        (λ i. IsNextSet (bits_of 64 words.now) from i) }
{
    if from >= limit {
        return None;
    }
    let first = from / WORD_BITS;
    let rest = words[first as usize] & (u64::MAX << (from % WORD_BITS));
    if rest != 0 {
        return Some(first * WORD_BITS + rest.trailing_zeros());
    }
    for q in first + 1..limit.div_ceil(WORD_BITS) {
        let word = words[q as usize];
        if word != 0 {
            return Some(q * WORD_BITS + word.trailing_zeros());
        }
    }
    None
}

/// Whether each bit that is set in the words, which are 0 from `used` on, is set in the others too.
pub(crate) fn words_within(words: &[u64; WORDS], others: &[u64; WORDS], used: u32) -> bool
    requires within { used ≤ WORDS }
    requires rest { AreZeroFrom used words.now }
    ensures within { result ≡ true → (k : ℕ) → IsSet (bits_of 64 words.now) k
        → IsSet (bits_of 64 others.now) k }
    ensures outside { result ≡ false → (k : ℕ) × IsSet (bits_of 64 words.now) k
        × IsClear (bits_of 64 others.now) k }
{
    for q in 0..used as usize {
        if words[q] & !others[q] != 0 {
            return false;
        }
    }
    true
}

/// The words of the bits that are set in the words or in the others.
pub(crate) fn words_union(words: &[u64; WORDS], others: &[u64; WORDS]) -> [u64; WORDS]
    ensures rest { (n : ℕ) → AreZeroFrom n words.now → AreZeroFrom n others.now
        → AreZeroFrom n result }
    ensures bits { (k : ℕ) → bit_in (bits_of 64 result) k
        ≡ (bit_in (bits_of 64 words.now) k || bit_in (bits_of 64 others.now) k) }
{
    let mut joined = [0; WORDS];
    for q in 0..WORDS {
        joined[q] = words[q] | others[q];
    }
    joined
}

/// The words of the bits that are set in the words and in the others.
pub(crate) fn words_intersection(words: &[u64; WORDS], others: &[u64; WORDS]) -> [u64; WORDS]
    ensures rest { (n : ℕ) → AreZeroFrom n words.now → AreZeroFrom n result }
    ensures others { (n : ℕ) → AreZeroFrom n others.now → AreZeroFrom n result }
    ensures bits { (k : ℕ) → bit_in (bits_of 64 result) k
        ≡ (bit_in (bits_of 64 words.now) k && bit_in (bits_of 64 others.now) k) }
{
    let mut joined = [0; WORDS];
    for q in 0..WORDS {
        joined[q] = words[q] & others[q];
    }
    joined
}

/// The words of the bits that are set in the words and not in the others.
pub(crate) fn words_difference(words: &[u64; WORDS], others: &[u64; WORDS]) -> [u64; WORDS]
    ensures rest { (n : ℕ) → AreZeroFrom n words.now → AreZeroFrom n result }
    ensures bits { (k : ℕ) → bit_in (bits_of 64 result) k
        ≡ (bit_in (bits_of 64 words.now) k && not (bit_in (bits_of 64 others.now) k)) }
{
    let mut joined = [0; WORDS];
    for q in 0..WORDS {
        joined[q] = words[q] & !others[q];
    }
    joined
}
