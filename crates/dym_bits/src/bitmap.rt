//! The bitmap, its searches, and its bytes.

ghost use Rattle.std.specs.Prelude.{◌≡◌, ℕ, ◌+◌, ◌-◌, ◌*◌, ◌/◌, ◌<◌, ◌≤◌, max, true, false, not, ◌&&◌, ◌||◌, ◌++◌, length, take, drop, slice_set, MatchOption};
ghost use Rattle.dym_base.specs.Packed.{bitmap, bitmap_byte};
ghost use Rattle.dym_bits.specs.Bits.{digits, bit_in, bits_of_bytes, bytes_of_bits, clear_bits, set_count, IsSet, IsClear, IsFirstClear, IsNextSet, IsNextClear, IsNextClearInWord, IsTopSet};

use crate::bytes::{BITMAP_BYTES, WORD_BITS, WORDS, bytes_fit, bytes_of, word_at};
use crate::scan::{next_set_in, words_difference, words_intersection, words_union, words_within};
use dym_base::limits::MOST_CHUNKS;
use std::marker::Model;

/// 2,048 bits, one for each chunk that a segment can have. No call takes memory.
///
/// A search stops where the used words end: all words from there on are 0. A word that is used may be 0 too. What is made of two bitmaps, or
/// written, is made of all words: such a loop has a constant length, and the compiler takes several words at once.
#[derive(Drop)]
pub struct Bits {
    words: [u64; WORDS],
    used_words: u32,
}

impl Model for Bits {
    ghost use Rattle.std.specs.Prelude.{◌≤◌, Bool, List};
    ghost use Rattle.dym_bits.specs.Bits.{bits_of, AreZeroFrom};

    ghost Value = { List Bool };

    ghost view = { λ b. bits_of 64 b.words };

    ghost invariant = { λ b. (b.used_words ≤ 32) × AreZeroFrom b.used_words b.words };
}

impl Bits {
    /// A bitmap with every bit clear.
    pub fn new() -> Bits
        ensures clear { result ≡ clear_bits MOST_CHUNKS }
        ensures len { length result ≡ MOST_CHUNKS }
        ensures none { (k : ℕ) → IsClear result k }
    {
        Bits {
            words: [0; WORDS],
            used_words: 0,
        }
    }

    /// Whether bit `i` is set.
    pub fn get(&self, i: u32) -> bool
        requires { i < MOST_CHUNKS }
        ensures { result ≡ bit_in self.now i }
    {
        (self.words[(i / WORD_BITS) as usize] >> (i % WORD_BITS)) & 1 == 1
    }

    /// Sets bit `i`.
    pub fn set(&mut self, i: u32)
        requires { i < MOST_CHUNKS }
        ensures after { self.new ≡ slice_set self.old i true }
        ensures len { length self.new ≡ MOST_CHUNKS }
    {
        let q = i / WORD_BITS;
        self.words[q as usize] |= 1 << (i % WORD_BITS);
        self.used_words = self.used_words.max(q + 1);
    }

    /// Clears bit `i`.
    pub fn clear(&mut self, i: u32)
        requires { i < MOST_CHUNKS }
        ensures after { self.new ≡ slice_set self.old i false }
        ensures len { length self.new ≡ MOST_CHUNKS }
    {
        self.words[(i / WORD_BITS) as usize] &= !(1 << (i % WORD_BITS));
    }

    /// Clears every bit.
    pub fn clear_all(&mut self)
        ensures clear { self.new ≡ clear_bits MOST_CHUNKS }
        ensures len { length self.new ≡ MOST_CHUNKS }
        ensures none { (k : ℕ) → IsClear self.new k }
    {
        *self = Bits::new();
    }

    /// How many bits are set.
    pub fn count(&self) -> u32
        ensures { result ≡ set_count self.now }
    {
        self.count_below(MOST_CHUNKS)
    }

    /// How many bits below `limit` are set.
    pub fn count_below(&self, limit: u32) -> u32
        requires { limit ≤ MOST_CHUNKS }
        ensures counted { result ≡ set_count (take limit self.now) }
        ensures len { length self.now ≡ MOST_CHUNKS }
    {
        let end = limit.min(self.used_words * WORD_BITS);
        let whole = (end / WORD_BITS) as usize;
        let mut count = 0;
        for word in &self.words[..whole] {
            count += word.count_ones();
        }
        let rest = end % WORD_BITS;
        if rest == 0 {
            return count;
        }
        count + (self.words[whole] & ((1 << rest) - 1)).count_ones()
    }

    /// The least clear index below `limit`, and None where all bits below it are set.
    pub fn first_clear(&self, limit: u32) -> Option<u32>
        requires { limit ≤ MOST_CHUNKS }
        ensures { MatchOption result ((k : ℕ) → k < limit → IsSet self.now k)
            (λ i. IsFirstClear self.now limit i) }
    {
        for q in 0..WORDS as u32 {
            let word = self.words[q as usize];
            if word != u64::MAX {
                let i = q * WORD_BITS + word.trailing_ones();
                return if i < limit { Some(i) } else { None };
            }
        }
        None
    }

    /// The least set index that is at least `from`, and None where there is none.
    pub fn next_set(&self, from: u32) -> Option<u32>
        requires { from ≤ MOST_CHUNKS }
        ensures { MatchOption result ((k : ℕ) → from ≤ k → IsClear self.now k)
            (λ i. IsNextSet self.now from i) }
    {
        next_set_in(&self.words, from, self.used_words * WORD_BITS)
    }

    /// The least set index that is at least `from`, in a bitmap with no bit set from `limit` on: the words past it aren't read.
    pub fn next_set_within(&self, from: u32, limit: u32) -> Option<u32>
        requires within { from ≤ limit }
        requires limit { limit ≤ MOST_CHUNKS }
        requires clear { (k : ℕ) → limit ≤ k → IsClear self.now k }
        ensures { MatchOption result ((k : ℕ) → from ≤ k → IsClear self.now k)
            (λ i. IsNextSet self.now from i) }
    {
        next_set_in(&self.words, from, limit.min(self.used_words * WORD_BITS))
    }

    /// The least clear index that is at least `from`, and None where all bits from there on are set.
    pub fn next_clear(&self, from: u32) -> Option<u32>
        requires { from ≤ MOST_CHUNKS }
        ensures { MatchOption result ((k : ℕ) → from ≤ k → k < MOST_CHUNKS → IsSet self.now k)
            (λ i. IsNextClear self.now from i) }
    {
        let words = &self.words;
        if from == MOST_CHUNKS {
            return None;
        }
        let first = from / WORD_BITS;
        let rest = !words[first as usize] & (u64::MAX << (from % WORD_BITS));
        if rest != 0 {
            return Some(first * WORD_BITS + rest.trailing_zeros());
        }
        for q in first + 1..WORDS as u32 {
            let word = words[q as usize];
            if word != u64::MAX {
                return Some(q * WORD_BITS + word.trailing_ones());
            }
        }
        None
    }

    /// The least clear index that is at least `from` and lies in the same word of 64 bits, and None where there is none.
    pub fn next_clear_in_word(&self, from: u32) -> Option<u32>
        requires { from < MOST_CHUNKS }
        ensures { MatchOption result ((k : ℕ) → from ≤ k → k / 64 ≡ from / 64 → IsSet self.now k)
            (λ i. IsNextClearInWord self.now from i) }
    {
        let first = from / WORD_BITS;
        let rest = !self.words[first as usize] & (u64::MAX << (from % WORD_BITS));
        if rest == 0 {
            return None;
        }
        Some(first * WORD_BITS + rest.trailing_zeros())
    }

    /// The first index after the run of set bits that begins at `first`.
    pub fn run_end(&self, first: u32) -> u32
        requires within { first < MOST_CHUNKS }
        requires set { IsSet self.now first }
        ensures after { first < result }
        ensures run { (j : ℕ) → first ≤ j → j < result → IsSet self.now j }
        ensures stops { result < MOST_CHUNKS → IsClear self.now result }
    {
        match self.next_clear(first) {
            Some(end) => end,
            None => MOST_CHUNKS,
        }
    }

    /// The greatest set index, and None where no bit is set.
    pub fn top_set(&self) -> Option<u32>
        ensures { MatchOption result ((k : ℕ) → IsClear self.now k) (λ i. IsTopSet self.now i) }
    {
        for q in (0..self.used_words).rev() {
            let word = self.words[q as usize];
            if word != 0 {
                return Some(q * WORD_BITS + word.ilog2());
            }
        }
        None
    }

    /// Whether each bit that is set is set in `other` too.
    pub fn is_within(&self, other: &Bits) -> bool
        ensures within { result ≡ true → (k : ℕ) → IsSet self.now k → IsSet other.now k }
        ensures outside { result ≡ false → (k : ℕ) × IsSet self.now k × IsClear other.now k }
    {
        words_within(&self.words, &other.words, self.used_words)
    }

    /// The bits that are set here or in `other`.
    pub fn union(&self, other: &Bits) -> Bits
        ensures bits { (i : ℕ) → bit_in result i ≡ (bit_in self.now i || bit_in other.now i) }
        ensures len { length result ≡ MOST_CHUNKS }
    {
        Bits {
            words: words_union(&self.words, &other.words),
            used_words: self.used_words.max(other.used_words),
        }
    }

    /// The bits that are set both here and in `other`.
    pub fn intersection(&self, other: &Bits) -> Bits
        ensures bits { (i : ℕ) → bit_in result i ≡ (bit_in self.now i && bit_in other.now i) }
        ensures len { length result ≡ MOST_CHUNKS }
    {
        Bits {
            words: words_intersection(&self.words, &other.words),
            used_words: self.used_words.min(other.used_words),
        }
    }

    /// The bits that are set here and not in `other`.
    pub fn difference(&self, other: &Bits) -> Bits
        ensures bits { (i : ℕ) → bit_in result i ≡ (bit_in self.now i && not (bit_in other.now i)) }
        ensures len { length result ≡ MOST_CHUNKS }
    {
        Bits {
            words: words_difference(&self.words, &other.words),
            used_words: self.used_words,
        }
    }

    /// Bits `8 * k` to `8 * k + 7` as a byte, the first of them lowest.
    pub fn byte(&self, k: u32) -> u8
        requires { 8 * k < MOST_CHUNKS }
        ensures { result ≡ bitmap_byte (bit_in self.now) k }
    {
        ((self.words[(k / 8) as usize] >> (k % 8 * 8)) & 0xff) as u8
    }

    /// Puts the bits of `v`, the lowest first, in the place of bits `8 * k` to `8 * k + 7`.
    pub fn set_byte(&mut self, k: u32, v: u8)
        requires { 8 * k < MOST_CHUNKS }
        ensures after { self.new
            ≡ take (8 * k) self.old ++ digits 8 v ++ drop (8 * k + 8) self.old }
        ensures len { length self.new ≡ MOST_CHUNKS }
    {
        let q = (k / 8) as usize;
        let at = k % 8 * 8;
        self.words[q] = (self.words[q] & !(0xff << at)) | (u64::from(v) << at);
        self.used_words = self.used_words.max(k / 8 + 1);
    }

    /// Takes the bits from bytes, eight from each and the lowest first, and clears those past them.
    pub fn set_bytes(&mut self, bytes: &[u8])
        requires { 8 * length bytes.now ≤ MOST_CHUNKS }
        ensures after { self.new ≡ bits_of_bytes bytes.now
            ++ clear_bits (MOST_CHUNKS - 8 * length bytes.now) }
        ensures len { length self.new ≡ MOST_CHUNKS }
        ensures bits { (i : ℕ) → bit_in self.new i ≡ bit_in (bits_of_bytes bytes.now) i }

        // Where no bit from n on is set, the bytes are the bitmap of n bits.
        ensures whole { (n : ℕ) → length bytes.now ≡ max 1 (n / 8)
            → ((i : ℕ) → n ≤ i → IsClear self.new i) → bytes.now ≡ bitmap n (bit_in self.new) }
    {
        bytes_fit(bytes);
        let used = bytes.len().div_ceil(8);
        self.words = [0; WORDS];
        for q in 0..used {
            self.words[q] = word_at(bytes, 8 * q);
        }
        self.used_words = used as u32;
    }

    /// All bits as bytes, eight in each and the first of them lowest.
    pub fn bytes(&self) -> [u8; BITMAP_BYTES]
        ensures front { (k : ℕ) → 8 * k ≤ MOST_CHUNKS → take k result ≡ bytes_of_bits k self.now }

        // Where no bit from n on is set, the first of them are the bitmap of n bits.
        ensures whole { (k n : ℕ) → 8 * k ≤ MOST_CHUNKS → k ≡ max 1 (n / 8)
            → ((i : ℕ) → n ≤ i → IsClear self.now i) → take k result ≡ bitmap n (bit_in self.now) }
        ensures bits { bits_of_bytes result ≡ self.now }
    {
        let bytes = bytes_of(&self.words);
        bytes_fit(&bytes);
        bytes
    }
}
