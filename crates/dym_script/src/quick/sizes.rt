//! The class size of a handle. Which one stands at the front of a text is a guess that takes no branch, from its first three
//! bytes; the whole size and its colon are then compared, so that nothing but time rests on it. The shortest sizes are the most
//! usual: a branch tells them, so that where they end is known before they are looked up.
ghost use Rattle.std.specs.Prelude.{◌<◌, IfSome};
ghost use Rattle.dym_script.specs.Quick.{Sizes};

use crate::quick::numerals::first_word;

/// How many rows the tables of class sizes have. Twelve are in use, and the others repeat the first size.
const ROWS: usize = 16;

/// A multiple of the first three bytes of a class size with its colon tells the row, by four of its bits. This is the least factor by
/// which the twelve sizes have rows of their own: each from 1 on was tried.
const SPREAD: u64 = 4163;

/// The text of each class size with its colon, in the highest bytes of a word, the first of them lowest.
const TEXTS: [u64; ROWS] = [
    0x3a32_3931_3800_0000,
    0x3a32_3300_0000_0000,
    0x3a34_3230_3100_0000,
    0x3a32_3135_0000_0000,
    0x3a36_3335_3536_0000,
    0x3a32_3300_0000_0000,
    0x3a32_3300_0000_0000,
    0x3a34_3600_0000_0000,
    0x3a36_3532_0000_0000,
    0x3a38_3637_3233_0000,
    0x3a38_3430_3200_0000,
    0x3a32_3300_0000_0000,
    0x3a34_3833_3631_0000,
    0x3a38_3231_0000_0000,
    0x3a32_3300_0000_0000,
    0x3a36_3930_3400_0000,
];

/// How many bytes each of these texts has.
const LENGTHS: [usize; ROWS] = [5, 3, 5, 4, 6, 3, 3, 3, 4, 6, 5, 3, 6, 4, 3, 5];

/// How many bytes the shortest of these texts have.
const SHORTEST: usize = 3;

/// The exponent of each class size.
const EXPONENTS: [u8; ROWS] = [13, 5, 10, 9, 16, 5, 5, 6, 8, 15, 11, 5, 14, 7, 5, 12];

/// The class exponent of a chunk size that a colon follows, and the text after the colon, where eight bytes or more are left.
#[inline(always)]
pub fn size(text: &[u8]) -> Option<(u8, &[u8])>
    ensures { IfSome result (λ cut. Sizes text.now cut.0 cut.1.now) }
{
    let word = first_word(text)?;
    let row = row_of(word);
    if word << (64 - 8 * SHORTEST) == TEXTS[row] {
        return Some((EXPONENTS[row], &text[SHORTEST..]));
    }
    let length = LENGTHS[row];
    if word << (64 - 8 * length) != TEXTS[row] {
        return None;
    }
    Some((EXPONENTS[row], &text[length..]))
}

/// The row of the class size whose text a word seems to begin with.
#[inline(always)]
fn row_of(word: u64) -> usize
    ensures { result < ROWS }
{
    (word.wrapping_mul(SPREAD) >> 20) as usize % ROWS
}
