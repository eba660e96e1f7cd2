//! Numbers at the front of a text, eight bytes at once. How many digits there are is a guess that takes no branch; the bytes are
//! then tested, so that nothing but time rests on it.
ghost use Rattle.std.specs.Prelude.{◌≡◌, ◌<◌, ◌≤◌, ◌+◌, ◌*◌, ◌%◌, ◌^◌, true, length, IfSome};
ghost use Rattle.std.specs.List.{list_all};
ghost use Rattle.std.specs.Char.{is_ascii_digit};
ghost use Rattle.std.specs.Int.{w64, to_le_bytes, from_le_bytes};
ghost use Rattle.std.specs.Str.Parse.{digits_value};
ghost use Rattle.dym_script.specs.Quick.{Counts};
ghost use Rattle.dym_script.specs.Fronts.{IsFront};

use crate::operands::number_to;

/// Eight zeros, as digits.
const ZEROS: u64 = 0x3030_3030_3030_3030;

/// The bit of value 16 in each of eight bytes.
const SIXTEENS: u64 = 0x1010_1010_1010_1010;

/// The highest bit of each of eight bytes.
const HIGHEST: u64 = 0x8080_8080_8080_8080;

/// Added to a digit's value, this gives less than 128, and to a greater one more.
const TO_MOST: u64 = 0x7676_7676_7676_7676;

/// What the first and the third pair of eight digits weigh, each in its half of a word.
const FIRST_AND_THIRD: u64 = 100 + (1_000_000 << 32);

/// What the second and the fourth pair weigh.
const SECOND_AND_FOURTH: u64 = 1 + (10_000 << 32);

/// The number that digits write, which is at most `most`, and the text after them.
#[inline(always)]
pub fn digits_to(most: u64, text: &[u8]) -> Option<(u64, &[u8])>
    ensures { IfSome result (λ cut. Counts text.now cut.0 cut.1.now × (cut.0 ≤ most)) }
{
    let (number, rest) = digits(text)?;
    if number > most {
        return None;
    }
    Some((number, rest))
}

/// The number that digits write, and the text after them.
#[inline(always)]
fn digits(text: &[u8]) -> Option<(u64, &[u8])>
    ensures { IfSome result (λ cut. Counts text.now cut.0 cut.1.now) }
{
    match few_digits(text) {
        Some((number, rest)) => Some((u64::from(number), rest)),
        None => any_digits(text),
    }
}

/// The number that at most seven digits write, and the text after them, where eight bytes or more are left.
#[inline(always)]
pub fn few_digits(text: &[u8]) -> Option<(u32, &[u8])>
    ensures { IfSome result (λ cut. Counts text.now cut.0 cut.1.now) }
{
    let (values, count) = front(text)?;
    let value = eight_digits(values)?;
    Some((value, &text[count..]))
}

/// The number that any digits write, which are read one after another, and the text after them.
#[inline(always)]
fn any_digits(text: &[u8]) -> Option<(u64, &[u8])>
    ensures { IfSome result (λ cut. Counts text.now cut.0 cut.1.now) }
{
    let (word, rest) = text.split_at(digit_count(text));
    let number = number_to(u64::MAX, word)?;
    Some((number, rest))
}

/// How many digits stand at the front of a text.
#[inline(never)]
fn digit_count(text: &[u8]) -> usize
    ensures { result ≤ length text.now }
{
    text.iter().take_while(|byte| byte.is_ascii_digit()).count()
}

/// The first eight bytes of a text as a word, the first of them lowest.
#[inline(always)]
pub fn first_word(text: &[u8]) -> Option<u64>
    ensures word { IfSome result (λ word. word ≡ from_le_bytes w64 text.now) }
    ensures within { IfSome result (λ _. 8 ≤ length text.now) }
{
    let bytes = text.first_chunk::<8>()?;
    Some(u64::from_le_bytes(*bytes))
}

/// A word of zeros, and after them what the bytes at the front of a text that seem to be digits are worth; and how many these
/// are, one to seven.
#[inline(always)]
fn front(text: &[u8]) -> Option<(u64, usize)>
    ensures { IfSome result (λ front. IsFront text.now ((front.0 + ZEROS) % 2 ^ 64) front.1) }
{
    let word = first_word(text)?;
    let count = digits_at_front(word);
    if count == 0 || count == 8 {
        return None;
    }
    let values = word.wrapping_sub(ZEROS) << (64 - 8 * count);
    Some((values, count))
}

/// How many digits seem to stand at the front of eight bytes. Digits have the bit that spaces and line ends lack.
#[inline(always)]
fn digits_at_front(word: u64) -> usize
    ensures { result ≤ 8 }
{
    (!word & SIXTEENS).trailing_zeros() as usize / 8
}

/// The number that eight digits write which have these values, where they are those of digits.
#[inline(always)]
fn eight_digits(values: u64) -> Option<u32>
    ensures digits { IfSome result (λ _. list_all is_ascii_digit
        (to_le_bytes w64 ((values + ZEROS) % 2 ^ 64))
        ≡ true) }
    ensures value { IfSome result (λ value.
        value ≡ digits_value 10 (to_le_bytes w64 ((values + ZEROS) % 2 ^ 64))) }
{
    if !are_values(values) {
        return None;
    }
    let pairs = values * 10 + (values >> 8);
    let [ab, _, cd, _, ef, _, gh, _] = pairs.to_le_bytes();
    Some(weighted_sum(ab, cd, ef, gh))
}

/// Whether each of a word's bytes is a digit's value.
#[inline(always)]
fn are_values(values: u64) -> bool
    ensures digits { result ≡ true → list_all is_ascii_digit
        (to_le_bytes w64 ((values + ZEROS) % 2 ^ 64))
        ≡ true }
    ensures few { result ≡ true → values < 2 ^ 60 }
{
    let more = values.wrapping_add(TO_MOST);
    (values & HIGHEST == 0) & (more & HIGHEST == 0)
}

/// The number of four pairs of digits, the two halves of a word at once.
#[inline(always)]
fn weighted_sum(ab: u8, cd: u8, ef: u8, gh: u8) -> u32
    ensures { result ≡ (ab * 100 + cd) * 10_000 + (ef * 100 + gh) }
{
    let outer = u64::from(ab) + (u64::from(ef) << 32);
    let inner = u64::from(cd) + (u64::from(gh) << 32);
    let sum = outer.wrapping_mul(FIRST_AND_THIRD) + inner.wrapping_mul(SECOND_AND_FOURTH);
    (sum >> 32) as u32
}
