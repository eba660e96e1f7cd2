//! Numbers as words.
ghost use Rattle.std.specs.Prelude.{◌≡◌};
ghost use Rattle.std.specs.Char.{is_ascii_digit};
ghost use Rattle.std.specs.List.{list_all};
ghost use Rattle.dym_words.specs.Numbers.{number_of, number_within};

/// The number that a word spells: 1 to 20 digits with a value below 2^64.
pub fn read_number(word: &str) -> Option<u64>
    ensures { result ≡ number_of word.now }
{
    if word.len() > 20 || !are_digits(word.as_bytes()) {
        return None;
    }
    word.parse().ok()
}

/// Whether each byte is a digit.
fn are_digits(bytes: &[u8]) -> bool
    ensures { result ≡ list_all is_ascii_digit bytes.now }
{
    bytes.iter().all(u8::is_ascii_digit)
}

/// The number that a word spells, where it is from `low` to `high`.
pub fn read_within(word: &str, low: u32, high: u32) -> Option<u32>
    ensures { result ≡ number_within low high word.now }
{
    let number = read_number(word)?;
    if number < u64::from(low) || number > u64::from(high) {
        return None;
    }
    Some(number as u32)
}
