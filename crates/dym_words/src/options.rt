//! Options among the words of an order.
ghost use Rattle.std.specs.Prelude.{◌≡◌, ◌||◌, map, not, nat_le, count_by, position, take_while};
ghost use Rattle.std.specs.String.{string_bytes};
ghost use Rattle.std.specs.List.{list_all, list_any};
ghost use Rattle.std.specs.Option.{option_map};
ghost use Rattle.dym_words.specs.Options.{is_option, begins_with_option, is_text, values_of, are_options, flag_of, number_or};

use crate::number::read_within;

/// Whether a word names an option: it begins with two dashes.
fn is_option(word: &String) -> bool
    ensures { result ≡ is_option (string_bytes word.now) }
{
    word.as_bytes().starts_with(b"--")
}

/// Whether the words are options of these names, each at most once, with their values.
pub fn are_options(words: &[String], names: &[&str]) -> bool
    ensures { result ≡ are_options (map (λ name. name.now) names.now) (map string_bytes words.now) }
{
    begins_with_option(words) && are_known(words, names) && are_single(words, names)
}

/// Whether no value stands before the first option.
fn begins_with_option(words: &[String]) -> bool
    ensures { result ≡ begins_with_option (map string_bytes words.now) }
{
    match words {
        [] => true,
        [word, ..] => is_option(word),
    }
}

/// Whether each option is one of these.
fn are_known(words: &[String], names: &[&str]) -> bool
    ensures { result ≡ list_all (λ w.
        not (is_option (string_bytes w)) || list_any (λ n.
        is_text n.now (string_bytes w)) names.now) words.now }
{
    words.iter().all(|word| is_known(word, names))
}

/// Whether the word is one of these options, or a value.
fn is_known(word: &String, names: &[&str]) -> bool
    ensures { result ≡ (not (is_option (string_bytes word.now)) || list_any
        (λ n. is_text n.now (string_bytes word.now)) names.now) }
{
    !is_option(word) || is_among(word, names)
}

/// Whether the word is one of these.
fn is_among(word: &String, names: &[&str]) -> bool
    ensures { result ≡ list_any (λ n. is_text n.now (string_bytes word.now)) names.now }
{
    names.iter().any(|name| is_text(word, name))
}

/// Whether the word is this text.
fn is_text(word: &String, text: &str) -> bool
    ensures { result ≡ is_text text.now (string_bytes word.now) }
{
    word.as_str() == text
}

/// Whether each of these options is given at most once.
fn are_single(words: &[String], names: &[&str]) -> bool
    ensures { result ≡ list_all (λ n.
        nat_le (count_by (is_text n.now) (map string_bytes words.now)) 1) names.now }
{
    names.iter().all(|name| is_single(words, name))
}

/// Whether this text is at most one of the words.
fn is_single(words: &[String], text: &str) -> bool
    ensures { result ≡ nat_le (count_by (is_text text.now) (map string_bytes words.now)) 1 }
{
    words.iter().filter(|word| is_text(word, text)).count() <= 1
}

/// The values of the option of this name: the words after it, up to the next option.
pub fn values<'a>(words: &'a [String], name: &str) -> Option<&'a [String]>
    ensures { option_map (λ vs. map string_bytes vs.now) result
        ≡ values_of name.now (map string_bytes words.now) }
{
    let at = place(words, name)?;
    Some(before_option(&words[at + 1..]))
}

/// Where the option of this name stands.
fn place(words: &[String], name: &str) -> Option<usize>
    ensures { result ≡ position (λ w. is_text name.now (string_bytes w)) words.now }
{
    words.iter().position(|word| is_text(word, name))
}

/// The words before the first option.
fn before_option(words: &[String]) -> &[String]
    ensures { result.now ≡ take_while (λ w. not (is_option (string_bytes w))) words.now }
{
    match first_option(words) {
        None => words,
        Some(end) => &words[..end],
    }
}

/// Where the first option stands.
fn first_option(words: &[String]) -> Option<usize>
    ensures { result ≡ position (λ w. is_option (string_bytes w)) words.now }
{
    words.iter().position(is_option)
}

/// Whether an option without values is given. None where it has values.
pub fn read_flag(words: &[String], name: &str) -> Option<bool>
    ensures { result ≡ flag_of (values_of name.now (map string_bytes words.now)) }
{
    match values(words, name) {
        None => Some(false),
        Some([]) => Some(true),
        Some(_) => None,
    }
}

/// The value of an option, from 1 to `high`, and the default where the option isn't given. None where the option has
/// another value.
pub fn read_number_or(words: &[String], name: &str, high: u32, default: u32) -> Option<u32>
    ensures { result ≡ number_or high default (values_of name.now (map string_bytes words.now)) }
{
    match values(words, name) {
        None => Some(default),
        Some([value]) => read_within(value.as_str(), 1, high),
        Some(_) => None,
    }
}
