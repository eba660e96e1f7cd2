//! Lines of an input and words of a line, cut off at the front one by one.
ghost use Rattle.std.specs.Prelude.{◌≡◌, ◌≢◌, ◌<◌, [], ◌∷◌, not, length, ◌≤◌, ◌+◌, IfSome, MatchOption, MatchResult};
ghost use Rattle.std.specs.List.{prefix_len};
ghost use Rattle.dym_base.specs.declared.bad_kind.BadKind.TheVariants.{Command};
ghost use Rattle.dym_base.specs.Lines.{lines_of};
ghost use Rattle.dym_script.specs.Lines.{words_of, is_space};

use dym_base::BadKind;
use memchr::memchr;

/// The first line of a text, without its end, and what stands after it. None where nothing is left.
pub fn next_line(text: &[u8]) -> Option<(&[u8], &[u8])>
    ensures cut { MatchOption result (lines_of text.now ≡ [])
        (λ cut. lines_of text.now ≡ cut.0.now ∷ lines_of cut.1.now) }
    ensures shorter { IfSome result (λ cut. length cut.1.now < length text.now) }
    ensures within { IfSome result (λ cut. length cut.0.now + length cut.1.now ≤ length text.now) }
{
    if text.is_empty() {
        return None;
    }
    match memchr(b'\n', text) {
        Some(end) => Some((&text[..end], &text[end + 1..])),
        None => Some((text, &[])),
    }
}

/// The first word of a line, and what stands after it. None where no word is left.
pub fn next_word(text: &[u8]) -> Option<(&[u8], &[u8])>
    ensures { MatchOption result (words_of text.now ≡ [])
        (λ cut. words_of text.now ≡ cut.0.now ∷ words_of cut.1.now) }
{
    let (_, text) = text.split_at(spaces_before(text));
    if text.is_empty() {
        return None;
    }
    let (word, after) = text.split_at(word_before(text));
    Some((word, after))
}

/// The only word of a line. Where there is another number of words, that is what is wrong with the command.
pub fn one_word(text: &[u8]) -> Result<&[u8], BadKind>
    ensures { MatchResult result (λ word. words_of text.now ≡ word.now ∷ [])
        (λ kind. (kind ≡ Command) × (length (words_of text.now) ≢ 1)) }
{
    let (word, after) = next_word(text).ok_or(BadKind::Command)?;
    match next_word(after) {
        Some(_) => Err(BadKind::Command),
        None => Ok(word),
    }
}

/// The two words of a line.
pub fn two_words(text: &[u8]) -> Result<(&[u8], &[u8]), BadKind>
    ensures { MatchResult result (λ words. words_of text.now ≡ words.0.now ∷ words.1.now ∷ [])
        (λ kind. (kind ≡ Command) × (length (words_of text.now) ≢ 2)) }
{
    let (first, after) = next_word(text).ok_or(BadKind::Command)?;
    let second = one_word(after)?;
    Ok((first, second))
}

/// The three words of a line.
pub fn three_words(text: &[u8]) -> Result<(&[u8], &[u8], &[u8]), BadKind>
    ensures { MatchResult result (λ words. words_of text.now
        ≡ words.0.now ∷ words.1.now ∷ words.2.now ∷ [])
        (λ kind. (kind ≡ Command) × (length (words_of text.now) ≢ 3)) }
{
    let (first, after) = next_word(text).ok_or(BadKind::Command)?;
    let (second, third) = two_words(after)?;
    Ok((first, second, third))
}

/// The four words of a line.
pub fn four_words(text: &[u8]) -> Result<(&[u8], &[u8], &[u8], &[u8]), BadKind>
    ensures { MatchResult result (λ words.
        words_of text.now ≡ words.0.now ∷ words.1.now ∷ words.2.now ∷ words.3.now ∷ []) (λ kind.
        (kind ≡ Command) × (length (words_of text.now) ≢ 4)) }
{
    let (first, after) = next_word(text).ok_or(BadKind::Command)?;
    let (second, third, fourth) = three_words(after)?;
    Ok((first, second, third, fourth))
}

/// How many spaces stand at the front.
fn spaces_before(text: &[u8]) -> usize
    ensures value { result ≡ prefix_len is_space text.now }
    ensures within { result ≤ length text.now }
{
    text.iter().take_while(|byte| **byte == b' ').count()
}

/// How many bytes stand before the first space.
fn word_before(text: &[u8]) -> usize
    ensures value { result ≡ prefix_len (λ byte. not (is_space byte)) text.now }
    ensures within { result ≤ length text.now }
{
    text.iter().take_while(|byte| **byte != b' ').count()
}
