//! Tests of a line that need nothing but the line.
ghost use Rattle.std.specs.Prelude.{◌≡◌};
ghost use Rattle.std.specs.List.{list_all};
ghost use Rattle.dym_script.specs.Lines.{words_of, is_printable};
ghost use Rattle.dym_script.specs.Scripts.{is_version, name_fault};

use crate::lines::one_word;
use dym_base::{BadKind, is_name};

/// Whether a line has only bytes that it may have.
pub fn is_printable_line(line: &[u8]) -> bool
    ensures { result ≡ list_all is_printable line.now }
{
    line.iter().all(is_printable)
}

/// Whether a line may have this byte.
fn is_printable(byte: &u8) -> bool
    ensures { result ≡ is_printable byte.now }
{
    (0x20..=0x7e).contains(byte)
}

/// Whether these are the two words of the version line.
pub fn is_version(first: &[u8], words: &[u8]) -> bool
    ensures { result ≡ is_version first.now (words_of words.now) }
{
    first == b"version".as_slice() && one_word(words).ok() == Some(b"2".as_slice())
}

/// What is wrong with a name that isn't declared.
pub fn unknown(name: &[u8]) -> BadKind
    ensures { result ≡ name_fault name.now }
{
    if is_name(name) {
        BadKind::Undeclared
    } else {
        BadKind::Name
    }
}
