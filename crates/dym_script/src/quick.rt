//! The quick reader of what a line asks, behind the line's name, where it is in the usual spelling: one space before each word, and
//! the line end right after the last. Which verb stands at the front of the words is guessed here, and the files below read what the
//! words ask. Where `quick_rest` answers, the grammar says the same of the line; the exact reader has what this one gives up.
//! Guesses, of which verb, which class size and how many digits there are, only cost time where they are wrong.
ghost use Rattle.std.specs.Prelude.{IfSome};
ghost use Rattle.dym_script.specs.Quick.{Demands};

mod numerals;
mod operands;
mod sizes;
mod verbs;

use crate::quick::numerals::first_word;
use crate::quick::verbs::{bytes_verb, chunk_verb, link_verb, log_verb};
use crate::verb::Verb;
use dym_commands::{HexBytes, Request};

/// How many rows the table of verbs has. Fifteen are in use, and the other repeats a verb.
const VERB_ROWS: usize = 16;

/// A multiple of a space and the four bytes after it, with which a verb begins, tells the row, by four of its bits. This is the least
/// factor by which the fifteen verbs, `sum` and `log` with the space behind them, have rows of their own: each from 1 on was tried.
const VERB_SPREAD: u64 = 411_353;

/// The verb of each row.
const VERBS: [Verb; VERB_ROWS] = [
    Verb::Realloc,
    Verb::Write,
    Verb::Calloc,
    Verb::Malloc,
    Verb::Restore,
    Verb::Fill,
    Verb::Logs,
    Verb::Logs,
    Verb::Read,
    Verb::Link,
    Verb::Follow,
    Verb::Sum,
    Verb::Log,
    Verb::Prune,
    Verb::Free,
    Verb::Ilog,
];

/// Reads a line from behind its name on: what it asks goes into a place, without a copy. The answer is the text after the line.
#[inline(never)]
pub fn quick_rest<'a>(text: &'a [u8], asked: &mut Request<HexBytes<'a>>) -> Option<&'a [u8]>
    ensures { IfSome result (λ rest. Demands text.now asked.new rest.now) }
{
    let word = first_word(text)?;
    let verb = guessed_verb(word);
    match verb {
        Verb::Malloc | Verb::Calloc | Verb::Realloc | Verb::Free => chunk_verb(verb, text, asked),
        Verb::Write | Verb::Fill | Verb::Read => bytes_verb(verb, text, asked),
        Verb::Link | Verb::Follow | Verb::Sum => link_verb(verb, text, asked),
        _ => log_verb(verb, text, asked),
    }
}

/// The verb with which a word seems to begin, after a space. Whoever reads the line compares the whole verb, so that nothing but
/// time rests on it.
#[inline(always)]
fn guessed_verb(word: u64) -> Verb {
    VERBS[(word.wrapping_mul(VERB_SPREAD) >> 32) as usize % VERB_ROWS]
}
