//! The commands of the table, by their words.
ghost use Rattle.std.specs.Prelude.{◌≡◌};
ghost use Rattle.dym_script.specs.declared.verb.Verb.TheVariants as verb;
ghost use Rattle.dym_script.specs.Table.{command_of, verb_of, Gives};
ghost use Rattle.dym_script.specs.Lines.{words_of};
ghost use Rattle.dym_commands.specs.Requests.{asks};

use crate::lines::{four_words, next_word, one_word, three_words, two_words};
use crate::operands::{
    byte_of, bytes_of, handle_of, handle_or_nil_of, number_32_of, number_of, read_len_of,
};
use dym_base::{BadKind, Command};
use dym_commands::{HexBytes, Request};

/// What a command line asks.
#[derive(Clone, Copy)]
pub enum Verb {
    Malloc,
    Calloc,
    Realloc,
    Free,
    Write,
    Fill,
    Read,
    Link,
    Follow,
    Sum,
    Log,
    Ilog,
    Restore,
    Prune,
    Logs,
}

impl Verb {
    /// The verb whose word this is.
    #[tactic(auto, unfolding(crate::specs::Table::verb_of))]
    pub fn of(word: &[u8]) -> Option<Verb>
        ensures { result ≡ verb_of word.now }
    {
        match word {
            b"malloc" => Some(Verb::Malloc),
            b"calloc" => Some(Verb::Calloc),
            b"realloc" => Some(Verb::Realloc),
            b"free" => Some(Verb::Free),
            b"write" => Some(Verb::Write),
            b"fill" => Some(Verb::Fill),
            b"read" => Some(Verb::Read),
            b"link" => Some(Verb::Link),
            b"follow" => Some(Verb::Follow),
            b"sum" => Some(Verb::Sum),
            b"log" => Some(Verb::Log),
            b"ilog" => Some(Verb::Ilog),
            b"restore" => Some(Verb::Restore),
            b"prune" => Some(Verb::Prune),
            b"logs" => Some(Verb::Logs),
            _ => None,
        }
    }

    /// What the words after the verb ask, or what is wrong with them first: how many they are, then a number, a handle, the bytes.
    #[tactic(auto, unfolding(crate::specs::Table::command_of))]
    pub fn asked(self, words: &[u8]) -> Result<Request<HexBytes<'_>>, BadKind>
        ensures { Gives asks result (command_of self (words_of words.now)) }
    {
        match self {
            Verb::Malloc => {
                let len = number_of(one_word(words)?)?;
                Ok(Request::Plain(Command::Malloc { len }))
            }
            Verb::Calloc => calloc_asked(words),
            Verb::Realloc => realloc_asked(words),
            Verb::Free => {
                let h = handle_or_nil_of(one_word(words)?)?;
                Ok(Request::Plain(Command::Free { h }))
            }
            Verb::Write => write_asked(words),
            Verb::Fill => fill_asked(words),
            Verb::Read => read_asked(words),
            Verb::Link => link_asked(words),
            Verb::Follow => follow_asked(words),
            Verb::Sum => {
                let h = handle_of(one_word(words)?)?;
                Ok(Request::Plain(Command::Sum { h }))
            }
            Verb::Log => {
                let time = number_of(one_word(words)?)?;
                Ok(Request::Plain(Command::Log { time }))
            }
            Verb::Ilog => {
                let time = number_of(one_word(words)?)?;
                Ok(Request::Plain(Command::Ilog { time }))
            }
            Verb::Restore => {
                let time = number_of(one_word(words)?)?;
                Ok(Request::Plain(Command::Restore { time }))
            }
            Verb::Prune => {
                let bound = number_of(one_word(words)?)?;
                Ok(Request::Plain(Command::Prune { bound }))
            }
            Verb::Logs => match next_word(words) {
                Some(_) => Err(BadKind::Command),
                None => Ok(Request::Plain(Command::Logs)),
            },
        }
    }
}

/// What the words after `calloc` ask.
#[tactic(auto, unfolding(crate::specs::Table::command_of))]
fn calloc_asked(words: &[u8]) -> Result<Request<HexBytes<'_>>, BadKind>
    ensures { Gives asks result (command_of verb.Calloc (words_of words.now)) }
{
    let (n, len) = two_words(words)?;
    let (n, len) = (number_of(n)?, number_of(len)?);
    Ok(Request::Plain(Command::Calloc { n, len }))
}

/// What the words after `realloc` ask.
#[tactic(auto, unfolding(crate::specs::Table::command_of))]
fn realloc_asked(words: &[u8]) -> Result<Request<HexBytes<'_>>, BadKind>
    ensures { Gives asks result (command_of verb.Realloc (words_of words.now)) }
{
    let (h, len) = two_words(words)?;
    let (len, h) = (number_of(len)?, handle_or_nil_of(h)?);
    Ok(Request::Plain(Command::Realloc { h, len }))
}

/// What the words after `write` ask.
#[tactic(auto, unfolding(crate::specs::Table::command_of))]
fn write_asked(words: &[u8]) -> Result<Request<HexBytes<'_>>, BadKind>
    ensures { Gives asks result (command_of verb.Write (words_of words.now)) }
{
    let (h, at, bytes) = three_words(words)?;
    let (at, h, bytes) = (number_32_of(at)?, handle_of(h)?, bytes_of(bytes)?);
    Ok(Request::Write { h, at, bytes })
}

/// What the words after `fill` ask.
#[tactic(auto, unfolding(crate::specs::Table::command_of))]
fn fill_asked(words: &[u8]) -> Result<Request<HexBytes<'_>>, BadKind>
    ensures { Gives asks result (command_of verb.Fill (words_of words.now)) }
{
    let (h, at, len, byte) = four_words(words)?;
    let (at, len, byte) = (number_32_of(at)?, number_32_of(len)?, byte_of(byte)?);
    let h = handle_of(h)?;
    Ok(Request::Plain(Command::Fill { h, at, len, byte }))
}

/// What the words after `read` ask.
#[tactic(auto, unfolding(crate::specs::Table::command_of))]
fn read_asked(words: &[u8]) -> Result<Request<HexBytes<'_>>, BadKind>
    ensures { Gives asks result (command_of verb.Read (words_of words.now)) }
{
    let (h, at, len) = three_words(words)?;
    let (at, len, h) = (number_32_of(at)?, read_len_of(len)?, handle_of(h)?);
    Ok(Request::Plain(Command::Read { h, at, len }))
}

/// What the words after `link` ask.
#[tactic(auto, unfolding(crate::specs::Table::command_of))]
fn link_asked(words: &[u8]) -> Result<Request<HexBytes<'_>>, BadKind>
    ensures { Gives asks result (command_of verb.Link (words_of words.now)) }
{
    let (h, at, to) = three_words(words)?;
    let (at, h, to) = (number_32_of(at)?, handle_of(h)?, handle_or_nil_of(to)?);
    Ok(Request::Plain(Command::Link { h, at, to }))
}

/// What the words after `follow` ask.
#[tactic(auto, unfolding(crate::specs::Table::command_of))]
fn follow_asked(words: &[u8]) -> Result<Request<HexBytes<'_>>, BadKind>
    ensures { Gives asks result (command_of verb.Follow (words_of words.now)) }
{
    let (h, at) = two_words(words)?;
    let (at, h) = (number_32_of(at)?, handle_of(h)?);
    Ok(Request::Plain(Command::Follow { h, at }))
}
