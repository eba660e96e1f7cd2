//! What a line of late events says of its object, by its words.
ghost use Rattle.std.specs.Prelude.{◌≡◌, true, IfOk};
ghost use Rattle.dym_script.specs.Lines.{words_of};
ghost use Rattle.dym_script.specs.Late.{act_of, at_words, commit_words, event_at, event_fault, is_event, is_event_verb, time_of};
ghost use Rattle.dym_script.specs.LateArrivals.{MayAct};
ghost use Rattle.dym_script.specs.Table.{command_of};
ghost use Rattle.dym_script.specs.Answers.{GivesLine};

use crate::late_script::LateAct;
use crate::line_fail::LineFail;
use crate::lines::{next_word, one_word};
use crate::operands::{number_of, number_to};
use crate::verb::Verb;
use dym_base::BadKind;
use std::alloc::Global;

impl LateAct {
    /// Whether it is an event.
    pub fn is_event(&self) -> bool
        ensures { result ≡ is_event self.now }
    {
        match self {
            LateAct::At { .. } => true,
            LateAct::Commit { .. } => false,
        }
    }
}

/// What the words after an object's name say of it.
#[tactic(auto, unfolding(crate::specs::Late::act_of))]
pub fn act_of(alloc: Global, words: &[u8]) -> Result<LateAct, LineFail>
    ensures read { GivesLine (λ act. act) result (act_of (words_of words.now)) }
    ensures may { IfOk result MayAct }
{
    let (word, words) = next_word(words).ok_or(BadKind::Command)?;
    if word == b"at".as_slice() {
        at_words(alloc, words)
    } else if word == b"commit".as_slice() {
        commit_words(words)
    } else {
        Err(LineFail::Bad(BadKind::Command))
    }
}

/// A commit of a time.
fn commit_words(words: &[u8]) -> Result<LateAct, LineFail>
    ensures read { GivesLine (λ act. act) result (commit_words (words_of words.now)) }
    ensures may { IfOk result MayAct }
{
    let time = number_of(one_word(words)?)?;
    Ok(LateAct::Commit { time })
}

/// An event of a time and a command.
fn at_words(alloc: Global, words: &[u8]) -> Result<LateAct, LineFail>
    ensures read { GivesLine (λ act. act) result (at_words (words_of words.now)) }
    ensures may { IfOk result MayAct }
{
    let (time, words) = next_word(words).ok_or(BadKind::Command)?;
    let (word, words) = next_word(words).ok_or(BadKind::Command)?;
    let verb = Verb::of(word).ok_or(BadKind::Command)?;
    if !is_event_verb(verb) {
        return Err(LineFail::Bad(BadKind::Command));
    }
    event_at(alloc, time, verb, words)
}

/// An event of a time, a verb that an event may have, and the words after it.
fn event_at(alloc: Global, time: &[u8], verb: Verb, words: &[u8]) -> Result<LateAct, LineFail>
    requires { is_event_verb verb ≡ true }
    ensures read { GivesLine (λ act. act) result
        (event_at (time_of time.now) (command_of verb (words_of words.now))) }
    ensures may { IfOk result MayAct }
{
    match verb.asked(words) {
        Ok(asked) => {
            let time = number_of(time)?;
            let command = asked.command(alloc)?;
            Ok(LateAct::At { time, command })
        }
        Err(kind) => Err(LineFail::Bad(event_fault(time, kind))),
    }
}

/// What is wrong first with an event whose command has this fault.
fn event_fault(time: &[u8], kind: BadKind) -> BadKind
    ensures { result ≡ event_fault (time_of time.now) kind }
{
    match kind {
        BadKind::Command => BadKind::Command,
        _ => match number_to(u64::MAX, time) {
            Some(_) => kind,
            None => BadKind::Number,
        },
    }
}

/// Whether an event may have this verb.
fn is_event_verb(verb: Verb) -> bool
    ensures { result ≡ is_event_verb verb }
{
    matches!(
        verb,
        Verb::Malloc
            | Verb::Calloc
            | Verb::Realloc
            | Verb::Free
            | Verb::Write
            | Verb::Fill
            | Verb::Link
            | Verb::Follow
            | Verb::Sum
    )
}
