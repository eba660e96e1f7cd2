//! Reads a whole script of late events.
ghost use Rattle.std.specs.Prelude.{◌≡◌, ◌<◌, ◌∷◌, length, Some, IfOk, OnOk};
ghost use Rattle.dym_script.specs.Late.{act_on, late_line, late_of, late_said, late_start, late_words, late_declared, declaring};
ghost use Rattle.dym_script.specs.LateArrivals.{IsLawfulLate, MayAct};
ghost use Rattle.dym_script.specs.LateAnswers.{GivesLate, GivesLateLine, IsValidLateReader, late_reading_of};
ghost use Rattle.dym_script.specs.Lines.{words_of};
ghost use Rattle.dym_script.specs.Scripts.{declare_words};

use crate::late_script::{LateAct, LateLine, LateScript};
use crate::late_words::act_of;
use crate::line_fail::LineFail;
use crate::line_tests::is_printable_line;
use crate::lines::{next_line, next_word, two_words};
use crate::operands::number_of;
use crate::reader::Reader;
use crate::script::ScriptFail;
use dym_base::BadKind;
use dym_base::limits::{MOST_INPUT_BYTES, MOST_LATE_EVENTS, MOST_LATE_LINES, MOST_LINE_BYTES};
use std::alloc::Global;

/// What was read so far of a script of late events.
#[derive(Drop)]
pub struct LateReader {
    /// The declarations, with the index of their names.
    pub declared: Reader,
    pub lines: Vec<LateLine>,
    /// How many events each declared object has.
    pub events: Vec<u32>,
}

impl LateReader {
    /// Nothing is read yet.
    fn new(alloc: Global) -> LateReader
        ensures kept { IsValidLateReader result }
        ensures reading_of { late_reading_of result ≡ late_start }
    {
        LateReader {
            declared: Reader::new(alloc),
            lines: Vec::new(alloc),
            events: Vec::new(alloc),
        }
    }

    /// Reads the line of this number.
    #[tactic(auto, unfolding(crate::specs::Late::late_line))]
    fn read_line(&mut self, alloc: Global, number: u32, line: &[u8]) -> Result<(), LineFail>
        requires { IsValidLateReader self.old }
        ensures kept { OnOk result (IsValidLateReader self.new) }
        ensures read { GivesLateLine (late_reading_of self.new) result
            (late_line (late_reading_of self.old) number line.now) }
    {
        if line.len() > MOST_LINE_BYTES {
            return Err(LineFail::Bad(BadKind::LongLine));
        }
        if !is_printable_line(line) {
            return Err(LineFail::Bad(BadKind::Bytes));
        }
        match next_word(line) {
            Some((first, words)) => self.read_words(alloc, number, first, words),
            None => Ok(()),
        }
    }

    /// Reads a line by its first word and the text of the others.
    fn read_words(
        &mut self,
        alloc: Global,
        number: u32,
        first: &[u8],
        words: &[u8],
    ) -> Result<(), LineFail>
        requires { IsValidLateReader self.old }
        ensures kept { OnOk result (IsValidLateReader self.new) }
        ensures read { GivesLateLine (late_reading_of self.new) result
            (late_words (late_reading_of self.old) number (first.now ∷ words_of words.now)) }
    {
        if first.first() == Some(&b'#') {
            return Ok(());
        }
        if first == b"object".as_slice() {
            return self.declare(alloc, number, words);
        }
        let act = act_of(alloc, words)?;
        let object = self.declared.asked_of(first)?;
        self.keep(object, act)
    }

    /// Reads the words of a declaration.
    fn declare(&mut self, alloc: Global, number: u32, words: &[u8]) -> Result<(), LineFail>
        requires { IsValidLateReader self.old }
        ensures kept { OnOk result (IsValidLateReader self.new) }
        ensures read { GivesLateLine (late_reading_of self.new) result
            (late_declared (late_reading_of self.old)
            (declare_words (declaring (late_reading_of self.old).objects) number
            (words_of words.now))) }
    {
        let (name, quota) = two_words(words)?;
        let quota = number_of(quota)?;
        self.declared.declare(alloc, number, name, quota)?;
        self.events.push(0)?;
        Ok(())
    }

    /// Keeps what a line says of a declared object.
    fn keep(&mut self, object: u32, act: LateAct) -> Result<(), LineFail>
        requires kept { IsValidLateReader self.old }
        requires within { object < length self.old.declared.objects.items }
        requires may { MayAct act }
        ensures kept { OnOk result (IsValidLateReader self.new) }
        ensures read { GivesLateLine (late_reading_of self.new) result
            (act_on (late_reading_of self.old) act (Some object)) }
    {
        if self.lines.len() == MOST_LATE_LINES {
            return Err(LineFail::Bad(BadKind::Many));
        }
        if act.is_event() {
            let count = &mut self.events[object as usize];
            if *count == MOST_LATE_EVENTS {
                return Err(LineFail::Bad(BadKind::Many));
            }
            *count += 1;
        }
        self.lines.push(LateLine { object, act })?;
        Ok(())
    }
}

/// Reads a script of late events. The error is the first bad line, or want of memory.
#[tactic(auto, unfolding(crate::specs::Late::late_of))]
pub fn read_late(alloc: Global, bytes: &[u8]) -> Result<LateScript, ScriptFail>
    ensures read { GivesLate result (late_of bytes.now) }
    ensures valid { IfOk result (λ script. IsLawfulLate (late_said script)) }
{
    if bytes.len() > MOST_INPUT_BYTES {
        return Err(ScriptFail::Bad {
            line: 0,
            kind: BadKind::TooLong,
        });
    }
    let mut reader = LateReader::new(alloc);
    let mut rest = bytes;
    let mut number = 0;
    while let Some((line, after)) = next_line(rest) {
        number += 1;
        match reader.read_line(alloc, number, line) {
            Ok(()) => rest = after,
            Err(LineFail::Bad(kind)) => return Err(ScriptFail::Bad { line: number, kind }),
            Err(LineFail::Memory) => return Err(ScriptFail::Memory),
        }
    }
    let LateReader {
        declared,
        lines,
        ..
    } = reader;
    let Reader { objects, .. } = declared;
    Ok(LateScript { objects, lines })
}
