//! Reads a script that comes piece by piece.
ghost use Rattle.std.specs.Prelude.{◌≡◌, ◌+◌, ◌≤◌, ◌<◌, ℕ, List, [], ◌++◌, Some, take, drop, length, IfOk, OnOk};
ghost use Rattle.dym_base.specs.declared.limits.TheConstants.{MOST_INPUT_BYTES};
ghost use Rattle.dym_commands.specs.Requests.{asks};
ghost use Rattle.dym_script.specs.declared.script.Decl.{Decl};
ghost use Rattle.dym_script.specs.declared.script.Line.{Line};
ghost use Rattle.dym_script.specs.WholeScripts.{GivesWhole, MayRead, StandsAt, TookBy};
ghost use Rattle.dym_script.specs.Keepers.{Holds, HoldsLine};
ghost use Rattle.dym_script.specs.Pieces.{says, IsEnded, IsOpen, TakesPiece, ReadsText, ReadsNext};
ghost use Rattle.dym_script.specs.Readers.{IsValidReader, reading_of, reading, Grows, GoesOn};
ghost use Rattle.dym_script.specs.Scripts.{ask_at};

use crate::keeper::Keeper;
use crate::line_fail::LineFail;
use crate::reader::{Ask, Next, Reader};
use crate::script::{Decl, ScriptFail};
use dym_base::limits::{MOST_COMMANDS, MOST_LINE_BYTES};
use dym_base::{BadKind, Command, Version};
use dym_commands::{HexBytes, Request};
use memchr::memrchr;
use std::alloc::{AllocError, Global};

/// What was read of a whole script.
#[derive(Drop)]
pub struct WholeScript<K> {
    pub version: Version,
    /// The declarations, in the order of their lines.
    pub objects: Vec<Decl>,
    /// How many lines ask something of an object.
    pub commands: u32,
    /// What was kept of the declarations and of these lines.
    pub kept: K,
}

/// A script that is read piece by piece, so that it needs not be kept whole.
#[derive(Drop)]
pub struct Pieces<K: Keeper> {
    pub(crate) reader: Reader,
    pub(crate) keeper: K,
    /// How many lines asked something.
    pub(crate) commands: u32,
    /// How many lines were read.
    pub(crate) number: u32,
}

impl<K: Keeper + Drop> Pieces<K> {
    /// Nothing is read yet.
    pub fn new(alloc: Global) -> Pieces<K>
        ensures { TookBy K.keeps result [] }
    {
        Pieces {
            reader: Reader::new(alloc),
            keeper: K::new(alloc),
            commands: 0,
            number: 0,
        }
    }

    /// Reads the lines of the next piece that are ended there, and answers how many bytes of a line that isn't ended stand
    /// at the piece's end. They are not read: the next piece begins with them. The error is the first bad line, which a
    /// line that is too long already is, or want of memory.
    pub fn take(&mut self, alloc: Global, text: &[u8]) -> Result<usize, ScriptFail>
        requires { (taken : List ℕ) × TookBy K.keeps self.old taken
            × (length taken + length text.now ≤ MOST_INPUT_BYTES) }
        ensures short { IfOk result (λ left. left ≤ MOST_LINE_BYTES) }
        ensures within { IfOk result (λ left. left ≤ length text.now) }
        ensures took { TakesPiece (TookBy K.keeps self.old)
            (TookBy K.keeps self.new) text.now result }
    {
        let (lines, last) = text.split_at(ended_bytes(text));
        self.read_all(alloc, lines)?;
        if last.len() > MOST_LINE_BYTES {
            return Err(ScriptFail::Bad {
                line: self.number + 1,
                kind: BadKind::LongLine,
            });
        }
        Ok(last.len())
    }

    /// Reads the last piece, whose last line may lack its end, and answers what was read of the whole script.
    pub fn finish(mut self, alloc: Global, last: &[u8]) -> Result<WholeScript<K>, ScriptFail>
        requires { (taken : List ℕ) × TookBy K.keeps self taken
            × (length taken + length last.now ≤ MOST_INPUT_BYTES) }
        ensures { (taken : List ℕ) → TookBy K.keeps self taken
            → GivesWhole K.keeps result (says (taken ++ last.now)) }
    {
        self.read_all(alloc, last)?;
        let Pieces {
            reader,
            keeper,
            commands,
            ..
        } = self;
        let Reader {
            version,
            objects,
            ..
        } = reader;
        Ok(WholeScript {
            version,
            objects,
            commands,
            kept: keeper,
        })
    }

    /// Reads all lines of a text, whose last line may lack its end.
    pub(crate) fn read_all(&mut self, alloc: Global, text: &[u8]) -> Result<(), ScriptFail>
        requires ready { MayRead K.keeps self.old }
        requires room { self.old.number + length text.now ≤ MOST_INPUT_BYTES }
        ensures ready { OnOk result (MayRead K.keeps self.new) }
        ensures number { OnOk result (self.new.number ≤ self.old.number + length text.now) }
        ensures grows { OnOk result
            (GoesOn self.old.reader.objects.items self.new.reader.objects.items) }
        ensures read { ReadsText
            (StandsAt K.keeps self.old) (StandsAt K.keeps self.new)
            self.old.number self.new.number text.now result }
    {
        let mut rest = text;
        let mut number = self.number;
        while !rest.is_empty() {
            number += 1;
            match self.read_next(alloc, number, rest) {
                Ok(after) => rest = after,
                Err(LineFail::Bad(kind)) => return Err(ScriptFail::Bad { line: number, kind }),
                Err(LineFail::Memory) => return Err(ScriptFail::Memory),
            }
        }
        self.number = number;
        Ok(())
    }

    /// Reads the first line of a text, which has this number, and hands on what it says. The text after the line is left.
    #[inline(always)]
    fn read_next<'a>(
        &mut self,
        alloc: Global,
        number: u32,
        text: &'a [u8],
    ) -> Result<&'a [u8], LineFail>
        requires ready { MayRead K.keeps self.old }
        requires some { 0 < length text.now }
        ensures ready { OnOk result (MayRead K.keeps self.new) }
        ensures shorter { IfOk result (λ rest. length rest.now < length text.now) }
        ensures grows { OnOk result
            (GoesOn self.old.reader.objects.items self.new.reader.objects.items) }
        ensures read { ReadsNext
            (StandsAt K.keeps self.old) (StandsAt K.keeps self.new)
            number text.now result }
    {
        let mut asked = Request::Plain(Command::Logs);
        if let Some((object, rest)) = self.reader.next_quickly(text, &mut asked) {
            self.reader.begun = true;
            return self.ask(alloc, object, &asked, rest);
        }
        self.read_exactly(alloc, number, text)
    }

    /// Reads the first line of a text, in any spelling, and hands on what it says. The text after the line is left.
    #[inline(never)]
    pub(crate) fn read_exactly<'a>(
        &mut self,
        alloc: Global,
        number: u32,
        text: &'a [u8],
    ) -> Result<&'a [u8], LineFail>
        requires ready { MayRead K.keeps self.old }
        requires some { 0 < length text.now }
        ensures ready { OnOk result (MayRead K.keeps self.new) }
        ensures shorter { IfOk result (λ rest. length rest.now < length text.now) }
        ensures grows { OnOk result
            (GoesOn self.old.reader.objects.items self.new.reader.objects.items) }
        ensures read { ReadsNext
            (StandsAt K.keeps self.old) (StandsAt K.keeps self.new)
            number text.now result }
    {
        let before = self.reader.objects.len();
        let Next { ask, rest } = self.reader.read_exactly(alloc, number, text)?;
        declare_object(alloc, &self.reader, &mut self.keeper, before)?;
        match ask {
            Some(Ask { object, asked }) => self.ask(alloc, object, &asked, rest),
            None => Ok(rest),
        }
    }

    /// Hands on what a line asks of a declared object. The text after the line is left.
    #[inline(always)]
    fn ask<'a>(
        &mut self,
        alloc: Global,
        object: u32,
        asked: &Request<HexBytes<'_>>,
        rest: &'a [u8],
    ) -> Result<&'a [u8], LineFail>
        requires ready { MayRead K.keeps self.old }
        requires within { object < length self.old.reader.objects.items }
        ensures ready { OnOk result (MayRead K.keeps self.new) }
        ensures rest { IfOk result (λ left. left.now ≡ rest.now) }
        ensures reader { self.new.reader ≡ self.old.reader }
        ensures holds { HoldsLine
            (Holds (K.keeps self.old.keeper) self.old.reader self.old.commands)
            (Holds (K.keeps self.new.keeper) self.new.reader self.new.commands)
            (reading_of self.new.reader) result
            (λ lines. reading self.old.reader.begun
            (ask_at (reading_of self.old.reader lines).said (asks asked.now) (Some object))) }
    {
        if self.commands as usize == MOST_COMMANDS {
            return Err(LineFail::Bad(BadKind::Many));
        }
        self.keeper.ask(alloc, object, asked)?;
        self.commands += 1;
        Ok(rest)
    }
}

/// Hands a keeper the declaration that came after so many, where there is one.
fn declare_object<K: Keeper>(
    alloc: Global,
    reader: &Reader,
    keeper: &mut K,
    before: usize,
) -> Result<(), AllocError>
    requires { IsValidReader reader.now }
    ensures { OnOk result ((objects : List Decl) (lines : List Line) → length objects ≡ before
        → Grows objects reader.now.objects.items
        → K.keeps keeper.old objects lines → K.keeps keeper.new reader.now.objects.items lines) }
{
    if reader.objects.len() > before {
        keeper.declare(alloc, &reader.objects[before])?;
    }
    Ok(())
}

/// How many bytes of a text stand before its last line, where that isn't ended.
pub(crate) fn ended_bytes(text: &[u8]) -> usize
    ensures within { result ≤ length text.now }
    ensures ended { IsEnded (take result text.now) }
    ensures last { IsOpen (drop result text.now) }
{
    match memrchr(b'\n', text) {
        Some(end) => end + 1,
        None => 0,
    }
}
