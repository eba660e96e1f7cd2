//! Reads a script that is in memory, its lines side by side.
ghost use Rattle.std.specs.Prelude.{◌≡◌, ◌+◌, ◌<◌, ◌≤◌, ℕ, List, [], length, flat_map, sum_by, slice_index_or, IfOk, OnOk};
ghost use Rattle.dym_base.specs.Lines.{lines_of};
ghost use Rattle.dym_base.specs.declared.limits.TheConstants.{MOST_INPUT_BYTES, MOST_LINE_BYTES};
ghost use Rattle.dym_script.specs.declared.script.Decl.{Decl};
ghost use Rattle.dym_script.specs.ReadAheads.{IsAhead, ReadsRest};
ghost use Rattle.dym_script.specs.ByObjects.{GivesParts};
ghost use Rattle.dym_script.specs.Parts.{KeepsParts};
ghost use Rattle.dym_script.specs.Pieces.{ReadsFront, ReadsText, TakesPiece};
ghost use Rattle.dym_script.specs.Readers.{GoesOn, IsValidReader};
ghost use Rattle.dym_script.specs.Scripts.{script_of};
ghost use Rattle.dym_script.specs.WholeScripts.{MayRead, StandsAt, TookBy};

use crate::line_fail::LineFail;
use crate::parts::PartCollector;
use crate::pieces::{Pieces, WholeScript, ended_bytes};
use crate::read_ahead::{ReadAhead, cut_lines, read_all_ahead};
use crate::reader::Reader;
use crate::script::ScriptFail;
use dym_base::limits::{MOST_COMMANDS, MOST_INPUT_BYTES, MOST_LINE_BYTES};
use dym_base::{BadKind, Command};
use dym_commands::Request;
use std::alloc::{AllocError, Global};
use std::thread::Threads;

/// So many bytes of lines are worth the start of a thread that reads them.
const BYTES_OF_ONE: usize = 65_536;

/// So many of them for each object, since a thread keeps the commands of each object apart.
const BYTES_OF_OBJECT: usize = 512;

/// Reads a script that is in memory, and answers the commands of each of its objects. Its lines are read side by side in at most so
/// many threads, where there are many of them. The error is that of `read_script`.
#[tactic(auto, unfolding(crate::specs::Scripts::script_of))]
pub fn read_parallel<R: Threads + Sync>(
    rt: &R,
    alloc: Global,
    threads: u32,
    bytes: &[u8],
) -> Result<WholeScript<PartCollector>, ScriptFail>
    requires { 1 ≤ threads }
    ensures { GivesParts result (script_of bytes.now) }
{
    if bytes.len() > MOST_INPUT_BYTES {
        return Err(ScriptFail::Bad {
            line: 0,
            kind: BadKind::TooLong,
        });
    }
    let mut script = Pieces::<PartCollector>::new(alloc);
    let left = script.take_parallel(rt, alloc, threads, bytes)?;
    script.finish(alloc, &bytes[bytes.len() - left..])
}

impl Pieces<PartCollector> {
    /// Reads the next piece as `take` does, its lines side by side in at most so many threads.
    fn take_parallel<R: Threads + Sync>(
        &mut self,
        rt: &R,
        alloc: Global,
        threads: u32,
        text: &[u8],
    ) -> Result<usize, ScriptFail>
        requires threads { 1 ≤ threads }
        requires taken { (taken : List ℕ) × TookBy KeepsParts self.old taken
            × (length taken + length text.now ≤ MOST_INPUT_BYTES) }
        ensures within { IfOk result (λ left. left ≤ length text.now) }
        ensures took { TakesPiece (TookBy KeepsParts self.old)
            (TookBy KeepsParts self.new) text.now result }
    {
        let (lines, last) = text.split_at(ended_bytes(text));
        self.read_lines(rt, alloc, threads, lines)?;
        if last.len() > MOST_LINE_BYTES {
            return Err(ScriptFail::Bad {
                line: self.number + 1,
                kind: BadKind::LongLine,
            });
        }
        Ok(last.len())
    }

    /// Reads all lines of a text: those at its front that ask nothing one after another, the others side by side.
    fn read_lines<R: Threads + Sync>(
        &mut self,
        rt: &R,
        alloc: Global,
        threads: u32,
        text: &[u8],
    ) -> Result<(), ScriptFail>
        requires threads { 1 ≤ threads }
        requires ready { MayRead KeepsParts self.old }
        requires room { self.old.number + length text.now ≤ MOST_INPUT_BYTES }
        ensures ready { OnOk result (MayRead KeepsParts self.new) }
        ensures number { OnOk result (self.new.number ≤ self.old.number + length text.now) }
        ensures read { ReadsText
            (StandsAt KeepsParts self.old) (StandsAt KeepsParts self.new)
            self.old.number self.new.number text.now result }
    {
        let rest = self.read_front(alloc, text)?;
        let count = parts_worth(&self.reader, threads, rest);
        let parts = cut_lines(alloc, rest, count)?;
        let all = read_all_ahead(rt, alloc, &self.reader, &parts)?;
        self.take_all(alloc, &parts, all)
    }

    /// Reads the lines of a text up to the first that asks something in the usual spelling. The text from there on is left.
    fn read_front<'a>(&mut self, alloc: Global, text: &'a [u8]) -> Result<&'a [u8], ScriptFail>
        requires ready { MayRead KeepsParts self.old }
        requires room { self.old.number + length text.now ≤ MOST_INPUT_BYTES }
        ensures ready { OnOk result (MayRead KeepsParts self.new) }
        ensures number { IfOk result (λ rest. self.new.number + length rest.now
            ≤ self.old.number + length text.now) }
        ensures read { ReadsRest
            (StandsAt KeepsParts self.old) (StandsAt KeepsParts self.new)
            self.old.number self.new.number text.now result }
    {
        let mut rest = text;
        let mut number = self.number;
        while !rest.is_empty() && !is_quick(&self.reader, rest) {
            number += 1;
            match self.read_exactly(alloc, number, rest) {
                Ok(after) => rest = after,
                Err(LineFail::Bad(kind)) => return Err(ScriptFail::Bad { line: number, kind }),
                Err(LineFail::Memory) => return Err(ScriptFail::Memory),
            }
        }
        self.number = number;
        Ok(rest)
    }

    /// Takes in what was read ahead of these parts of a text, in their order, and reads what is left of each.
    fn take_all(
        &mut self,
        alloc: Global,
        parts: &Vec<&[u8]>,
        all: Vec<Result<ReadAhead<'_>, AllocError>>,
    ) -> Result<(), ScriptFail>
        requires ready { MayRead KeepsParts self.old }
        requires room { self.old.number + sum_by (λ part. length part.now) parts.now.items
            ≤ MOST_INPUT_BYTES }
        requires len { length all.items ≡ length parts.now.items }
        requires each { (k : ℕ) (d : _) (e : _) → k < length parts.now.items
            → IfOk (slice_index_or all.items k e)
            (IsAhead self.old.reader.objects.items (slice_index_or parts.now.items k d).now) }
        ensures ready { OnOk result (MayRead KeepsParts self.new) }
        ensures number { OnOk result (self.new.number
            ≤ self.old.number + sum_by (λ part. length part.now) parts.now.items) }
        ensures read { ReadsFront
            (StandsAt KeepsParts self.old) (StandsAt KeepsParts self.new)
            self.old.number self.new.number
            (flat_map (λ part. lines_of part.now) parts.now.items) [] result }
    {
        let mut place = 0;
        for ahead in all {
            self.take_ahead(alloc, parts[place], ahead?)?;
            place += 1;
        }
        Ok(())
    }

    /// Takes in what was read ahead of a text, and reads what is left of it. Where that are more commands than a script may have,
    /// the text is read line by line, so that the first of them is told.
    fn take_ahead(
        &mut self,
        alloc: Global,
        text: &[u8],
        ahead: ReadAhead<'_>,
    ) -> Result<(), ScriptFail>
        requires ready { MayRead KeepsParts self.old }
        requires room { self.old.number + length text.now ≤ MOST_INPUT_BYTES }
        requires ahead { (objects : List Decl) × GoesOn objects self.old.reader.objects.items
            × IsAhead objects text.now ahead }
        ensures ready { OnOk result (MayRead KeepsParts self.new) }
        ensures number { OnOk result (self.new.number ≤ self.old.number + length text.now) }
        ensures grows { OnOk result
            (GoesOn self.old.reader.objects.items self.new.reader.objects.items) }
        ensures read { ReadsText
            (StandsAt KeepsParts self.old) (StandsAt KeepsParts self.new)
            self.old.number self.new.number text.now result }
    {
        let ReadAhead { own, lines, rest } = ahead;
        if lines as usize > MOST_COMMANDS - self.commands as usize {
            return self.read_all(alloc, text);
        }
        self.keeper.append(own)?;
        self.reader.begun |= lines > 0;
        self.commands += lines;
        self.number += lines;
        self.read_all(alloc, rest)
    }
}

/// Whether the first line of a text asks something in the usual spelling.
fn is_quick(reader: &Reader, text: &[u8]) -> bool
    requires { IsValidReader reader.now }
{
    let mut asked = Request::Plain(Command::Logs);
    reader.next_quickly(text, &mut asked).is_some()
}

/// Into how many parts a text is cut, at most so many as there may be threads.
fn parts_worth(reader: &Reader, threads: u32, text: &[u8]) -> usize
    requires kept { IsValidReader reader.now }
    requires threads { 1 ≤ threads }
    ensures some { 0 < result }
    ensures few { result ≤ threads }
{
    let worth = BYTES_OF_ONE.max(reader.objects.len() * BYTES_OF_OBJECT);
    (threads as usize).min(1 + text.len() / worth)
}
