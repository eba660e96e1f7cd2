//! Lines that are read ahead of those before them, side by side.
ghost use Rattle.std.specs.Prelude.{◌≡◌, ◌<◌, ◌≤◌, ◌⊎◌, ℕ, [], All, length, take, flat_map, sum_by, slice_index_or, IfOk};
ghost use Rattle.dym_base.specs.Lines.{lines_of};
ghost use Rattle.dym_script.specs.ReadAheads.{IsAhead};
ghost use Rattle.dym_script.specs.Pieces.{IsEnded};
ghost use Rattle.dym_script.specs.Readers.{IsValidReader};

use crate::reader::Reader;
use dym_base::Command;
use dym_base::limits::MOST_COMMANDS;
use dym_commands::{Commands, Request};
use memchr::memchr;
use std::alloc::{AllocError, Global};
use std::thread;
use std::thread::Threads;

/// What the first lines of a text ask of declared objects, as far as they are in the usual spelling.
#[derive(Drop)]
pub struct ReadAhead<'a> {
    /// The commands to each object that was declared before the text, in the order of the declarations.
    pub own: Vec<Commands>,
    /// How many lines these are.
    pub lines: u32,
    /// The text after these lines.
    pub rest: &'a [u8],
}

/// Reads the first lines of a text, before those that stand before it are read.
fn read_ahead<'a>(
    reader: &Reader,
    alloc: Global,
    text: &'a [u8],
) -> Result<ReadAhead<'a>, AllocError>
    requires { IsValidReader reader.now }
    ensures { IfOk result (IsAhead reader.now.objects.items text.now) }
{
    let mut own = no_commands(alloc, reader.objects.len())?;
    let mut lines = 0;
    let mut rest = text;
    let mut asked = Request::Plain(Command::Logs);
    while (lines as usize) < MOST_COMMANDS {
        let Some((object, after)) = reader.next_quickly(rest, &mut asked) else {
            break;
        };
        own[object as usize].push(&asked)?;
        lines += 1;
        rest = after;
    }
    Ok(ReadAhead { own, lines, rest })
}

/// No commands to any of so many objects.
fn no_commands(alloc: Global, objects: usize) -> Result<Vec<Commands>, AllocError>
    ensures len { IfOk result (λ own. length own.items ≡ objects) }
    ensures none { IfOk result (λ own. All (λ commands. commands ≡ []) own.items) }
{
    let mut own = Vec::with_capacity(alloc, objects)?;
    for _ in 0..objects {
        own.push_reserved(Commands::new(alloc));
    }
    Ok(own)
}

/// Reads the first lines of each of these texts, side by side where there are many.
pub(crate) fn read_all_ahead<'a, R: Threads + Sync>(
    rt: &R,
    alloc: Global,
    reader: &Reader,
    texts: &Vec<&'a [u8]>,
) -> Result<Vec<Result<ReadAhead<'a>, AllocError>>, AllocError>
    requires { IsValidReader reader.now }
    ensures len { IfOk result (λ all. length all.items ≡ length texts.now.items) }
    ensures each { IfOk result (λ all. (k : ℕ) (d : _) (e : _) → k < length texts.now.items
        → IfOk (slice_index_or all.items k e)
        (IsAhead reader.now.objects.items (slice_index_or texts.now.items k d).now)) }
{
    thread::map_indices(
        rt,
        alloc,
        texts.len(),
        &|i|
            requires { (i < length texts.now.items) × IsValidReader reader.now }
        { read_ahead(reader, alloc, texts[i]) },
    )
}

/// Cuts a text into at most so many parts of whole lines, each of about the same length.
#[tactic(auto, using(crate::proofs::Cuts::one_part_more, crate::proofs::Cuts::few_parts))]
pub(crate) fn cut_lines<'a>(
    alloc: Global,
    text: &'a [u8],
    count: usize,
) -> Result<Vec<&'a [u8]>, AllocError>
    requires { 0 < count }
    ensures lines { IfOk result (λ parts.
        flat_map (λ part. lines_of part.now) parts.items ≡ lines_of text.now) }
    ensures short { IfOk result (λ parts. sum_by (λ part. length part.now) parts.items
        ≡ length text.now) }
    ensures few { IfOk result (λ parts. length parts.items ≤ count) }
{
    let size = text.len() / count + 1;
    let mut parts = Vec::with_capacity(alloc, count)?;
    let mut rest = text;
    while rest.len() > size {
        let (part, after) = rest.split_at(line_end(rest, size));
        parts.push(part)?;
        rest = after;
    }
    parts.push(rest)?;
    Ok(parts)
}

/// Where the line ends in which so many bytes of a text end.
fn line_end(text: &[u8], from: usize) -> usize
    requires { from < length text.now }
    ensures behind { from < result }
    ensures within { result ≤ length text.now }
    ensures ended { (result ≡ length text.now) ⊎ IsEnded (take result text.now) }
{
    match memchr(b'\n', &text[from..]) {
        Some(end) => from + end + 1,
        None => text.len(),
    }
}
