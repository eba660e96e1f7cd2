//! Reads the script that a source gives, block by block, so that no input is kept whole.
ghost use Rattle.std.specs.Prelude.{◌≡◌, ◌+◌, ◌-◌, ◌<◌, ◌≤◌, ℕ, List, [], take, drop, length, IfOk, OnOk, OnErr, IsErrOf};
ghost use Rattle.std.specs.Io.KnownBytes.{Consumes, Keeps};
ghost use Rattle.dym_io.specs.Faults.{RoseOnce};
ghost use Rattle.dym_io.specs.Source.{IsEmptyAtEnd, TookAtMost};
ghost use Rattle.dym_script.specs.Answers.{FailsSo};
ghost use Rattle.dym_script.specs.WholeScripts.{GivesWhole};
ghost use Rattle.dym_script.specs.declared.script.ScriptFail.TheVariants.{Bad};
ghost use Rattle.dym_base.specs.declared.bad_kind.BadKind.TheVariants.{TooLong};
ghost use Rattle.dymelor_top.specs.Calls.{ReadsSource, TellsScript};
ghost use Rattle.dymelor_top.specs.Blocks.{IsFaultOf, TakesBytes, IsDrained};

use crate::stop::Stop;
use dym_base::BadKind;
use dym_base::limits::{MOST_INPUT_BYTES, MOST_LINE_BYTES};
use dym_io::{Failed, ReadFail, Source};
use dym_script::{Keeper, Pieces, ScriptFail, WholeScript};
use std::alloc::{AllocError, Global};

/// The bytes of a block, which is little enough to stay in a cache.
const BLOCK: usize = 262_144;

/// The bytes that are reserved for a block. What is reserved is given back before the objects run, and the system's allocator takes
/// its size for a measure: it keeps smaller pieces that an object gives back, in place of asking for fresh pages each time.
const BLOCK_ROOM: usize = 4_194_304;

/// Reads the script that a source gives, and answers what a reader of lines makes of it, which is that of the source's bytes.
/// The source is read to its end, or for as many bytes as tell that the input is too long. Whatever it answers, no more bytes
/// are taken than tell of a too long input.
pub fn read_source<K: Keeper + Drop, R: Source>(
    alloc: Global,
    source: &mut R,
) -> Result<WholeScript<K>, Stop>
    requires { R.goes_on source.old }
    ensures { ReadsSource (TellsScript K.keeps)
        (record { left = R.left source.old; faults = R.faults source.old })
        (record { left = R.left source.new; faults = R.faults source.new }) result }
{
    let mut block = Vec::with_capacity(alloc, BLOCK_ROOM)?;
    block.resize(BLOCK, 0)?;
    Ok(read_blocks::<K, R>(alloc, source, &mut block)??)
}

/// Reads the script that a source gives. What is pulled stands in the block behind the bytes of a line that wasn't ended.
fn read_blocks<K: Keeper + Drop, R: Source>(
    alloc: Global,
    source: &mut R,
    block: &mut [u8],
) -> Result<Result<WholeScript<K>, ScriptFail>, ReadFail>
    requires long { MOST_LINE_BYTES < length block.old }
    requires goes_on { R.goes_on source.old }
    ensures outcome { IfOk result (λ made.
        TakesBytes [] (R.left source.old) (R.left source.new) (GivesWhole K.keeps made)) }
    ensures bounded { TookAtMost (MOST_INPUT_BYTES + 1) (R.left source.old) (R.left source.new) }
    ensures failed { IsErrOf result ReadFail.Source
        → RoseOnce (R.faults source.old) (R.faults source.new) }
    ensures count { ¬ IsErrOf result ReadFail.Source → R.faults source.new ≡ R.faults source.old }
{
    let mut script = Pieces::<K>::new(alloc);
    let mut left = 0;
    let mut pulled = 0;
    'pieces: loop {
        let room = (block.len() - left).min(MOST_INPUT_BYTES + 1 - pulled);
        let amount = pull_behind(source, block, left, room)?;
        if amount == 0 {
            return Ok(script.finish(alloc, &block[..left]));
        }
        pulled += amount;
        if pulled > MOST_INPUT_BYTES {
            return Ok(Err(too_long()));
        }
        let end = left + amount;
        match script.take(alloc, &block[..end]) {
            Ok(rest) => {
                keep_end(block, end, rest);
                left = rest;
            }
            Err(ScriptFail::Bad { line, kind }) => {
                return Ok(Err(fault(source, block, pulled, line, kind)?));
            }
            Err(ScriptFail::Memory) => return Err(ReadFail::Memory),
        }
    }
}

/// Pulls the next bytes into a block behind those that are left there.
fn pull_behind<R: Source>(
    source: &mut R,
    block: &mut [u8],
    left: usize,
    room: usize,
) -> Result<usize, Failed>
    requires some { 0 < room }
    requires fits { left + room ≤ length block.old }
    requires goes_on { R.goes_on source.old }
    ensures amount { IfOk result (λ n. n ≤ room) }
    ensures kept { OnOk result (take left block.new ≡ take left block.old) }
    ensures taken { IfOk result (λ n. Consumes (R.left source.old) (R.left source.new)
        (take n (drop left block.new))) }
    ensures end { IfOk result (IsEmptyAtEnd (R.left source.old)) }
    ensures more { IfOk result (λ n. 0 < n → R.goes_on source.new) }
    ensures count { OnOk result (R.faults source.new ≡ R.faults source.old) }
    ensures stays { OnErr result (Keeps (R.left source.old) (R.left source.new)) }
    ensures failed { OnErr result (RoseOnce (R.faults source.old) (R.faults source.new)) }
{
    source.pull(&mut block[left..left + room])
}

/// Moves the last bytes of those that stand in a block's front to its start.
fn keep_end(block: &mut [u8], end: usize, rest: usize)
    requires rest { rest ≤ end }
    requires end { end ≤ length block.old }
    ensures { take rest block.new ≡ drop (end - rest) (take end block.old) }
{
    block.copy_within(end - rest..end, 0);
}

/// What is wrong with an input whose first bad line is known. All of it is read first, since one that is too long has no
/// other fault.
fn fault<R: Source>(
    source: &mut R,
    block: &mut [u8],
    pulled: usize,
    line: u32,
    kind: BadKind,
) -> Result<ScriptFail, Failed>
    requires some { 0 < length block.old }
    requires within { pulled ≤ MOST_INPUT_BYTES }
    requires goes_on { R.goes_on source.old }
    ensures outcome { (front : List ℕ) → length front ≡ pulled → IsFaultOf front line kind
        → IfOk result
        (λ fail. TakesBytes front (R.left source.old) (R.left source.new) (FailsSo fail)) }
    ensures bounded { TookAtMost (MOST_INPUT_BYTES + 1 - pulled) (R.left source.old)
        (R.left source.new) }
    ensures count { OnOk result (R.faults source.new ≡ R.faults source.old) }
    ensures failed { OnErr result (RoseOnce (R.faults source.old) (R.faults source.new)) }
{
    let all = drain(source, block, pulled)?;
    if all > MOST_INPUT_BYTES {
        return Ok(too_long());
    }
    Ok(ScriptFail::Bad { line, kind })
}

/// Reads a source to its end, or until as many bytes were pulled as tell that the input is too long. Answers how many were
/// pulled in all.
fn drain<R: Source>(source: &mut R, block: &mut [u8], pulled: usize) -> Result<usize, Failed>
    requires some { 0 < length block.old }
    requires within { pulled ≤ MOST_INPUT_BYTES }
    requires goes_on { R.goes_on source.old }
    ensures drained { IfOk result (IsDrained pulled (R.left source.old) (R.left source.new)) }
    ensures bounded { TookAtMost (MOST_INPUT_BYTES + 1 - pulled) (R.left source.old)
        (R.left source.new) }
    ensures count { OnOk result (R.faults source.new ≡ R.faults source.old) }
    ensures failed { OnErr result (RoseOnce (R.faults source.old) (R.faults source.new)) }
{
    let mut all = pulled;
    'pieces: while all <= MOST_INPUT_BYTES {
        let room = block.len().min(MOST_INPUT_BYTES + 1 - all);
        let amount = source.pull(&mut block[..room])?;
        if amount == 0 {
            break 'pieces;
        }
        all += amount;
    }
    Ok(all)
}

/// What is wrong with an input that is too long.
fn too_long() -> ScriptFail
    ensures { result ≡ Bad 0 TooLong }
{
    ScriptFail::Bad {
        line: 0,
        kind: BadKind::TooLong,
    }
}
