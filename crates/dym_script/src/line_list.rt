//! Reads a whole script.
ghost use Rattle.std.specs.Prelude.{◌≡◌, IfOk};
ghost use Rattle.dym_script.specs.Scripts.{script_of, said};
ghost use Rattle.dym_script.specs.Answers.{Gives, IsLawful};
ghost use Rattle.dym_script.specs.WholeScripts.{GivesWhole};

use crate::keeper::Keeper;
use crate::pieces::{Pieces, WholeScript};
use crate::script::{Decl, Line, Script, ScriptFail};
use dym_base::BadKind;
use dym_base::limits::MOST_INPUT_BYTES;
use dym_commands::{HexBytes, Request};
use std::alloc::{AllocError, Global};

/// Keeps each line that asks something.
#[derive(Drop)]
struct Lines {
    lines: Vec<Line>,
}

impl Keeper for Lines {
    ghost keeps = { λ kept _ lines. kept.lines.items ≡ lines };

    fn new(alloc: Global) -> Lines {
        Lines {
            lines: Vec::new(alloc),
        }
    }

    fn declare(&mut self, _alloc: Global, _decl: &Decl) -> Result<(), AllocError> {
        Ok(())
    }

    fn ask(
        &mut self,
        alloc: Global,
        object: u32,
        asked: &Request<HexBytes<'_>>,
    ) -> Result<(), AllocError> {
        let command = asked.command(alloc)?;
        self.lines.push(Line { object, command })?;
        Ok(())
    }
}

/// Reads a script. The error is the first bad line, or want of memory.
pub fn read_script(alloc: Global, bytes: &[u8]) -> Result<Script, ScriptFail>
    ensures read { Gives result (script_of bytes.now) }
    ensures valid { IfOk result (λ script. IsLawful (said script)) }
{
    let whole = read_lines_of::<Lines>(alloc, bytes)?;
    Ok(Script {
        version: whole.version,
        objects: whole.objects,
        lines: whole.kept.lines,
    })
}

/// Reads a script that is in memory, and answers what is kept of it. The error is that of `read_script`.
#[tactic(auto, unfolding(crate::specs::Scripts::script_of))]
pub fn read_lines_of<K: Keeper + Drop>(
    alloc: Global,
    bytes: &[u8],
) -> Result<WholeScript<K>, ScriptFail>
    ensures { GivesWhole K.keeps result (script_of bytes.now) }
{
    if bytes.len() > MOST_INPUT_BYTES {
        return Err(ScriptFail::Bad {
            line: 0,
            kind: BadKind::TooLong,
        });
    }
    Pieces::<K>::new(alloc).finish(alloc, bytes)
}
