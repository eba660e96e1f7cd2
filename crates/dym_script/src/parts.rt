//! A script by its objects, each with its own commands.
ghost use Rattle.std.specs.Prelude.{◌≡◌, ◌+◌, ◌<◌, ◌≤◌, ℕ, length, slice_index_or, OnOk};
ghost use Rattle.dym_base.specs.declared.limits.TheConstants.{MOST_COMMANDS};
ghost use Rattle.dym_script.specs.ReadAheads.{HasOwn};
ghost use Rattle.dym_script.specs.Parts.{KeepsParts};

use crate::keeper::Keeper;
use crate::script::Decl;
use dym_base::Name;
use dym_commands::{Commands, HexBytes, Request};
use std::alloc::{AllocError, Global};

/// A declared object and the commands of its own lines.
#[derive(Drop)]
pub struct Part {
    pub decl: Decl,
    pub commands: Commands,
}

/// Keeps the commands of each object in little memory, so that the input isn't needed any more.
#[derive(Drop)]
pub struct PartCollector {
    /// The declared objects with their own commands, in the order of the declarations.
    pub parts: Vec<Part>,
}

impl PartCollector {
    /// Appends commands to those of the first objects, one list for each. Only memory can be wanting.
    pub(crate) fn append(&mut self, own: Vec<Commands>) -> Result<(), AllocError>
        requires within { length own.items ≤ length self.old.parts.items }
        requires room { (k : ℕ) (d : _) (e : _) → k < length own.items
            → length (slice_index_or self.old.parts.items k d).commands
            + length (slice_index_or own.items k e) ≤ MOST_COMMANDS }
        ensures { OnOk result (HasOwn own.items self.old.parts.items self.new.parts.items) }
    {
        let mut place = 0;
        for commands in own {
            match self.parts[place].commands.append(commands) {
                Ok(()) => place += 1,
                Err((why, _commands)) => return Err(why),
            }
        }
        Ok(())
    }
}

impl Keeper for PartCollector {
    ghost keeps = { KeepsParts };

    fn new(alloc: Global) -> PartCollector {
        PartCollector {
            parts: Vec::new(alloc),
        }
    }

    fn declare(&mut self, alloc: Global, decl: &Decl) -> Result<(), AllocError> {
        let Some(name) = Name::new(decl.name.bytes()) else {
            unreachable!();
        };
        let decl = Decl {
            name,
            quota: decl.quota,
            line: decl.line,
        };
        let commands = Commands::new(alloc);
        self.parts.push(Part { decl, commands })?;
        Ok(())
    }

    #[inline(always)]
    fn ask(
        &mut self,
        _alloc: Global,
        object: u32,
        asked: &Request<HexBytes<'_>>,
    ) -> Result<(), AllocError> {
        let part = &mut self.parts[object as usize];
        part.commands.push(asked)?;
        Ok(())
    }
}
