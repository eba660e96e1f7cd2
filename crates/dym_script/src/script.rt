//! What a script says.

use dym_base::{BadKind, Command, Name, Version};
use std::alloc::AllocError;

/// A line that declares an object.
#[derive(Drop)]
pub struct Decl {
    pub name: Name,
    /// The most segments that the object may hold.
    pub quota: u32,
    /// The number of the line, from 1 on.
    pub line: u32,
}

/// A line that asks something of an object.
#[derive(Drop)]
pub struct Line {
    /// The place of the object's declaration, from 0 on.
    pub object: u32,
    pub command: Command,
}

/// A good script: its version, its declarations and its commands, each in the order of their lines.
#[derive(Drop)]
pub struct Script {
    pub version: Version,
    pub objects: Vec<Decl>,
    pub lines: Vec<Line>,
}

/// Why no script was read.
#[derive(Debug, Drop)]
pub enum ScriptFail {
    /// The first bad line, from 1 on, and what is wrong with it. The line is 0 where the whole input is too long.
    Bad { line: u32, kind: BadKind },
    /// Memory ran out.
    Memory,
}

impl From<AllocError> for ScriptFail {
    ghost use Rattle.std.specs.Prelude.{◌≡◌};
    ghost use Rattle.dym_script.specs.declared.script.ScriptFail.TheVariants.{Memory};

    ghost from_gives = { λ _ fail. fail ≡ Memory };

    fn from(_: AllocError) -> ScriptFail {
        ScriptFail::Memory
    }
}
