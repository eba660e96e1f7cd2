//! What a script of late events says.

use crate::script::Decl;
use dym_base::Command;

/// What a line of late events says of its object.
#[derive(Drop)]
pub enum LateAct {
    /// An event: a command at a time.
    At { time: u64, command: Command },
    /// No event before this time is accepted any more.
    Commit { time: u64 },
}

/// A line that says something of an object.
#[derive(Drop)]
pub struct LateLine {
    /// The place of the object's declaration, from 0 on.
    pub object: u32,
    pub act: LateAct,
}

/// A good script of late events: its declarations and its other lines, each in the order of the input.
#[derive(Drop)]
pub struct LateScript {
    pub objects: Vec<Decl>,
    pub lines: Vec<LateLine>,
}
