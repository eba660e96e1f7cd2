//! What a work is made of.
use dym_base::{Name, Version};
use dym_chain::SlotKeep;
use dym_commands::{Commands, Replies};
use dym_object::Turn;
use dym_quota::Berth;
use dym_report::Tally;
use std::alloc::Global;
use std::sync::Wait;

/// What a work is to do: its place in the wave, the name of its object, the version of its heap, its own commands, and how many of them a
/// turn runs at most; where it takes memory from, and whether the text of its part is made as it ends.
#[derive(Drop)]
pub struct WorkSpec {
    pub alloc: Global,
    pub number: u32,
    pub name: Name,
    pub version: Version,
    pub commands: Commands,
    pub quantum: u32,
    pub makes_text: bool,
}

/// How far a work is.
pub(crate) enum WorkState<R: Wait> {
    /// Its object isn't open yet.
    Waiting {
        berth: Berth<R>,
        keep: SlotKeep,
    },
    /// Its object, and the replies so far.
    Running {
        turn: Turn<Berth<R>, SlotKeep>,
        replies: Replies,
    },
    /// It ran all its commands: the text of its part, where one is made, and what its object came to. The berth holds nothing.
    Ended {
        text: Vec<u8>,
        tally: Tally,
        berth: Berth<R>,
        keep: SlotKeep,
    },
}

/// The object of a work, with its last reply.
pub(crate) type Own<R> = Turn<Berth<R>, SlotKeep>;
