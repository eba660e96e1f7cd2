//! What a command line asks for.

use dym_base::Name;
use thiserror::Error;

/// Where a script comes from.
#[derive(Clone, Copy, Debug, PartialEq, Eq)]
pub enum Input {
    /// What is read.
    Script,
    /// The script that the generator makes of these numbers.
    Made {
        seed: u64,
        objects: u32,
        commands: u32,
    },
}

/// What a command line asks for.
#[derive(Drop)]
pub enum Order {
    /// A report of a script, one object after another.
    Plain {
        input: Input,
        summary: bool,
    },
    /// A report of a script, by workers that share the segments of a region. A turn has up to `quantum` commands.
    Run {
        workers: u32,
        segments: u32,
        quantum: u32,
        input: Input,
        summary: bool,
    },
    /// Whether a script is good.
    Check,
    /// The script that the generator makes of these numbers.
    Gen {
        seed: u64,
        objects: u32,
        commands: u32,
    },
    /// Whether a list of events is one of the log table.
    Trace,
    /// A checkpoint file of the object of this name.
    Save {
        name: Name,
    },
    /// What a checkpoint file holds, restored to this time where there is one.
    Load {
        time: Option<u64>,
    },
    /// The answer of `Run`, with a line for each object's oldest kept log.
    Views {
        workers: u32,
        segments: u32,
        quantum: u32,
    },
    /// A report of a script of late events.
    Late,
}

/// The words have the form of no order.
#[derive(Clone, Copy, Debug, PartialEq, Eq, Error)]
#[error("usage")]
pub struct Usage;
