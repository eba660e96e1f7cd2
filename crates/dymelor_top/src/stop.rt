//! What stops a top call before it has written the text that was asked for.
ghost use Rattle.std.specs.Prelude.{◌≡◌};

use dym_base::BadKind;
use dym_ckpt::FileFail;
use dym_io::{ReadFail, SinkFault};
use dym_report::WriteFail;
use dym_script::ScriptFail;
use dym_words::Usage;
use std::alloc::AllocError;

/// What stops a top call before it has written the text that was asked for.
#[derive(Clone, Copy, Debug, PartialEq, Eq)]
pub enum Stop {
    /// The words are no order that is served.
    Usage,
    /// The input has a fault in this line, or in this part of a file. It is 0 where the fault is one of the whole input.
    Bad { line: u32, kind: BadKind },
    /// The source failed.
    Source,
    /// The sink failed.
    Sink,
    /// Memory ran out.
    Memory,
}

impl Stop {
    ghost use Rattle.dymelor_top.specs.Stops.{stop_status};

    /// The status that tells of it.
    pub fn status(self) -> u8
        ensures { result ≡ stop_status self }
    {
        match self {
            Stop::Usage => 1,
            Stop::Bad { .. } => 2,
            Stop::Source => 3,
            Stop::Sink => 4,
            Stop::Memory => 5,
        }
    }
}

impl From<Usage> for Stop {
    ghost use Rattle.dymelor_top.specs.declared.stop.Stop.TheVariants as stop;

    ghost from_gives = { λ _ stopped. stopped ≡ stop.Usage };

    fn from(_: Usage) -> Stop {
        Stop::Usage
    }
}

impl From<AllocError> for Stop {
    ghost use Rattle.dymelor_top.specs.declared.stop.Stop.TheVariants as stop;

    ghost from_gives = { λ _ stopped. stopped ≡ stop.Memory };

    fn from(_: AllocError) -> Stop {
        Stop::Memory
    }
}

impl From<SinkFault> for Stop {
    ghost use Rattle.dymelor_top.specs.declared.stop.Stop.TheVariants as stop;

    ghost from_gives = { λ _ stopped. stopped ≡ stop.Sink };

    fn from(_: SinkFault) -> Stop {
        Stop::Sink
    }
}

impl From<ReadFail> for Stop {
    ghost use Rattle.dymelor_top.specs.Stops.{of_read};

    ghost from_gives = { λ fail stop. stop ≡ of_read fail };

    fn from(fail: ReadFail) -> Stop {
        match fail {
            ReadFail::Source => Stop::Source,
            ReadFail::Memory => Stop::Memory,
        }
    }
}

impl From<WriteFail> for Stop {
    ghost use Rattle.dymelor_top.specs.Stops.{of_write};

    ghost from_gives = { λ fail stop. stop ≡ of_write fail };

    fn from(fail: WriteFail) -> Stop {
        match fail {
            WriteFail::Sink => Stop::Sink,
            WriteFail::Memory => Stop::Memory,
        }
    }
}

impl From<ScriptFail> for Stop {
    ghost use Rattle.dymelor_top.specs.Stops.{of_script_fail};

    ghost from_gives = { λ fail stop. stop ≡ of_script_fail fail };

    fn from(fail: ScriptFail) -> Stop {
        match fail {
            ScriptFail::Bad { line, kind } => Stop::Bad { line, kind },
            ScriptFail::Memory => Stop::Memory,
        }
    }
}

impl From<FileFail> for Stop {
    ghost use Rattle.dymelor_top.specs.Stops.{of_file_fail};

    ghost from_gives = { λ fail stop. stop ≡ of_file_fail fail };

    fn from(fail: FileFail) -> Stop {
        match fail {
            FileFail::Bad { part } => Stop::Bad {
                line: part,
                kind: BadKind::File,
            },
            FileFail::Memory => Stop::Memory,
        }
    }
}
