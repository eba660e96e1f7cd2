//! Why a report is not written whole.
ghost use Rattle.std.specs.Prelude.{◌≡◌};
ghost use Rattle.dym_report.specs.declared.write_fail.WriteFail.TheVariants.{Sink, Memory};

use dym_io::SinkFault;
use std::alloc::AllocError;

/// Why an answer was not written whole.
#[derive(Clone, Copy, Debug, PartialEq, Eq)]
pub enum WriteFail {
    /// The sink failed.
    Sink,
    /// Memory ran out.
    Memory,
}

impl From<SinkFault> for WriteFail {
    ghost from_gives = { λ _ fail. fail ≡ Sink };

    fn from(_: SinkFault) -> WriteFail {
        WriteFail::Sink
    }
}

impl From<AllocError> for WriteFail {
    ghost from_gives = { λ _ fail. fail ≡ Memory };

    fn from(_: AllocError) -> WriteFail {
        WriteFail::Memory
    }
}
