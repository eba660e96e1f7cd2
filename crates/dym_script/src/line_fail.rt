//! Why a line wasn't read.

use dym_base::BadKind;
use std::alloc::{AllocError, AllocFailed};

/// Why a line wasn't read.
#[derive(Debug, Drop)]
pub enum LineFail {
    /// The line is bad.
    Bad(BadKind),
    /// Memory ran out.
    Memory,
}

impl From<BadKind> for LineFail {
    ghost use Rattle.std.specs.Prelude.{◌≡◌};
    ghost use Rattle.dym_script.specs.declared.line_fail.LineFail.TheVariants.{Bad};

    ghost from_gives = { λ kind fail. fail ≡ Bad kind };

    fn from(kind: BadKind) -> LineFail {
        LineFail::Bad(kind)
    }
}

impl From<AllocError> for LineFail {
    ghost use Rattle.std.specs.Prelude.{◌≡◌};
    ghost use Rattle.dym_script.specs.declared.line_fail.LineFail.TheVariants.{Memory};

    ghost from_gives = { λ _ fail. fail ≡ Memory };

    fn from(_: AllocError) -> LineFail {
        LineFail::Memory
    }
}

impl<T: Drop> From<AllocFailed<T>> for LineFail {
    ghost use Rattle.std.specs.Prelude.{◌≡◌};
    ghost use Rattle.dym_script.specs.declared.line_fail.LineFail.TheVariants.{Memory};

    ghost from_gives = { λ _ fail. fail ≡ Memory };

    fn from(_: AllocFailed<T>) -> LineFail {
        LineFail::Memory
    }
}
