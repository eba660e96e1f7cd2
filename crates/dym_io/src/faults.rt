//! What a source or a sink answers where it fails.
ghost use Rattle.std.specs.Prelude.{◌≡◌};
ghost use Rattle.dym_io.specs.Faults.{RoseOnce, counted};

use thiserror::Error;

/// A call on a source or a sink failed.
#[derive(Clone, Copy, Debug, PartialEq, Eq, Error)]
#[error("a call on the outside failed")]
pub struct Failed;

/// A sink failed before it had taken the whole text.
#[derive(Clone, Copy, Debug, PartialEq, Eq, Error)]
#[error("the sink failed")]
pub struct SinkFault;

impl From<Failed> for SinkFault {
    fn from(_: Failed) -> SinkFault {
        SinkFault
    }
}

/// A number of calls or faults that stays at its last value.
#[derive(Clone, Copy)]
pub(crate) struct Count {
    pub(crate) value: u64,
}

impl Count {
    pub(crate) fn zero() -> Count
        ensures { result.value ≡ 0 }
    {
        Count { value: 0 }
    }

    pub(crate) fn raise(&mut self)
        ensures after { self.new.value ≡ counted self.old.value }
        ensures rose { RoseOnce self.old.value self.new.value }
    {
        self.value = self.value.saturating_add(1);
    }

    /// Counts a fault.
    pub(crate) fn failed(&mut self) -> Failed
        ensures after { self.new.value ≡ counted self.old.value }
        ensures rose { RoseOnce self.old.value self.new.value }
    {
        self.raise();
        Failed
    }
}
