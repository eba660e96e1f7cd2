//! Why a run of objects stopped.
ghost use Rattle.std.specs.Prelude.{◌≡◌};
ghost use Rattle.dym_wave.specs.declared.run_fail.RunFail.TheVariants.{Memory};

use std::alloc::AllocError;

/// Why not all objects of a run were handed over.
#[derive(Drop)]
pub(crate) enum RunFail<E> {
    /// Memory ran out.
    Memory,
    /// An object wasn't taken.
    Refused(E),
}

impl<E> From<AllocError> for RunFail<E> {
    ghost from_gives = { λ _ fail. fail ≡ Memory };

    fn from(_: AllocError) -> RunFail<E> {
        RunFail::Memory
    }
}
