//! What a worker is to do in a round.
use std::alloc::{AllocError, Global};

/// A round, as all workers are asked to do it.
pub struct Order<'a, M> {
    pub alloc: Global,
    pub model: &'a M,
    /// No event before this time can come any more (GVT). Those before it are committed, and all at
    /// it are run.
    pub bound: u64,
    /// The last time that may be run ahead of what is certain.
    pub limit: u64,
    /// The last time that is run at all.
    pub end: u64,
    /// How many events are run, at most, besides those at the bound.
    pub budget: usize,
}

impl<'a, M> Copy for Order<'a, M> {}

impl<'a, M> Clone for Order<'a, M> {
    ghost use Rattle.std.specs.Prelude.{◌≡◌, ⊤};

    ghost is_clone = { λ x y. y ≡ x };

    ghost is_infallible = { λ _. ⊤ };

    fn clone(&self) -> Result<Self, AllocError> {
        Ok(*self)
    }
}
