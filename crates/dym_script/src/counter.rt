//! Counts what a script says.

use crate::keeper::Keeper;
use crate::script::Decl;
use dym_commands::{HexBytes, Request};
use std::alloc::{AllocError, Global};

/// Keeps nothing of a script, which is counted then.
#[derive(Drop)]
pub struct Counter;

impl Keeper for Counter {
    ghost keeps = { λ _ _ _. Unit {0} };

    fn new(_alloc: Global) -> Counter {
        Counter
    }

    fn declare(&mut self, _alloc: Global, _decl: &Decl) -> Result<(), AllocError> {
        Ok(())
    }

    #[inline(always)]
    fn ask(
        &mut self,
        _alloc: Global,
        _object: u32,
        _asked: &Request<HexBytes<'_>>,
    ) -> Result<(), AllocError> {
        Ok(())
    }
}
