//! The log tables of a wave.
ghost use Rattle.std.specs.Prelude.{◌≡◌, IfOk, map, vec_len, All};
ghost use Rattle.dym_wave.specs.States.{IsFreshKeep};
ghost use Rattle.dym_wave.specs.Waves.{tables_of};

use dym_chain::SlotKeep;
use dym_slots::{LogSlots, Sweeper};
use std::alloc::{AllocError, Global};

/// So many log tables without records: the keep over the owner of each, and its sweeper, in one order.
pub(crate) fn open_tables(
    alloc: Global,
    count: usize,
) -> Result<(Vec<SlotKeep>, Vec<Sweeper>), AllocError>
    ensures count { IfOk result (λ tables. vec_len tables.0 ≡ count) }
    ensures fresh { IfOk result (λ tables. All IsFreshKeep tables.0.items) }
    ensures tables { IfOk result (λ tables.
        map (λ k. k.origin) tables.0.items ≡ tables_of tables.1.items) }
{
    let mut keeps = Vec::with_capacity(alloc, count)?;
    let mut sweepers = Vec::with_capacity(alloc, count)?;
    for _ in 0..count {
        let (owner, sweeper) = LogSlots::open(alloc)?;
        keeps.push_reserved(SlotKeep::new(owner));
        sweepers.push_reserved(sweeper);
    }
    Ok((keeps, sweepers))
}
