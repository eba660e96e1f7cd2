//! How a log table is made.
ghost use Rattle.std.specs.Prelude.{◌≡◌, [], None, IfOk};
ghost use Rattle.dym_base.specs.Origins.{shared};
ghost use Rattle.dym_slots.specs.Orders.{IsOrder};

use crate::owner::Owner;
use crate::rule::{Ends, LogTable};
use crate::sweeper::Sweeper;
use dym_base::limits::{LOG_SLOTS, LOG_WORDS, RECORD_ROOM};
use std::alloc::{AllocError, Global};
use std::sync::Arc;

/// The words of a table.
const TABLE_WORDS: usize = LOG_WORDS as usize;

/// The log table of one object, which its two ends share.
pub struct LogSlots;

impl LogSlots {
    /// Makes an empty log table, with room for a full list. Only memory can be wanting.
    pub fn open(alloc: Global) -> Result<(Owner, Sweeper), AllocError>
        ensures owner { IfOk result (λ ends.
            ends.0 ≡ record {
              records = [];
              made = 0;
              lifted = None;
              origin = shared ends.1.table;
            }) }
        ensures sweeper { IfOk result (λ ends. ends.1 ≡ record {
          table = ends.1.table;
          rounds = 0;
          taken_back = 0;
          clean = 0;
          root_seen = 0;
          least_root = 0;
        }) }
    {
        let order = all_slots(alloc)?;
        let numbers = Vec::with_capacity(alloc, RECORD_ROOM as usize)?;
        let (table, mut seat) = LogTable::vacant(
            alloc,
            &[0; TABLE_WORDS],
            LOG_SLOTS as usize,
            &(),
        )?;
        let table = Arc::new(alloc, table)?;
        let shared = Arc::try_clone(&table)?;
        let second = table.shared.split_seat::<Ends>(&mut seat);
        let owner = Owner {
            table,
            seat,
            order,
            numbers,
            made: 0,
            lifted: None,
        };
        let sweeper = Sweeper {
            table: shared,
            seat: second,
        };
        Ok((owner, sweeper))
    }
}

/// All slots of a table, in their order.
fn all_slots(alloc: Global) -> Result<Vec<u16>, AllocError>
    ensures { IfOk result (λ order. IsOrder order.items) }
{
    let mut order = Vec::with_capacity(alloc, LOG_SLOTS as usize)?;
    for slot in 0..LOG_SLOTS {
        order.push_reserved(slot as u16);
    }
    Ok(order)
}
