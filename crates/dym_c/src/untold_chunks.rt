//! Chunks that C changed though it told no call before.
ghost use Rattle.std.specs.Prelude.{◌≡◌};
ghost use Rattle.dym_c.specs.Inspections.{IsUntold};

use crate::handle::{DymHandle, c_chunk};
use crate::object::DymObject;
use crate::status::{BAD, DONE, MEMORY, STATE};

/// The first chunk that the newest log would bring back with other bytes than it had at that log, or that one before would have when
/// the next one was taken or brought back; and nil where there is none. Only of an object that is checked: there the heap was copied at
/// the log.
#[unsafe(no_mangle)]
pub extern "C" fn dym_untold(object: &mut DymObject, chunk: &mut DymHandle) -> u32
    ensures told { IsUntold object.old.value result chunk.old chunk.new }
    ensures same { object.new.value ≡ object.old.value }
{
    let Some(inside) = object.inside() else {
        return STATE;
    };
    inside.look();
    let Some(copy) = &mut inside.copy else {
        return BAD;
    };
    match copy.take_found() {
        Ok(first) => {
            *chunk = match first {
                Some(h) => c_chunk(h),
                None => DymHandle::NIL,
            };
            DONE
        }
        Err(_) => MEMORY,
    }
}
