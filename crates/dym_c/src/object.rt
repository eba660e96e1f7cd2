//! The object that C keeps.
ghost use Rattle.std.specs.Prelude.{◌≡◌, ◌<◌, Option, Some, IfSome, IfOk, IfErr, is_none};
ghost use Rattle.std.specs.Borrow.{sem, Lends, LendsIf, LendsIfOk};
ghost use Rattle.std.specs.Coded.{codes};
ghost use Rattle.dym_base.specs.declared.limits.TheConstants.{COUNT_LIMIT};
ghost use Rattle.dym_heap.specs.Meaning.{live_code, touched_code};
ghost use Rattle.dym_undo_object.specs.Meaning.{UndoObjectMeaning};
ghost use Rattle.dym_c.specs.Ownership.{kept_owns};
ghost use Rattle.dym_c.specs.Calls.{status_unready};
ghost use Rattle.dym_c.specs.contracts.object_content.ObjectContent.{the_row};

use crate::kept::Kept;
use crate::object_content::ObjectContent;
use crate::status::{SPENT, STATE};
use dym_base::limits::COUNT_LIMIT;
use std::marker::{Model, Send};

/// One pointer: null where the object is closed, else that of a box.
#[repr(C)]
pub struct DymObject {
    at: *mut u8,
    pub ghost value: { Option UndoObjectMeaning } by { Prim.hlevel (codes, live_code, touched_code) },
}

impl Model for DymObject {
    ghost also_owns = { λ o. kept_owns the_row o.at o.value };
}

impl DymObject {
    ghost use Rattle.dym_c.specs.contracts.kept.Kept.{the_row as kept_row};
    ghost use Rattle.dym_c.specs.contracts.object.DymObject.{the_row as own_row};

    /// The object as what is kept.
    #[inline(always)]
    pub(crate) fn as_kept(&mut self) -> &mut Kept<ObjectContent>
        ensures* writes_back { sem 𝓛 (Lends own_row (kept_row the_row) self.entry result (λ k. record { at = k.at; value = k.value })) }
        ensures value { result.now ≡ record { at = self.old.at; value = self.old.value } }
    {
        unsafe { &mut *(self as *mut DymObject as *mut Kept<ObjectContent>) }
    }

    /// What is inside, and None where the object is closed.
    #[inline(always)]
    pub(crate) fn inside(&mut self) -> Option<&mut ObjectContent>
        ensures* writes_back { sem 𝓛 (LendsIf own_row the_row self.entry result (λ w. record self.old { value = Some w }) self.old) }
        ensures closed { is_none result ≡ is_none self.old.value }
        ensures value { IfSome result (λ inside. self.old.value ≡ Some inside.now) }
    {
        let kept = self.as_kept();
        if kept.is_closed() {
            return None;
        }
        Some(kept.content())
    }

    /// What is inside, for one command more. Else the answer is the status that says why there can be none.
    #[inline(always)]
    pub(crate) fn ready(&mut self) -> Result<&mut ObjectContent, u32>
        ensures* writes_back { sem 𝓛 (LendsIfOk own_row the_row self.entry result (λ w. record self.old { value = Some w }) self.old) }
        ensures inside { IfOk result (λ inside. (self.old.value ≡ Some inside.now)
            × (inside.now.ran < COUNT_LIMIT)) }
        ensures unready { IfErr result (λ status. status_unready self.old.value ≡ Some status) }
    {
        let Some(inside) = self.inside() else {
            return Err(STATE);
        };
        if inside.object.ran() >= COUNT_LIMIT {
            return Err(SPENT);
        }
        Ok(inside)
    }
}

unsafe impl Send for DymObject {}

/// Gives back what it gets, which may cross to another thread.
fn c_handle<T: Send>(sent: T) -> T
    ensures { result ≡ sent }
{
    sent
}

/// An object may cross to another thread: that is proved for this call, which C has no need of.
pub fn crosses(object: DymObject) -> DymObject
    ensures { result.value ≡ object.value }
{
    c_handle(object)
}
