//! The process that C keeps.
ghost use Rattle.std.specs.Prelude.{◌≡◌, Option, Some, IfSome, is_none};
ghost use Rattle.std.specs.Borrow.{sem, Lends, LendsIf};
ghost use Rattle.std.specs.Coded.{coded_option};
ghost use Rattle.dym_c.specs.Ownership.{kept_owns};
ghost use Rattle.dym_c.specs.contracts.process_content.ProcessContent.{the_row};
ghost use Rattle.dym_c.specs.ProcessMeanings.{ProcessMeaning};

use crate::kept::Kept;
use crate::object::DymObject;
use crate::process_content::ProcessContent;
use std::marker::Model;

/// A process's state, and what the process has inside.
#[repr(C)]
pub struct DymProcess {
    pub object: DymObject,
    pub kept: KeptProcess,
}

/// One pointer: null where the process is closed, else that of a box.
#[repr(C)]
pub struct KeptProcess {
    at: *mut u8,
    pub ghost value: { Option ProcessMeaning } by { coded_option the_row.coded },
}

impl Model for KeptProcess {
    ghost also_owns = { λ o. kept_owns the_row o.at o.value };
}

impl KeptProcess {
    ghost use Rattle.dym_c.specs.contracts.kept.Kept.{the_row as kept_row};
    ghost use Rattle.dym_c.specs.contracts.process.KeptProcess.{the_row as own_row};

    /// The process as what is kept.
    #[inline(always)]
    pub(crate) fn as_kept(&mut self) -> &mut Kept<ProcessContent>
        ensures* writes_back { sem 𝓛 (Lends own_row (kept_row the_row) self.entry result (λ k. record { at = k.at; value = k.value })) }
        ensures value { result.now ≡ record { at = self.old.at; value = self.old.value } }
    {
        unsafe { &mut *(self as *mut KeptProcess as *mut Kept<ProcessContent>) }
    }

    /// What is inside, and None where the process is closed.
    #[inline(always)]
    pub(crate) fn inside(&mut self) -> Option<&mut ProcessContent>
        ensures* writes_back { sem 𝓛 (LendsIf own_row the_row self.entry result (λ w. record self.old { value = Some w }) self.old) }
        ensures closed { is_none result ≡ is_none self.old.value }
        ensures value { IfSome result (λ inside. self.old.value ≡ Some inside.now) }
    {
        let kept = self.as_kept();
        if kept.is_closed() {
            return None;
        }
        Some(kept.content())
    }
}
