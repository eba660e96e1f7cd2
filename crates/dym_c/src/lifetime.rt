//! Opening and closing an object.
ghost use Rattle.std.specs.Prelude.{◌≡◌, None, IfOk};
ghost use Rattle.dym_c.specs.Openings.{IsOpening, IsClosing, IsFirst, version_of};
ghost use Rattle.dym_base.specs.declared.limits.TheConstants.{MOST_QUOTA};
ghost use Rattle.std.specs.Prelude.{◌≤◌};

use crate::heap_copy::HeapCopy;
use crate::object::DymObject;
use crate::object_content::{ObjectContent, Process};
use crate::status::{BAD, DONE, MEMORY, STATE};
use dym_base::Version;
use dym_base::limits::MOST_QUOTA;
use dym_quota::FixedSupply;
use dym_undo_object::UndoObject;
use std::alloc::{AllocError, Global};

/// Opens a closed object with an empty heap of at most `quota` segments.
#[unsafe(no_mangle)]
pub extern "C" fn dym_open(alloc: Global, object: &mut DymObject, quota: u32, version: u32) -> u32
    ensures { IsOpening object.old.value quota (version_of version) result object.new.value }
{
    open(alloc, object, quota, version, false)
}

/// Opens a closed object with an empty heap of at most `quota` segments, and the object is checked: `dym_untold` finds what was
/// written into a chunk that no call touched before.
#[unsafe(no_mangle)]
pub extern "C" fn dym_open_checked(
    alloc: Global,
    object: &mut DymObject,
    quota: u32,
    version: u32,
) -> u32
    ensures { IsOpening object.old.value quota (version_of version) result object.new.value }
{
    open(alloc, object, quota, version, true)
}

/// Opens a closed object, which is checked or isn't.
pub(crate) fn open(
    alloc: Global,
    object: &mut DymObject,
    quota: u32,
    version: u32,
    is_checked: bool,
) -> u32
    ensures { IsOpening object.old.value quota (version_of version) result object.new.value }
{
    let Some(version) = version_of_c(version) else {
        return BAD;
    };
    if quota == 0 || MOST_QUOTA < quota {
        return BAD;
    }
    if !object.as_kept().is_closed() {
        return STATE;
    }
    let Ok(inside) = boxed(alloc, quota, version, is_checked) else {
        return MEMORY;
    };
    object.as_kept().open(alloc, inside);
    DONE
}

/// Closes an object, and gives all its memory back.
#[unsafe(no_mangle)]
pub extern "C" fn dym_close(alloc: Global, object: &mut DymObject) -> u32
    ensures { IsClosing object.old.value result object.new.value }
{
    if object.as_kept().is_closed() {
        return STATE;
    }
    object.as_kept().close(alloc);
    DONE
}

/// The version that C names by its number.
fn version_of_c(version: u32) -> Option<Version>
    ensures { result ≡ version_of version }
{
    match version {
        1 => Some(Version::One),
        2 => Some(Version::Two),
        _ => None,
    }
}

/// An object at its start.
fn boxed(
    alloc: Global,
    quota: u32,
    version: Version,
    is_checked: bool,
) -> Result<Box<ObjectContent>, AllocError>
    requires least { 1 ≤ quota }
    requires most { quota ≤ MOST_QUOTA }
    ensures { IfOk result (λ inside. IsFirst version quota inside.value) }
{
    let copy = match is_checked {
        true => Some(HeapCopy::open(alloc, quota)?),
        false => None,
    };
    let object = opened(alloc, quota, version)?;
    match Box::new(alloc, ObjectContent { object, copy }) {
        Ok(inside) => Ok(inside),
        Err(_) => Err(AllocError),
    }
}

/// An object at its start.
fn opened(alloc: Global, quota: u32, version: Version) -> Result<Process, AllocError>
    requires least { 1 ≤ quota }
    requires most { quota ≤ MOST_QUOTA }
    ensures { IfOk result (IsFirst version quota) }
{
    let supply = FixedSupply::open(alloc, quota)?;
    match UndoObject::open(alloc, supply, version) {
        Ok(object) => Ok(object),
        Err((error, supply)) => {
            supply.close();
            Err(error)
        }
    }
}
