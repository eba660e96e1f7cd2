//! The calls of an object over an undo log, with memory for all of them.
ghost use Rattle.std.specs.Prelude.{◌≡◌, ◌+◌, ◌≤◌, ◌^◌, IfOk};

use dym_base::{Handle, Kind, Refusal, Version};
use dym_quota::{FixedSupply, OwnSupply};
use dym_undo::{Entry, LogError};
use dym_undo_object::UndoObject;
use std::alloc::{AllocError, Global};
use std::process::Abort;
use std::test::Fail;

/// An object of four segments.
fn opened(alloc: Global, version: Version) -> Result<UndoObject<OwnSupply>, AllocError>
    ensures { IfOk result (λ o. o.ran ≡ 0) }
{
    let supply = OwnSupply::open(alloc, 4)?;
    match UndoObject::open(alloc, supply, version) {
        Ok(object) => Ok(object),
        Err((error, _)) => Err(error),
    }
}

/// Changes of two chunks before a log, between two logs, and after these.
fn change(rt: &impl Abort, object: &mut UndoObject<OwnSupply>) -> Result<(Handle, Handle), Fail>
    requires { object.old.ran + 9 ≤ 2 ^ 32 }
    ensures { object.new.ran ≤ object.old.ran + 9 }
{
    let a = object.malloc(&(), 3)?;
    object.fill(a, 0, 3, 7)?;
    assert_eq!(rt; object.log(5), Ok(Kind::Full));
    object.write(a, 1, &[1, 2])?;
    let b = object.calloc(&(), 2, 20)?;
    assert_eq!(rt; object.ilog(9), Ok(Kind::Inc));
    object.link(b, 8, Some(a))?;
    assert_eq!(rt; object.realloc(&(), Some(a), 100).is_ok(), true);
    object.free(&(), Some(b))?;
    Ok((a, b))
}

/// They are undone, log by log.
fn undo(
    rt: &impl Abort,
    object: &mut UndoObject<OwnSupply>,
    a: Handle,
    b: Handle,
) -> Result<(), Fail>
    requires { object.old.ran + 7 ≤ 2 ^ 32 }
    ensures { object.new.ran ≤ object.old.ran + 7 }
{
    assert_eq!(rt; object.restore(&(), 20), Ok(9));
    assert_eq!(rt; (object.sum(a)?, object.sum(b)?), (10, 0));
    assert_eq!(rt; object.restore_before(&(), 9), Ok(5));
    assert_eq!(rt; (object.sum(a)?, object.sum(b)), (21, Err(Refusal::Dead)));
    Ok(())
}

/// Logs that are refused, and those that a prune leaves.
fn drop_logs(rt: &impl Abort, object: &mut UndoObject<OwnSupply>) -> Result<(), Fail>
    requires { object.old.ran + 5 ≤ 2 ^ 32 }
{
    let late = LogError::Refused(Refusal::NotAfter { newest: 5 });
    assert_eq!(rt; object.log(5), Err(late));
    assert_eq!(rt; object.ilog(6), Ok(Kind::Inc));
    assert_eq!(rt;
        (object.logs(), object.prune(6), object.logs()),
        ((2, 2), 1, (1, 2))
    );
    assert_eq!(rt;
        (object.kept(), object.slots(), object.newest()),
        (1, 2, Some(6))
    );
    if object.kept() == 1 {
        assert_eq!(rt; object.entry(0), Entry { time: 6, depth: 1 });
    }
    Ok(())
}

fn all(rt: &impl Abort, object: &mut UndoObject<OwnSupply>) -> Result<(), Fail>
    requires { object.old.ran ≡ 0 }
{
    let (a, b) = change(rt, object)?;
    undo(rt, object, a, b)?;
    drop_logs(rt, object)
}

#[test]
fn changes_are_undone(rt: HostRuntime) -> Result<(), Fail> {
    for version in [Version::One, Version::Two] {
        let mut object = opened(rt.alloc(), version)?;
        let done = all(&rt, &mut object);
        let _supply = object.end(&());
        done?;
    }
    Ok(())
}

/// Two chunks are freed between logs, and come back.
fn frees_come_back(rt: &impl Abort, object: &mut UndoObject<OwnSupply>) -> Result<(), Fail>
    requires { object.old.ran ≡ 0 }
    ensures { object.new.ran ≤ 15 }
{
    let a = object.malloc(&(), 3)?;
    let b = object.malloc(&(), 32)?;
    object.fill(a, 0, 3, 7)?;
    object.fill(b, 0, 32, 3)?;
    assert_eq!(rt; object.ilog(5), Ok(Kind::Full));
    object.free(&(), Some(a))?;
    assert_eq!(rt; object.ilog(9), Ok(Kind::Inc));
    object.free(&(), Some(b))?;
    assert_eq!(rt; object.restore(&(), 20), Ok(9));
    assert_eq!(rt;
        (object.sum(a), object.sum(b)),
        (Err(Refusal::Dead), Ok(96))
    );
    assert_eq!(rt; object.restore(&(), 4), Err(Refusal::NoLog));
    assert_eq!(rt; object.restore(&(), 8), Ok(5));
    assert_eq!(rt; (object.sum(a), object.sum(b)), (Ok(21), Ok(96)));
    Ok(())
}

/// The log that a restore leaves is the newest; a prune up to a log keeps it, and a second one drops nothing.
fn logs_stay(rt: &impl Abort, object: &mut UndoObject<OwnSupply>) -> Result<(), Fail>
    requires { object.old.ran ≤ 15 }
{
    assert_eq!(rt; object.ilog(7), Ok(Kind::Inc));
    assert_eq!(rt; (object.kept(), object.newest()), (2, Some(7)));
    assert_eq!(rt; (object.prune(7), object.kept()), (1, 1));
    assert_eq!(rt; (object.prune(7), object.kept()), (0, 1));
    Ok(())
}

fn frees(rt: &impl Abort, object: &mut UndoObject<OwnSupply>) -> Result<(), Fail>
    requires { object.old.ran ≡ 0 }
{
    frees_come_back(rt, object)?;
    logs_stay(rt, object)
}

#[test]
fn frees_are_undone(rt: HostRuntime) -> Result<(), Fail> {
    let mut object = opened(rt.alloc(), Version::Two)?;
    let done = frees(&rt, &mut object);
    let _supply = object.end(&());
    done
}

/// A byte that is written at its address after the chunk was touched comes back.
fn touches(rt: &impl Abort, object: &mut UndoObject<FixedSupply>) -> Result<(), Fail>
    requires { object.old.ran ≡ 0 }
{
    let a = object.malloc(&(), 40)?;
    object.fill(a, 0, 40, 2)?;
    assert_eq!(rt; object.log(1), Ok(Kind::Full));
    assert_eq!(rt; (object.changed(), object.kept_bytes()), (0, 0));
    object.touch_at(65_536 * 4 + 10, 1_000_000);
    assert_eq!(rt; (object.changed(), object.kept_bytes()), (1, 56));
    assert_eq!(rt; object.handle_at(65_536 * 4 + 10), Some(a));
    assert_eq!(rt; object.ilog(2), Ok(Kind::Inc));
    assert_eq!(rt; object.touch(a).is_ok(), true);
    assert_eq!(rt; (object.changed(), object.kept_bytes()), (1, 112));
    object.touch_all();
    assert_eq!(rt; object.address(a).is_some(), true);
    assert_eq!(rt; object.restore(&(), 1), Ok(1));
    assert_eq!(rt; object.sum(a), Ok(80));
    Ok(())
}

#[test]
fn places_are_touched(rt: HostRuntime) -> Result<(), Fail> {
    let supply = FixedSupply::open(rt.alloc(), 4)?;
    match UndoObject::open(rt.alloc(), supply, Version::Two) {
        Ok(object) => {
            let mut object = object;
            let done = touches(&rt, &mut object);
            object.end(&()).close();
            done
        }
        Err((error, supply)) => {
            supply.close();
            Err(error.into())
        }
    }
}
