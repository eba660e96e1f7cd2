//! Files of an undo log (`dym_undo_files`), in both versions, with memory for all of them: what is saved of an object is loaded again.
ghost use Rattle.std.specs.Prelude.{◌≡◌, ◌+◌, ◌≤◌, ◌^◌, IfOk};

use dym_base::{Handle, Kind, Name, Version};
use dym_ckpt::read_file;
use dym_quota::OwnSupply;
use dym_undo::Entry;
use dym_undo_files::{file_of_undo, undo_of_file};
use dym_undo_object::UndoObject;
use std::alloc::{AllocError, Global};
use std::process::Abort;
use std::test::Fail;

/// An object of four segments.
fn opened(alloc: Global, version: Version) -> Result<UndoObject<OwnSupply>, AllocError>
    ensures { IfOk result (λ o. o.ran ≡ 0) }
{
    let supply = OwnSupply::open(alloc, 4)?;
    match UndoObject::open(alloc, supply, version) {
        Ok(object) => Ok(object),
        Err((error, _)) => Err(error),
    }
}

/// Four logs, of which the first is dropped. One chunk has other bytes in each, one is in the last two alone, and one in the first two.
fn take_logs(rt: &impl Abort, object: &mut UndoObject<OwnSupply>) -> Result<(Handle, Handle), Fail>
    requires { object.old.ran + 13 ≤ 2 ^ 32 }
{
    let gone = object.malloc(&(), 64)?;
    let a = object.malloc(&(), 32)?;
    object.fill(a, 0, 32, 5)?;
    assert_eq!(rt; object.ilog(3), Ok(Kind::Full));
    object.fill(a, 0, 32, 7)?;
    assert_eq!(rt; object.ilog(5), Ok(Kind::Inc));
    let b = object.malloc(&(), 32)?;
    object.fill(a, 0, 32, 9)?;
    object.free(&(), Some(gone))?;
    assert_eq!(rt; object.ilog(9), Ok(Kind::Inc));
    object.fill(b, 0, 32, 1)?;
    assert_eq!(rt; object.ilog(12), Ok(Kind::Inc));
    assert_eq!(rt; object.prune(6), 1);
    Ok((a, b))
}

/// Of a file the logs come back, each with the heap that it brings back.
fn read_back(
    rt: &impl Abort,
    alloc: Global,
    file: &[u8],
    a: Handle,
    b: Handle,
) -> Result<(), Fail> {
    let Ok(content) = read_file(alloc, file) else {
        panic!(rt; "no file");
    };
    let supply = OwnSupply::open(alloc, content.quota())?;
    let Ok((name, mut heap, mut undo)) = undo_of_file(alloc, content, &(), supply) else {
        panic!(rt; "memory");
    };
    assert_eq!(rt; name.bytes(), b"planet".as_slice());
    assert_eq!(rt; (undo.kept(), undo.newest()), (3, Some(12)));
    if undo.kept() == 3 {
        assert_eq!(rt; undo.entry(0), Entry { time: 5, depth: 0 });
        assert_eq!(rt; undo.entry(2), Entry { time: 12, depth: 2 });
    }
    assert_eq!(rt;
        (heap.sum(a), heap.sum(b), heap.held()),
        (Ok(288), Ok(32), 1)
    );
    assert_eq!(rt; undo.restore(&(), &mut heap, 11), Ok(9));
    assert_eq!(rt;
        (heap.sum(a), heap.sum(b), heap.held()),
        (Ok(288), Ok(0), 1)
    );
    assert_eq!(rt; undo.restore(&(), &mut heap, 6), Ok(5));
    assert_eq!(rt;
        (heap.sum(a), heap.is_live(b), heap.held()),
        (Ok(224), false, 2)
    );
    let _supply = heap.end(&());
    Ok(())
}

/// The file of the object's logs is read back.
fn save_and_load(
    rt: &impl Abort,
    alloc: Global,
    object: &mut UndoObject<OwnSupply>,
) -> Result<(), Fail>
    requires { object.old.ran ≡ 0 }
{
    let (a, b) = take_logs(rt, object)?;
    let Some(name) = Name::new(b"planet") else {
        panic!(rt; "name");
    };
    let file = file_of_undo(alloc, object.heap(), object.undo(), &name)?;
    read_back(rt, alloc, &file, a, b)
}

#[test]
fn saved_logs_load(rt: HostRuntime) -> Result<(), Fail> {
    for version in [Version::One, Version::Two] {
        let mut object = opened(rt.alloc(), version)?;
        let done = save_and_load(&rt, rt.alloc(), &mut object);
        let _supply = object.end(&());
        done?;
    }
    Ok(())
}
