//! The calls of a heap by which changes are undone: each chunk is then as it was, at the price of that chunk, with memory for all of it.
ghost use Rattle.std.specs.Prelude.{IfOk};
ghost use Rattle.dym_heap.specs.Meaning.{IsSound};

use dym_base::{Handle, Version};
use dym_heap::Heap;
use dym_quota::OwnSupply;
use std::alloc::{AllocError, Global};
use std::process::Abort;
use std::test::Fail;

/// A heap of four segments.
fn opened(alloc: Global, version: Version) -> Result<Heap<OwnSupply>, AllocError>
    ensures { IfOk result IsSound }
{
    let supply = OwnSupply::open(alloc, 4)?;
    match Heap::open_as(alloc, supply, version) {
        Ok(heap) => Ok(heap),
        Err((error, _)) => Err(error),
    }
}

/// Puts a live chunk back with each of its bytes `byte`. False where it isn't live.
fn rewrite(
    heap: &mut Heap<OwnSupply>,
    alloc: Global,
    h: Handle,
    byte: u8,
) -> Result<bool, AllocError>
    requires { IsSound heap.old }
    ensures { IsSound heap.new }
{
    let Some(bytes) = heap.bytes(h) else {
        return Ok(false);
    };
    let mut other = bytes.to_vec(alloc)?;
    other.fill(byte);
    heap.put_back(&(), h, &other);
    Ok(true)
}

/// Takes a live chunk away and puts it back, and answers whether it was live between, and how many
/// segments were held then.
fn away_and_back(
    heap: &mut Heap<OwnSupply>,
    alloc: Global,
    h: Handle,
) -> Result<Option<(bool, u32)>, AllocError>
    requires { IsSound heap.old }
    ensures { IsSound heap.new }
{
    let Some(bytes) = heap.bytes(h) else {
        return Ok(None);
    };
    let bytes = bytes.to_vec(alloc)?;
    heap.take_away(&(), h);
    let between = (heap.is_live(h), heap.held());
    heap.put_back(&(), h, &bytes);
    Ok(Some(between))
}

/// Takes two live chunks away and puts them back in the same order, and answers how many segments
/// were held before and after each came back.
fn both_away_and_back(
    heap: &mut Heap<OwnSupply>,
    alloc: Global,
    first: Handle,
    second: Handle,
) -> Result<Option<[u32; 3]>, AllocError>
    requires { IsSound heap.old }
    ensures { IsSound heap.new }
{
    let Some(bytes) = heap.bytes(first) else {
        return Ok(None);
    };
    let first_bytes = bytes.to_vec(alloc)?;
    let Some(bytes) = heap.bytes(second) else {
        return Ok(None);
    };
    let second_bytes = bytes.to_vec(alloc)?;
    heap.take_away(&(), first);
    heap.take_away(&(), second);
    let none = heap.held();
    heap.put_back(&(), first, &first_bytes);
    let one = heap.held();
    heap.put_back(&(), second, &second_bytes);
    Ok(Some([none, one, heap.held()]))
}

/// Small chunks, side by side in one area.
fn undo_small(rt: &impl Abort, heap: &mut Heap<OwnSupply>, alloc: Global) -> Result<(), Fail>
    requires { IsSound heap.old }
{
    let a = heap.malloc(&(), 32)?;
    let b = heap.malloc(&(), 32)?;
    heap.fill(a, 0, 32, 7)?;
    heap.clear_dirty();
    heap.fill(a, 3, 2, 9)?;
    assert!(rt; rewrite(heap, alloc, a, 7)?);
    assert_eq!(rt; (heap.sum(a)?, heap.is_unmodified()), (224, true));
    assert_eq!(rt; away_and_back(heap, alloc, a)?, Some((false, 1)));
    assert_eq!(rt; (heap.sum(a)?, heap.is_unmodified()), (224, true));
    heap.fill(a, 0, 1, 1)?;
    heap.fill(b, 0, 1, 1)?;
    heap.forget(a);
    assert!(rt; !heap.is_unmodified());
    heap.forget(b);
    assert_eq!(rt; (heap.sum(a)?, heap.is_unmodified()), (218, true));
    heap.take_away(&(), a);
    heap.take_away(&(), a);
    assert_eq!(rt; (heap.malloc(&(), 32)? == a, heap.sum(a)?), (true, 0));
    Ok(())
}

/// Chunks of a whole segment.
fn undo_large(rt: &impl Abort, heap: &mut Heap<OwnSupply>, alloc: Global) -> Result<(), Fail>
    requires { IsSound heap.old }
{
    let a = heap.malloc(&(), 65_536)?;
    let b = heap.malloc(&(), 65_536)?;
    let c = heap.malloc(&(), 65_536)?;
    heap.fill(c, 0, 3, 1)?;
    assert_eq!(rt; both_away_and_back(heap, alloc, c, b)?, Some([1, 3, 3]));
    assert_eq!(rt; both_away_and_back(heap, alloc, b, c)?, Some([1, 2, 3]));
    assert_eq!(rt; (heap.sum(a)?, heap.sum(b)?, heap.sum(c)?), (0, 0, 3));
    assert_eq!(rt; heap.malloc(&(), 65_536)?.index, 3);
    assert!(rt; heap.malloc(&(), 1).is_err());
    Ok(())
}

#[test]
fn a_chunk_comes_back(rt: HostRuntime) -> Result<(), Fail> {
    let mut heap = opened(rt.alloc(), Version::One)?;
    let done = undo_small(&rt, &mut heap, rt.alloc());
    let _supply = heap.end(&());
    done
}

#[test]
fn a_chunk_with_its_length_comes_back(rt: HostRuntime) -> Result<(), Fail> {
    let mut heap = opened(rt.alloc(), Version::Two)?;
    let done = undo_small(&rt, &mut heap, rt.alloc());
    let _supply = heap.end(&());
    done
}

#[test]
fn areas_come_back_with_their_chunks(rt: HostRuntime) -> Result<(), Fail> {
    let mut heap = opened(rt.alloc(), Version::Two)?;
    let done = undo_large(&rt, &mut heap, rt.alloc());
    let _supply = heap.end(&());
    done
}
