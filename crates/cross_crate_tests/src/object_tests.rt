//! Commands to an object beside which each allocation can be made to fail: `rt try --test --fail-alloc N`.
use dym_base::{Command, Handle, Reply};
use dym_chain::VecKeep;
use dym_object::Object;
use dym_quota::OwnSupply;
use std::alloc::{AllocError, Global};
use std::process::Abort;

const CHUNK: Handle = Handle { exp: 6, index: 0 };

fn opened(alloc: Global) -> Result<Object<OwnSupply, VecKeep>, AllocError> {
    let keep = VecKeep::open(alloc)?;
    let supply = OwnSupply::open(alloc, 1)?;
    match Object::open(alloc, supply, keep) {
        Ok(object) => Ok(object),
        Err((error, _, _)) => Err(error),
    }
}

fn fill(at: u32, byte: u8) -> Command {
    Command::Fill {
        h: CHUNK,
        at,
        len: 40,
        byte,
    }
}

/// The command of a step.
fn command(step: u64) -> Command {
    match step {
        0 => Command::Malloc { len: 40 },
        1 => fill(0, 3),
        2 => Command::Log { time: 10 },
        3 => fill(20, 4),
        4 => Command::Ilog { time: 20 },
        5 => Command::Read {
            h: CHUNK,
            at: 19,
            len: 20,
        },
        6 => fill(0, 5),
        7 => Command::Restore { time: 20 },
        8 => Command::Ilog { time: 30 },
        _ => Command::Restore { time: 10 },
    }
}

/// What an object is after a step: its kept logs, its records, and the sum of its chunk.
const AFTER: [[u64; 3]; 10] = [
    [0, 0, 0],
    [0, 0, 120],
    [1, 1, 120],
    [1, 1, 220],
    [2, 2, 220],
    [2, 2, 220],
    [2, 2, 280],
    [2, 2, 220],
    [3, 3, 220],
    [1, 1, 120],
];

/// What can be seen of an object.
fn seen(object: &Object<OwnSupply, VecKeep>) -> [u64; 3] {
    let sum = object.heap().sum(CHUNK).unwrap_or(999);
    [u64::from(object.kept()), u64::from(object.slots()), sum]
}

/// Whether the command of a step was run.
fn runs(
    object: &mut Object<OwnSupply, VecKeep>,
    alloc: Global,
    step: u64,
    reply: &mut Reply,
) -> bool {
    if object.ran() != step || step >= 10 {
        return false;
    }
    object.run_into(&(), alloc, &command(step), reply).is_ok()
}

/// Runs the command of a step. Where memory is wanting the object and the reply are as they were, and the command then runs.
fn run_at_last(object: &mut Object<OwnSupply, VecKeep>, alloc: Global, step: u64) -> bool {
    let before = seen(object);
    let mut reply = Reply::Dropped(7);
    if runs(object, alloc, step, &mut reply) {
        return true;
    }
    let is_same = matches!(reply, Reply::Dropped(7)) && seen(object) == before;
    is_same && runs(object, alloc, step, &mut reply)
}

fn run_all(rt: &impl Abort, object: &mut Object<OwnSupply, VecKeep>, alloc: Global) {
    for step in 0..10 {
        assert!(rt; run_at_last(object, alloc, step), "step {step}");
        assert!(rt; seen(object) == AFTER[step as usize], "after step {step}");
    }
}

#[test]
fn unchanged_where_memory_is_wanting(rt: HostRuntime) -> Result<(), AllocError> {
    let Ok(mut object) = opened(rt.alloc()) else {
        return Ok(());
    };
    run_all(&rt, &mut object, rt.alloc());
    object.end(&());
    Ok(())
}
