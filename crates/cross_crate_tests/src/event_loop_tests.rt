//! How a simulator uses the library: one logical process whose state is a chunk of its object's heap, events that log what they
//! changed, a straggler, and a bound.
ghost use Rattle.std.specs.Prelude.{◌≡◌, IfSome};

use dym_chain::VecKeep;
use dym_object::Object;
use dym_quota::OwnSupply;
use std::alloc::{AllocError, Global};

/// A logical process: its heap, and the logs of it.
type Process = Object<OwnSupply, VecKeep>;

/// A process that may hold four segments of 64 KiB.
fn open(alloc: Global) -> Option<Process>
    ensures { IfSome result (λ p. p.ran ≡ 0) }
{
    let supply = OwnSupply::open(alloc, 4).ok()?;
    let keep = VecKeep::open(alloc).ok()?;
    Object::open(alloc, supply, keep).ok()
}

/// Two events, a straggler before the second one, and a new bound.
fn simulate(process: &mut Process, alloc: Global) -> Option<u8>
    requires { process.old.ran ≡ 0 }
{
    let state = process.malloc(&(), 64).ok()?;
    process.write(state, 0, &[10]).ok()?; // the event of time 10
    process.ilog(alloc, 10).ok()?;
    process.write(state, 0, &[20]).ok()?; // the event of time 20
    process.ilog(alloc, 20).ok()?;
    process.restore(&(), 15 - 1).ok()?; // a straggler of time 15: back to the log of time 10
    let mut byte = [0];
    process.read(state, 0, &mut byte).ok()?;
    process.write(state, 0, &[byte[0].saturating_add(5)]).ok()?;
    process.ilog(alloc, 15).ok()?;
    process.prune(14); // nothing before time 15 can come any more
    process.read(state, 0, &mut byte).ok()?;
    Some(byte[0])
}

#[test]
fn a_straggler_runs_after_what_was_before_it(rt: HostRuntime) -> Result<(), AllocError> {
    let alloc = rt.alloc();
    let Some(mut process) = open(alloc) else {
        return Err(AllocError);
    };
    let state = simulate(&mut process, alloc);
    let (kept, records) = (process.kept(), process.slots());
    process.end(&());
    assert!(rt; state == Some(15));
    assert!(rt; (kept, records) == (2, 2));
    Ok(())
}
