//! What no clause says of a log table: that memory is given, and that a sweep takes back what was let go though it has learnt no note of it.
//! The soak of log slots (`crates/log_slot_soak`) has the owner and the pruner in two threads.
ghost use Rattle.std.specs.Prelude.{◌≡◌, ◌+◌, ◌<◌, ◌≤◌, None, length, IfOk};

use dym_base::Version;
use dym_pack::Record;
use dym_slots::LogSlots;
use std::alloc::{AllocError, Global};
use std::test::Fail;

/// A full record of an empty heap at a time.
fn record_at(alloc: Global, time: u8) -> Result<Record, AllocError> {
    let bytes = [b'F', time, 0, 0, 0, 0, 0, 0, 0, 0, 0, 0, 0];
    match Record::of_bytes(alloc, &bytes, Version::One, 1) {
        Ok(rec) => Ok(rec),
        Err(_) => Err(AllocError),
    }
}

#[test]
fn a_sweep_takes_back_what_was_let_go(rt: HostRuntime) -> Result<(), Fail> {
    let alloc = rt.alloc();
    let (mut owner, mut sweeper) = LogSlots::open(alloc)?;
    let first = owner.put(record_at(alloc, 10)?);
    owner.put(record_at(alloc, 11)?);
    let last = owner.put(record_at(alloc, 12)?);
    let none = sweeper.sweep();
    owner.raise(2);
    let both = sweeper.sweep();
    let rec = owner.lift(0);
    let time = rec.time();
    owner.lower(0, rec);
    assert!(rt; (first, last, time) == (0, 2, 12));
    assert!(rt; (none, both, sweeper.finish(owner)) == (0, 2, 1));
    Ok(())
}
