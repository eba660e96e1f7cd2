//! Late events where an allocation fails: `rt try --test --fail-alloc N`. Each order of events is a row of the built program.
use dym_base::Command;
use dym_base::limits::MOST_LATE_EVENTS;
use dym_late::{LateError, LateHeap};
use dym_quota::{OwnSupply, Supply};
use std::alloc::Global;

/// Puts 48 events in a mixed order of their times, most of them stragglers, until one finds no memory: the sum of the commands that were
/// run, and whether memory was wanting.
fn put_all(late: &mut LateHeap<OwnSupply>, alloc: Global) -> (u64, bool) {
    for k in 0..48u32 {
        if late.broken() || late.len() >= MOST_LATE_EVENTS {
            return (0, false);
        }
        let time = u64::from(k * 37 % 101);
        let put = late.put(&(), alloc, time, Command::Malloc { len: 40 });
        if let Err(why) = put {
            return (0, late.broken() && matches!(why, LateError::Memory));
        }
    }
    let ran = if late.broken() { 0 } else { late.replayed() };
    (ran, false)
}

/// Whichever allocation fails, the supply comes back with nothing held.
#[test]
fn gives_all_back_where_memory_is_wanting(rt: HostRuntime) {
    let alloc = rt.alloc();
    let Ok(supply) = OwnSupply::open(alloc, 4) else {
        return;
    };
    let supply = match LateHeap::open(&(), alloc, supply) {
        Ok(mut late) => {
            let (ran, was_wanting) = put_all(&mut late, alloc);
            assert!(&rt; ran == 855 || was_wanting, "{ran}");
            late.end(&())
        }
        Err((_, supply)) => supply,
    };
    assert!(&rt; supply.held() == 0 && supply.quota() == 4);
}
