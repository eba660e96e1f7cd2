//! Runs by workers beside the run in order.
use crate::progress::ProgressLines;
use crate::report::simulate;
use crate::trace::Trace;
use crate::watch::Watch;
use crate::words::{Choice, Order, Way};
use std::alloc::Global;
use std::process::Abort;
use std::sync::Wait;
use std::test::Fail;
use std::thread::Threads;
use std::time::Clock;
use warp_models::{CellOptions, Cells, Phold, PholdOptions, Ring, RingOptions};
use warp_run::{Failure, Unobserved};

/// What random numbers begin with.
const SEEDS: [u64; 3] = [1, 2, 3];

/// Numbers of workers, windows and periods: without running ahead, with more workers than some
/// models have processes, and with a window of all that is left.
const WAYS: [(u32, u64, u64); 5] = [
    (1, 0, 1),
    (1, 1_000, 3),
    (2, 3, 4),
    (3, 50, 2),
    (9, u64::MAX, u64::MAX),
];

fn ahead(workers: u32, window: u64, period: u64) -> Way {
    Way::Ahead {
        workers,
        window: Some(window),
        period,
    }
}

/// A PHOLD of eight processes, each hop of which may go to another one.
fn phold(seed: u64) -> Result<Choice, Fail> {
    let options = PholdOptions {
        processes: 8,
        jobs: 2,
        remote: 700,
        lookahead: 0,
        mean: 5,
        numbers: 3,
        changed: 2,
        work: 1,
        seed,
    };
    let model = Phold::new(options).ok_or("no sense")?;
    Ok(Choice::Phold(model))
}

/// Seven cells, with few channels and short stays.
fn cells(seed: u64) -> Result<Choice, Fail> {
    let options = CellOptions {
        cells: 7,
        width: 2,
        channels: 2,
        interval: 4,
        duration: 20,
        stay: 3,
        seed,
    };
    let model = Cells::new(options).ok_or("no sense")?;
    Ok(Choice::Cells(model))
}

/// Five stations with ten jobs.
fn queues(room: u64, seed: u64) -> Result<Choice, Fail> {
    let options = RingOptions {
        stations: 5,
        jobs: 2,
        half_life: 3,
        travel: 2,
        room,
        seed,
    };
    let model = Ring::new(options).ok_or("no sense")?;
    Ok(Choice::Queues(model))
}

/// Each way tells what is told in order.
fn assert_alike<R: Threads + Wait + Sync + Abort>(
    rt: &R,
    alloc: Global,
    choice: Choice,
    end: u64,
) -> Result<(), Fail> {
    let order = Order {
        choice,
        end,
        way: Way::InOrder,
        progress: false,
        trace: None,
    };
    let in_order = simulate(rt, alloc, &order, Unobserved)?;
    for (workers, window, period) in WAYS {
        let way = ahead(workers, window, period);
        let told = simulate(rt, alloc, &Order { way, ..order }, Unobserved)?;
        assert_eq!(rt;
            (told.committed, told.checksum),
            (in_order.committed, in_order.checksum),
            "{order:?} by {way:?}"
        );
    }
    Ok(())
}

/// Each way tells a fault.
fn assert_faults<R: Threads + Wait + Sync + Abort>(
    rt: &R,
    alloc: Global,
    choice: Choice,
    end: u64,
) {
    for (workers, window, period) in WAYS {
        let way = ahead(workers, window, period);
        let told = simulate(
            rt,
            alloc,
            &Order {
                choice,
                end,
                way,
                progress: false,
                trace: None,
            },
            Unobserved,
        );
        assert!(rt;
            matches!(told, Err(Failure::Fault { .. })),
            "{choice:?} by {way:?}"
        );
    }
}

#[test]
fn jobs_hop_as_in_order(rt: HostRuntime) -> Result<(), Fail> {
    for seed in SEEDS {
        assert_alike(&rt, rt.alloc(), phold(seed)?, 100)?;
    }
    Ok(())
}

#[test]
fn calls_are_made_as_in_order(rt: HostRuntime) -> Result<(), Fail> {
    for seed in SEEDS {
        assert_alike(&rt, rt.alloc(), cells(seed)?, 80)?;
    }
    Ok(())
}

#[test]
fn jobs_are_served_as_in_order(rt: HostRuntime) -> Result<(), Fail> {
    for seed in SEEDS {
        assert_alike(&rt, rt.alloc(), queues(u64::MAX, seed)?, 100)?;
    }
    Ok(())
}

// With one worker nothing is undone, since it runs its events in order. Rounds are the same in each
// run, whichever thread is faster, and so are these numbers.
#[test]
fn what_is_run_and_not_undone_stands(rt: HostRuntime) -> Result<(), Fail> {
    for seed in SEEDS {
        let order = Order {
            choice: phold(seed)?,
            end: 400,
            way: Way::InOrder,
            progress: false,
            trace: None,
        };
        let in_order = simulate(&rt, rt.alloc(), &order, Unobserved)?;
        for workers in 1..=4 {
            let way = ahead(workers, 50, 3);
            let told = simulate(&rt, rt.alloc(), &Order { way, ..order }, Unobserved)?;
            let counts = told.counts;
            assert_eq!(rt;
                counts.ran.checked_sub(counts.undone),
                Some(in_order.committed),
                "{order:?} by {way:?}"
            );
            assert_eq!(rt;
                counts.rollbacks > 100,
                workers > 1,
                "{counts:?} by {way:?}"
            );
            assert_eq!(rt;
                counts.undone >= counts.rollbacks,
                true,
                "{counts:?} by {way:?}"
            );
        }
    }
    Ok(())
}

// A station has room for six jobs: in the run in order there are seven at one at 75 for the first
// time.
#[test]
fn a_fault_is_told_from_its_time_on(rt: HostRuntime) -> Result<(), Fail> {
    assert_alike(&rt, rt.alloc(), queues(6, 1)?, 74)?;
    assert_faults(&rt, rt.alloc(), queues(6, 1)?, 75);
    Ok(())
}

// No job is left to be served, so that a run up to the last time ends.
#[test]
fn a_run_up_to_the_last_time_ends(rt: HostRuntime) -> Result<(), Fail> {
    let empty = RingOptions {
        stations: 3,
        jobs: 0,
        half_life: 3,
        travel: 2,
        room: 0,
        seed: 1,
    };
    let ring = Ring::new(empty).ok_or("no sense")?;
    assert_alike(&rt, rt.alloc(), Choice::Queues(ring), u64::MAX)
}

/// The last time at which a trace has a process, and the last line of all.
fn ends_of<'a>(trace: &'a str, process: &str) -> (Option<&'a str>, &'a str) {
    let mut last = None;
    let mut end = "";
    for line in trace.lines() {
        end = line;
        let mut words = line.split_whitespace();
        if words.next() == Some("run") {
            words.next();
            if words.next() == Some(process) {
                last = words.next();
            }
        }
    }
    (last, end)
}

// Each station serves a job each tick, from 1 on, up to the last tick.
#[test]
fn a_trace_ends_where_the_run_ends(rt: HostRuntime) -> Result<(), Fail> {
    let options = RingOptions {
        stations: 3,
        jobs: 2,
        half_life: 0,
        travel: 0,
        room: 2,
        seed: 1,
    };
    let order = Order {
        choice: Choice::Queues(Ring::new(options).ok_or("no sense")?),
        end: 10,
        way: ahead(2, 3, 1),
        progress: false,
        trace: None,
    };
    let mut out: Vec<u8> = Vec::new(rt.alloc());
    let trace = Trace::new(&rt, &mut out)?;
    let mut watch = Watch::new(ProgressLines::new(&rt, false), Some(trace));
    simulate(&rt, rt.alloc(), &order, &mut watch)?;
    watch.close()?;
    let text = String::from_utf8(out).map_err(|_| "no text")?;
    for process in ["0", "1", "2"] {
        let (last, end) = ends_of(&text, process);
        assert_eq!(rt; last, Some("10"), "{process}");
        assert!(rt; end.starts_with("bound ") && end.ends_with(" 10"), "{end}");
    }
    Ok(())
}
