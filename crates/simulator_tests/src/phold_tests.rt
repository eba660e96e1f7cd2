//! Hops of PHOLD (`warp_models`), worked out by hand.
use std::alloc::Global;
use std::test::Fail;
use warp_base::Simulation;
use warp_models::{Phold, PholdOptions, PholdState};

/// A job comes to a process.
const JOB: u64 = 0;

const OPTIONS: PholdOptions = PholdOptions {
    processes: 4,
    jobs: 2,
    remote: 0,
    lookahead: 3,
    mean: 5,
    numbers: 3,
    changed: 2,
    work: 1,
    seed: 1,
};

/// A state, whose fields are private, as its Debug writes it.
fn shown(alloc: Global, state: &PholdState) -> Result<String, Fail> {
    Ok(format!(in alloc; "{state:?}")?)
}

#[test]
fn a_job_that_stays_changes_the_state(rt: HostRuntime) -> Result<(), Fail> {
    let alloc = rt.alloc();
    let phold = Phold::new(OPTIONS).ok_or("no sense")?;
    let mut out = Vec::new(alloc);
    let mut state = phold.start(alloc, 3, &mut out)?;
    assert_eq!(rt; out.len(), 2);
    assert_eq!(rt; (out[1].receiver, out[1].kind, out[1].payload), (3, JOB, 1));
    assert!(rt; shown(alloc, &state)?.ends_with("events: 0, worked: 0, numbers: [0, 0, 0] }"));
    let event = out[1].stamp(3, 1);
    out.clear();
    phold.run(alloc, 3, &mut state, &event, &mut out)?;
    assert_eq!(rt; out.len(), 1);
    assert_eq!(rt; (out[0].receiver, out[0].payload), (3, 1));
    assert!(rt; out[0].time >= event.time.saturating_add(4));
    assert!(rt; shown(alloc, &state)?.ends_with("events: 1, worked: 0, numbers: [1, 2, 0] }"));
    assert!(rt; !phold.is_faulty(&state));
    Ok(())
}

/// Where a process's first job goes to at its first hop.
fn first_hop(alloc: Global, options: PholdOptions, process: u32) -> Result<u32, Fail> {
    let phold = Phold::new(options).ok_or("no sense")?;
    let mut out = Vec::new(alloc);
    let mut state = phold.start(alloc, process, &mut out)?;
    let first = out.first().copied().ok_or("no job")?;
    out.clear();
    phold.run(
        alloc,
        process,
        &mut state,
        &first.stamp(process, 0),
        &mut out,
    )?;
    let hop = out.first().copied().ok_or("no hop")?;
    Ok(hop.receiver)
}

#[test]
fn a_job_that_goes_away_goes_to_another_process(rt: HostRuntime) -> Result<(), Fail> {
    let alloc = rt.alloc();
    let options = PholdOptions {
        remote: 1000,
        ..OPTIONS
    };
    for process in 0..4 {
        let receiver = first_hop(alloc, options, process)?;
        assert!(rt; receiver != process && receiver < 4);
    }
    let alone = PholdOptions {
        processes: 1,
        ..options
    };
    assert_eq!(rt; first_hop(alloc, alone, 0)?, 0);
    Ok(())
}

#[test]
fn options_without_sense(rt: HostRuntime) {
    let senseless = [
        PholdOptions {
            processes: 0,
            ..OPTIONS
        },
        PholdOptions { mean: 0, ..OPTIONS },
        PholdOptions {
            remote: 1001,
            ..OPTIONS
        },
        PholdOptions {
            changed: 4,
            ..OPTIONS
        },
    ];
    for options in senseless {
        assert!(rt; Phold::new(options).is_none());
    }
}
