//! Calls in the cells of a mobile network (`warp_models`), worked out by hand.
use std::test::Fail;
use warp_base::{Draft, Event, Simulation};
use warp_models::{CellOptions, Cells};

/// A call begins in a cell.
const ARRIVAL: u64 = 0;

/// A call ends.
const END: u64 = 1;

/// A call leaves its cell.
const LEAVE: u64 = 2;

/// A call comes from another cell.
const ENTER: u64 = 3;

const OPTIONS: CellOptions = CellOptions {
    cells: 9,
    width: 3,
    channels: 1,
    interval: 5,
    duration: 50,
    stay: 1,
    seed: 1,
};

/// An event for a cell.
fn event(time: u64, kind: u64, payload: u64) -> Event<u64> {
    Draft {
        time,
        priority: 0,
        receiver: 4,
        kind,
        payload,
    }
    .stamp(4, 0)
}

#[test]
fn a_call_goes_to_a_neighbour(rt: HostRuntime) -> Result<(), Fail> {
    let alloc = rt.alloc();
    let cells = Cells::new(OPTIONS).ok_or("no sense")?;
    let mut out = Vec::new(alloc);
    let mut state = cells.start(alloc, 4, &mut out)?;
    assert_eq!(rt; out.len(), 1);
    assert_eq!(rt; (out[0].receiver, out[0].kind), (4, ARRIVAL));
    out.clear();
    cells.run(alloc, 4, &mut state, &event(3, ENTER, 50), &mut out)?;
    assert_eq!(rt; out.len(), 1);
    assert_eq!(rt;
        (out[0].receiver, out[0].kind, out[0].payload),
        (4, LEAVE, 0)
    );
    assert_eq!(rt; state.busy(), 1);
    out.clear();
    cells.run(alloc, 4, &mut state, &event(5, LEAVE, 0), &mut out)?;
    assert_eq!(rt; out.len(), 1);
    assert_eq!(rt; (out[0].time, out[0].kind), (6, ENTER));
    assert!(rt; [1, 3, 5, 7].contains(&out[0].receiver));
    assert!(rt; out[0].payload > 40);
    assert_eq!(rt; state.busy(), 0);
    assert!(rt; !cells.is_faulty(&state));
    Ok(())
}

#[test]
fn no_channel_is_free(rt: HostRuntime) -> Result<(), Fail> {
    let alloc = rt.alloc();
    let cells = Cells::new(OPTIONS).ok_or("no sense")?;
    let mut out = Vec::new(alloc);
    let mut state = cells.start(alloc, 4, &mut out)?;
    out.clear();
    cells.run(alloc, 4, &mut state, &event(3, ARRIVAL, 0), &mut out)?;
    assert_eq!(rt; out.len(), 2);
    assert_eq!(rt; (out[1].receiver, out[1].kind), (4, ARRIVAL));
    cells.run(alloc, 4, &mut state, &event(3, ARRIVAL, 0), &mut out)?;
    cells.run(alloc, 4, &mut state, &event(3, ENTER, 9), &mut out)?;
    assert_eq!(rt; (out.len(), state.busy()), (3, 1));
    Ok(())
}

#[test]
fn a_call_that_is_not_here_is_a_fault(rt: HostRuntime) -> Result<(), Fail> {
    let alloc = rt.alloc();
    let cells = Cells::new(OPTIONS).ok_or("no sense")?;
    let mut out = Vec::new(alloc);
    for kind in [END, LEAVE, 4] {
        let mut state = cells.start(alloc, 4, &mut out)?;
        out.clear();
        cells.run(alloc, 4, &mut state, &event(3, kind, 0), &mut out)?;
        assert!(rt; out.is_empty());
        assert!(rt; cells.is_faulty(&state), "{kind}");
    }
    let mut state = cells.start(alloc, 4, &mut out)?;
    cells.run(alloc, 4, &mut state, &event(3, ENTER, 1), &mut out)?;
    cells.run(alloc, 4, &mut state, &event(4, END, 0), &mut out)?;
    assert!(rt; !cells.is_faulty(&state));
    Ok(())
}

#[test]
fn options_without_sense(rt: HostRuntime) {
    let senseless = [
        CellOptions {
            cells: 0,
            ..OPTIONS
        },
        CellOptions {
            interval: 0,
            ..OPTIONS
        },
        CellOptions {
            duration: 0,
            ..OPTIONS
        },
        CellOptions { stay: 0, ..OPTIONS },
    ];
    for options in senseless {
        assert!(rt; Cells::new(options).is_none());
    }
}
