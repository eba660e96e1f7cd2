//! Jobs of the queues in a ring (`warp_models`), worked out by hand.
use std::test::Fail;
use warp_base::{Draft, Simulation};
use warp_models::{Ring, RingOptions, Station};

/// A job comes to a station.
const ARRIVAL: u64 = 0;

/// A station has served a job.
const DEPARTURE: u64 = 1;

/// Services and ways of one tick.
const OPTIONS: RingOptions = RingOptions {
    stations: 3,
    jobs: 2,
    half_life: 0,
    travel: 0,
    room: 4,
    seed: 1,
};

#[test]
fn a_job_that_was_served_goes_on(rt: HostRuntime) -> Result<(), Fail> {
    let alloc = rt.alloc();
    let ring = Ring::new(OPTIONS).ok_or("no sense")?;
    let mut out = Vec::new(alloc);
    let mut station = ring.start(alloc, 2, &mut out)?;
    assert_eq!(rt; out.len(), 1);
    assert_eq!(rt;
        (out[0].time, out[0].receiver, out[0].kind),
        (1, 2, DEPARTURE)
    );
    let event = out[0].stamp(2, 0);
    out.clear();
    ring.run(alloc, 2, &mut station, &event, &mut out)?;
    assert_eq!(rt; out.len(), 2);
    assert_eq!(rt;
        (out[0].time, out[0].receiver, out[0].kind),
        (2, 0, ARRIVAL)
    );
    assert_eq!(rt;
        (out[1].time, out[1].receiver, out[1].kind),
        (2, 2, DEPARTURE)
    );
    assert_eq!(rt; (station.waiting, station.served), (1, 1));
    Ok(())
}

#[test]
fn an_idle_station_begins_with_the_job_that_comes(rt: HostRuntime) -> Result<(), Fail> {
    let alloc = rt.alloc();
    let ring = Ring::new(OPTIONS).ok_or("no sense")?;
    let mut out = Vec::new(alloc);
    let mut station = Station {
        random: 0,
        waiting: 0,
        served: 7,
    };
    let draft = Draft {
        time: 5,
        priority: 0,
        receiver: 1,
        kind: ARRIVAL,
        payload: (),
    };
    ring.run(alloc, 1, &mut station, &draft.stamp(0, 0), &mut out)?;
    assert_eq!(rt; out.len(), 1);
    assert_eq!(rt;
        (out[0].time, out[0].receiver, out[0].kind),
        (6, 1, DEPARTURE)
    );
    assert_eq!(rt; (station.waiting, station.served), (1, 7));
    out.clear();
    ring.run(alloc, 1, &mut station, &draft.stamp(0, 1), &mut out)?;
    assert_eq!(rt; (out.len(), station.waiting), (0, 2));
    assert!(rt; !ring.is_faulty(&station));
    Ok(())
}
