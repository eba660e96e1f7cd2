//! M/M/1 queues in a ring.
ghost use Rattle.std.specs.Prelude.{◌≡◌, ◌↔◌, ◌++◌, IsSome, IfSome, OnOk};
ghost use Rattle.warp_models.specs.Queues.{IsSensible};
ghost use Rattle.warp_models.specs.Sends.{in_time};

use crate::checksums::{Summed, with_number};
use crate::drafts::send;
use crate::random::{memoryless, mixed, next, seeded};
use std::alloc::{AllocError, Global};
use warp_base::{Draft, Event, Simulation};

/// A job comes to a station.
const ARRIVAL: u64 = 0;

/// A station has served a job.
const DEPARTURE: u64 = 1;

/// What a ring can be told.
#[derive(Clone, Copy, Debug)]
pub struct RingOptions {
    /// How many stations there are.
    pub stations: u32,
    /// How many jobs each station has at the start.
    pub jobs: u64,
    /// The half-life of a service, in ticks: so many are longer than it as are shorter.
    pub half_life: u32,
    /// How many ticks a job travels to the next station, beside the one that each takes.
    pub travel: u32,
    /// How many jobs a station has room for; more are a fault of the model's own.
    pub room: u64,
    /// What random numbers begin with.
    pub seed: u64,
}

/// Stations in a ring, each with one server and a queue before it.
#[derive(Clone, Copy, Debug)]
pub struct Ring {
    pub options: RingOptions,
    ghost sensible: { IsSensible options },
}

/// A station.
#[derive(Clone, Copy, Debug)]
pub struct Station {
    /// The generator of its random numbers.
    pub random: u64,
    /// How many jobs are here, of which one is being served.
    pub waiting: u64,
    /// How many jobs were served.
    pub served: u64,
}

impl Ring {
    ghost use Rattle.warp_models.specs.Queues.{arrival, departure};

    /// The model of these options, if they make sense.
    pub fn new(options: RingOptions) -> Option<Ring>
        ensures exact { IsSome result ↔ IsSensible options }
        ensures same { IfSome result (λ m. m.options ≡ options) }
    {
        if options.stations == 0 {
            return None;
        }
        Some(Ring { options })
    }

    /// A station begins to serve a job, which takes a time drawn from this number.
    fn begin_service(
        &self,
        out: &mut Vec<Draft<()>>,
        process: u32,
        random: u64,
        now: u64,
    ) -> Result<(), AllocError>
        ensures { OnOk result (out.new.items ≡ out.old.items
            ++ in_time (departure self.now.options process random now)) }
    {
        let delay = 1 + memoryless(self.options.half_life, mixed(random));
        let own = process % self.options.stations;
        send(out, now, delay, own, DEPARTURE, ())
    }

    /// A job goes from a station to the next one.
    fn go_on(&self, out: &mut Vec<Draft<()>>, process: u32, now: u64) -> Result<(), AllocError>
        ensures { OnOk result (out.new.items ≡ out.old.items
            ++ in_time (arrival self.now.options process now)) }
    {
        let stations = self.options.stations;
        let delay = 1 + u64::from(self.options.travel);
        let next = (process % stations + 1) % stations;
        send(out, now, delay, next, ARRIVAL, ())
    }
}

impl Simulation for Ring {
    ghost use Rattle.warp_models.specs.Queues.{ring};
    ghost use Rattle.warp_models.specs.QueueLaws.{ring-looks_ahead, ring-starts_within, ring-sends_within};

    type Payload = ();

    type State = Station;

    ghost behaviour = { λ m. ring m.options };

    ghost processes = { λ m. m.options.stations };

    fn processes(&self) -> u32 {
        self.options.stations
    }

    fn start(
        &self,
        _alloc: Global,
        process: u32,
        out: &mut Vec<Draft<()>>,
    ) -> Result<Station, AllocError> {
        let random = next(seeded(self.options.seed, process));
        if process < self.options.stations && self.options.jobs > 0 {
            self.begin_service(out, process, random, 0)?;
        }
        Ok(Station {
            random,
            waiting: self.options.jobs,
            served: 0,
        })
    }

    fn run(
        &self,
        _alloc: Global,
        process: u32,
        state: &mut Station,
        event: &Event<()>,
        out: &mut Vec<Draft<()>>,
    ) -> Result<(), AllocError> {
        let random = next(state.random);
        state.random = random;
        if event.kind == ARRIVAL {
            if state.waiting == 0 {
                self.begin_service(out, process, random, event.time)?;
            }
            state.waiting = state.waiting.wrapping_add(1);
        } else {
            self.go_on(out, process, event.time)?;
            if state.waiting > 1 {
                self.begin_service(out, process, random, event.time)?;
            }
            state.waiting = state.waiting.saturating_sub(1);
            state.served = state.served.wrapping_add(1);
        }
        Ok(())
    }

    fn is_faulty(&self, state: &Station) -> bool {
        self.options.room < state.waiting
    }

    ghost looks_ahead = { λ m. ring-looks_ahead m.options };

    ghost starts_within = { λ m. ring-starts_within m.options };

    ghost sends_within = { λ m. ring-sends_within m.options m.sensible };
}

impl Summed for Station {
    ghost use Rattle.warp_models.specs.Checksums.{station_sum};

    ghost sum = { station_sum };

    fn sum(&self) -> u64 {
        let sum = mixed(self.random).wrapping_add(self.waiting);
        with_number(sum, self.served)
    }
}
