//! PHOLD, the benchmark of the field: jobs that hop among processes.
ghost use Rattle.std.specs.Prelude.{◌≡◌, ◌↔◌, ◌<◌, ◌≤◌, ◌+◌, ◌*◌, ◌++◌, IsSome, IfSome, OnOk};
ghost use Rattle.warp_models.specs.Phold as definition;
ghost use Rattle.warp_models.specs.Random as numbers;

use crate::checksums::{Summed, with_number};
use crate::drafts::send;
use crate::random::{drawn, mixed, seeded};
use std::alloc::{AllocError, Global};
use std::marker::Model;
use warp_base::{Draft, Event, Simulation};

/// A job comes to a process: the only kind of event.
const JOB: u64 = 0;

/// What a PHOLD can be told.
#[derive(Clone, Copy, Debug)]
pub struct PholdOptions {
    /// How many processes there are.
    pub processes: u32,
    /// How many jobs each process has at the start.
    pub jobs: u32,
    /// Of 1,000 hops, how many go to another process.
    pub remote: u32,
    /// The least delay of a hop, beside the one tick that each takes.
    pub lookahead: u32,
    /// The mean of what is random of a delay.
    pub mean: u32,
    /// How many numbers of 64 bits a state has beside its counters.
    pub numbers: u32,
    /// How many of them an event changes.
    pub changed: u32,
    /// How many turns of arithmetic an event takes.
    pub work: u32,
    /// What random numbers begin with.
    pub seed: u64,
}

/// Jobs hop among processes: an event changes the state, and sends the job on.
#[derive(Clone, Copy, Debug)]
pub struct Phold {
    pub options: PholdOptions,
    ghost sensible: { definition.IsSensible options },
}

/// The state of a process.
#[derive(Clone, Debug, Drop)]
pub struct PholdState {
    random: u64,
    events: u64,
    worked: u64,
    numbers: Vec<u64>,
}

impl Model for PholdState {
    ghost use Rattle.warp_models.specs.PholdStates.{PholdContents};

    ghost Value = { PholdContents };

    ghost view = { λ s. record {
      random = s.random;
      events = s.events;
      worked = s.worked;
      numbers = s.numbers.items;
    } };
}

impl Summed for PholdState {
    ghost use Rattle.warp_models.specs.Checksums.{phold_sum};

    ghost sum = { phold_sum };

    fn sum(&self) -> u64 {
        let counters = mixed(mixed(self.random).wrapping_add(self.events)) ^ self.worked;
        self.numbers
            .iter()
            .fold(counters, |sum, number| with_number(sum, *number))
    }
}

/// Turns of arithmetic.
#[tactic(auto, unfolding(crate::specs::Phold::worked))]
fn worked(from: u64, turns: u32) -> u64
    ensures { result ≡ definition.worked from turns }
{
    let mut number = from;
    for k in 0..turns {
        number = mixed(number.wrapping_add(u64::from(k)));
    }
    number
}

/// Changes the first numbers by a job; there are so many.
fn change(numbers: &mut Vec<u64>, count: u32, job: u64)
    ensures { numbers.new.items ≡ definition.changed job count 0 numbers.old.items }
{
    let count = numbers.len().min(count as usize);
    for k in 0..count {
        let by = job.wrapping_add(k as u64);
        numbers[k] = numbers[k].wrapping_mul(5).wrapping_add(by);
    }
}

impl Phold {
    /// The model of these options, if they make sense.
    pub fn new(options: PholdOptions) -> Option<Phold>
        ensures exact { IsSome result ↔ definition.IsSensible options }
        ensures same { IfSome result (λ m. m.options ≡ options) }
    {
        if options.processes == 0 || options.mean == 0 {
            return None;
        }
        if options.remote > 1000 || options.changed > options.numbers {
            return None;
        }
        Some(Phold { options })
    }

    /// The process that a job goes to from here.
    fn receiver(&self, process: u32, random: &mut u64) -> u32
        ensures to { result ≡ definition.receiver self.now.options process random.old }
        ensures random { random.new ≡ definition.after_receiver self.now.options random.old }
    {
        let processes = self.options.processes;
        if processes == 1 || drawn(random, 1000) >= u64::from(self.options.remote) {
            return process % processes;
        }
        let other = drawn(random, u64::from(processes) - 1);
        ((u64::from(process) + 1 + other) % u64::from(processes)) as u32
    }

    /// How long a hop takes beyond the lookahead that a model owes.
    fn delay(&self, random: &mut u64) -> u64
        ensures delay { result ≡ 1 + self.now.options.lookahead
            + numbers.drawn random.old (2 * self.now.options.mean) }
        ensures random { random.new ≡ numbers.next random.old }
    {
        let least = 1 + u64::from(self.options.lookahead);
        least + drawn(random, 2 * u64::from(self.options.mean))
    }

    /// Sends the jobs that a process has at the start.
    fn send_first_jobs(
        &self,
        process: u32,
        random: u64,
        out: &mut Vec<Draft<u64>>,
    ) -> Result<(), AllocError>
        requires { random ≡ numbers.seeded self.now.options.seed process }
        ensures { OnOk result (out.new.items ≡ out.old.items
            ++ definition.first_jobs self.now.options process self.now.options.jobs) }
    {
        let mut random = mixed(random);
        for job in 0..self.options.jobs {
            out.push(Draft {
                time: 1 + drawn(&mut random, 2 * u64::from(self.options.mean)),
                priority: 0,
                receiver: process % self.options.processes,
                kind: JOB,
                payload: u64::from(job),
            })?;
        }
        Ok(())
    }
}

impl Simulation for Phold {
    ghost use Rattle.warp_models.specs.Phold.{phold};
    ghost use Rattle.warp_models.specs.PholdLaws.{phold-looks_ahead, phold-starts_within, phold-sends_within};

    type Payload = u64;

    type State = PholdState;

    ghost behaviour = { λ m. phold m.options };

    ghost processes = { λ m. m.options.processes };

    fn processes(&self) -> u32 {
        self.options.processes
    }

    fn start(
        &self,
        alloc: Global,
        process: u32,
        out: &mut Vec<Draft<u64>>,
    ) -> Result<PholdState, AllocError> {
        let random = seeded(self.options.seed, process);
        if process < self.options.processes {
            self.send_first_jobs(process, random, out)?;
        }
        Ok(PholdState {
            random,
            events: 0,
            worked: 0,
            numbers: vec![in alloc; 0; self.options.numbers as usize]?,
        })
    }

    fn run(
        &self,
        _alloc: Global,
        process: u32,
        state: &mut PholdState,
        event: &Event<u64>,
        out: &mut Vec<Draft<u64>>,
    ) -> Result<(), AllocError> {
        let options = &self.options;
        let mut random = mixed(state.random ^ event.time).wrapping_add(event.payload);
        let receiver = self.receiver(process, &mut random);
        let delay = self.delay(&mut random);
        send(out, event.time, delay, receiver, JOB, event.payload)?;
        state.random = random;
        state.events = state.events.wrapping_add(1);
        state.worked = worked(state.worked, options.work);
        change(&mut state.numbers, options.changed, event.payload);
        Ok(())
    }

    fn is_faulty(&self, _state: &PholdState) -> bool {
        false
    }

    ghost looks_ahead = { λ m. phold-looks_ahead m.options };

    ghost starts_within = { λ m. phold-starts_within m.options };

    ghost sends_within = { λ m. phold-sends_within m.options m.sensible.0 };
}
