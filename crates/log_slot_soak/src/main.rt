//! A soak of the log slots: an owner makes random calls in one thread while a pruner sweeps in
//! another, and after each call the owner is compared with a plain list.
//!
//! Its words are a seed and a number of calls. That the two are the same is proved for every
//! schedule; this looks whether the built program keeps to it.
#![tactic(auto)]

ghost use Rattle.std.specs.Prelude.{◌≡◌, None};

mod calls;
mod model;
mod random;

use crate::calls::{Soaked, soak};
use dym_prune::{Asker, Ear, Stop, pruner};
use dym_slots::{LogSlots, Owner, Sweeper};
use std::alloc::{AllocError, Global};
use std::process::ExitCode;
use std::rt::Env;
use std::sync::Wait;
use std::thread::{self, Threads};
use std::{env, io};

/// What the program is asked: the seed, and how many calls the owner makes.
#[derive(Clone, Copy)]
struct Asked {
    seed: u64,
    calls: u64,
}

/// The words, where they are two numbers.
fn read_words<R: Env + AllocGlobal>(rt: &R) -> io::Result<Option<Asked>> {
    let words = env::args(rt)?.skip(1).collect::<Vec<String>>(rt.alloc())?;
    let [seed, calls] = words.as_slice() else {
        return Ok(None);
    };
    let (Ok(seed), Ok(calls)) = (seed.as_str().parse::<u64>(), calls.as_str().parse::<u64>()) else {
        return Ok(None);
    };
    Ok(Some(Asked { seed, calls }))
}

/// Makes the owner's calls, and then asks for the stop.
fn owned(
    alloc: Global,
    mut owner: Owner,
    mut asker: Asker,
    asked: Asked,
) -> Result<Soaked, AllocError>
    requires idle { owner.lifted ≡ None }
{
    let soaked = soak(alloc, &mut owner, asked.seed, asked.calls);
    asker.ask();
    soaked
}

/// How many records the pruner took back.
fn swept<R: Wait>(rt: &R, sweeper: Sweeper, mut ear: Ear) -> u64 {
    let mut sweepers = [sweeper];
    pruner(rt, &mut sweepers, &mut ear)
}

/// Soaks, and answers how it ended and how many records the pruner took back.
fn run_soak<R: Wait + Threads>(
    rt: &R,
    alloc: Global,
    asked: Asked,
) -> Result<(Soaked, u64), AllocError> {
    let (asker, ear) = Stop::open(alloc)?;
    let (owner, sweeper) = LogSlots::open(alloc)?;
    let (soaked, taken) = thread::join(
        rt,
        || owned(alloc, owner, asker, asked),
        || swept(rt, sweeper, ear),
    );
    Ok((soaked?, taken))
}

fn main(rt: HostRuntime) -> io::Result<ExitCode> {
    let Some(asked) = read_words(&rt)? else {
        println!(rt; "usage: SEED CALLS")?;
        return Ok(ExitCode::from(1));
    };
    let Asked { seed, calls } = asked;
    match run_soak(&rt, rt.alloc(), asked) {
        Ok((Soaked::Same, taken)) => {
            println!(rt; "seed {seed}: the same after each of {calls} calls")?;
            eprintln!(rt; "taken back: {taken}")?;
            Ok(ExitCode::SUCCESS)
        }
        Ok((Soaked::Differs { call }, _)) => {
            println!(rt; "seed {seed}: another after call {call}")?;
            Ok(ExitCode::from(2))
        }
        Err(_) => {
            println!(rt; "there is no memory")?;
            Ok(ExitCode::from(5))
        }
    }
}
