//! The state of a cell, and what happens to its calls.
ghost use Rattle.std.specs.Prelude.{◌≡◌, ◌<◌, ◌+◌, ◌%◌, ◌^◌, ◌==◌, IfOk, OnOk, nat_lt, not, filter, length, [], ◌++◌, ◌∷◌};
ghost use Rattle.warp_models.specs.CellStates as definition;
ghost use Rattle.warp_models.specs.Random as numbers;
ghost use Rattle.warp_models.specs.Checksums as sums;

use crate::checksums::{Summed, with_number};
use crate::random::{drawn, mixed};
use std::alloc::{AllocError, Global};
use std::marker::Model;

/// A call in progress.
#[derive(Clone, Copy, Debug)]
pub struct Call {
    /// Which call of the cell it is.
    pub number: u64,
    pub power: u64,
    /// How long it lasts after it leaves the cell; 0 where it ends there.
    pub left: u64,
}

/// The state of a cell.
#[derive(Clone, Debug, Drop)]
pub struct CellState {
    random: u64,
    /// How many calls began or came here.
    begun: u64,
    /// How many calls that began found no free channel.
    blocked: u64,
    /// How many calls that came from another cell found no free channel.
    dropped: u64,
    /// How many calls went to another cell.
    handed: u64,
    /// What is over, mixed.
    noise: u64,
    /// How many events were about a call that isn't here.
    astray: u64,
    /// The calls in progress, the oldest first.
    calls: Vec<Call>,
}

/// Takes the calls of a number out.
fn remove(calls: &mut Vec<Call>, number: u64)
    ensures { calls.new.items ≡ filter (λ (c : Call). not (c.number == number)) calls.old.items }
{
    calls.retain(|call| call.number != number);
}

impl Model for CellState {
    ghost use Rattle.warp_models.specs.CellStates.{CellContents};

    ghost Value = { CellContents };

    ghost view = { λ s. record {
      random = s.random;
      begun = s.begun;
      blocked = s.blocked;
      dropped = s.dropped;
      handed = s.handed;
      noise = s.noise;
      astray = s.astray;
      calls = s.calls.items;
    } };
}

impl CellState {
    /// A cell with no call.
    pub fn new(alloc: Global, random: u64) -> CellState
        ensures { result ≡ record {
          random = random;
          begun = 0;
          blocked = 0;
          dropped = 0;
          handed = 0;
          noise = 0;
          astray = 0;
          calls = [];
        } }
    {
        CellState {
            random,
            begun: 0,
            blocked: 0,
            dropped: 0,
            handed: 0,
            noise: 0,
            astray: 0,
            calls: Vec::new(alloc),
        }
    }

    /// How many calls are in progress.
    pub fn busy(&self) -> usize
        ensures { result ≡ length self.now.calls }
    {
        self.calls.len()
    }

    /// Whether an event was about a call that isn't here.
    pub fn is_astray(&self) -> bool
        ensures { result ≡ nat_lt 0 self.now.astray }
    {
        self.astray > 0
    }

    /// The call of a number.
    pub fn call(&self, number: u64) -> Option<Call>
        ensures { result ≡ definition.call_of number self.now.calls }
    {
        self.calls
            .iter()
            .copied()
            .find(|call| call.number == number)
    }

    /// A random number below a bound.
    pub fn draw(&mut self, bound: u64) -> u64
        requires { 0 < bound }
        ensures value { result ≡ numbers.drawn self.old.random bound }
        ensures state { self.new ≡ definition.drew self.old }
        ensures below { result < bound }
    {
        drawn(&mut self.random, bound)
    }

    /// What the calls send with, together.
    pub fn power(&self) -> u64
        ensures { result ≡ definition.power_of self.now.calls }
    {
        self.calls
            .iter()
            .fold(0, |sum: u64, call| sum.wrapping_add(call.power))
    }

    /// The next call takes a channel; the answer is its number.
    pub fn begin(&mut self, left: u64) -> Result<u64, AllocError>
        ensures number { IfOk result (λ n. n ≡ self.old.begun) }
        ensures state { OnOk result (self.new ≡ definition.joined self.old left) }
    {
        let number = self.begun;
        let mean = self.power() / (self.calls.len() as u64 + 1);
        let power = (1 + drawn(&mut self.random, 100)).wrapping_add(mean);
        self.calls.push(Call {
            number,
            power,
            left,
        })?;
        self.begun = number.wrapping_add(1);
        Ok(number)
    }

    /// A call found no free channel as it began.
    pub fn block(&mut self)
        ensures { self.new ≡ record self.old { blocked = (self.old.blocked + 1) % 2 ^ 64 } }
    {
        self.blocked = self.blocked.wrapping_add(1);
    }

    /// A call found no free channel as it came from another cell.
    pub fn drop_call(&mut self)
        ensures { self.new ≡ record self.old { dropped = (self.old.dropped + 1) % 2 ^ 64 } }
    {
        self.dropped = self.dropped.wrapping_add(1);
    }

    /// A call went to another cell.
    pub fn hand_over(&mut self)
        ensures { self.new ≡ record self.old { handed = (self.old.handed + 1) % 2 ^ 64 } }
    {
        self.handed = self.handed.wrapping_add(1);
    }

    /// An event was about a call that isn't here.
    pub fn lose(&mut self)
        ensures { self.new ≡ definition.lost self.old }
    {
        self.astray = self.astray.wrapping_add(1);
    }

    /// A call is over here.
    pub fn end(&mut self, call: Call)
        ensures { self.new ≡ definition.ended self.old call }
    {
        self.noise = mixed(self.noise ^ call.number).wrapping_add(call.power);
        remove(&mut self.calls, call.number);
    }
}

impl Summed for CellState {
    ghost use Rattle.warp_models.specs.Checksums.{cell_sum};

    ghost sum = { cell_sum };

    fn sum(&self) -> u64 {
        let begun = mixed(mixed(self.random).wrapping_add(self.begun));
        let refused = with_number(begun, self.blocked).wrapping_add(self.dropped);
        let counters = with_number(refused, self.handed).wrapping_add(self.noise);
        self.calls
            .iter()
            .rev()
            .fold(counters, |sum, call| with_call(sum, call))
    }
}

/// A sum with a call more.
fn with_call(sum: u64, call: &Call) -> u64
    ensures { result ≡ sums.with_call sum call.now }
{
    mixed(with_number(sum, call.number).wrapping_add(call.power)) ^ call.left
}
