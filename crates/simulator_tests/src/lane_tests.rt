//! Rounds of lanes over threads (`warp_threads`), beside the same orders in one thread.
ghost use Rattle.std.specs.Prelude.{◌≤◌};

use std::alloc::{AllocError, Global};
use std::sync::Wait;
use std::test::Fail;
use std::thread::Threads;
use warp_threads::{Driver, Lane, Workers, with_workers};

const ROUNDS: u64 = 1_000;

/// The sum of its orders, and a number that tells in which order they came.
#[derive(Debug, PartialEq, Eq, Drop)]
struct Total {
    sum: u64,
    mixed: u64,
}

fn total_of(start: u64) -> Total {
    Total {
        sum: start,
        mixed: start,
    }
}

impl Lane<u64> for Total {
    ghost use Rattle.std.specs.Prelude.{◌≡◌, ◌+◌, ◌%◌, ◌^◌};

    ghost can_advance = { λ order lane. Unit {0} };

    ghost advances = { λ order old new. new.sum ≡ (old.sum + order) % 2 ^ 64 };

    fn advance(&mut self, order: &u64) {
        self.sum = self.sum.wrapping_add(*order);
        self.mixed = self.mixed.wrapping_mul(31).wrapping_add(*order);
    }
}

/// Rounds in which lane i has the order r + i in round r.
#[derive(Drop)]
struct CountingRounds {
    lanes: Vec<Total>,
}

impl Driver<u64, Total> for CountingRounds {
    type Outcome = Vec<Total>;

    ghost use Rattle.std.specs.Prelude.{◌≡◌, ◌≤◌, vec_len};

    ghost can_drive = { λ driver. vec_len driver.lanes ≤ 4 };

    ghost drives = { λ driver outcome. vec_len outcome ≡ vec_len driver.lanes };

    fn drive<R: Wait>(self, rt: &R, workers: &mut Workers<u64, Total>) -> Vec<Total> {
        let mut lanes = self.lanes;
        for round in 0..ROUNDS {
            let orders = [round, round + 1, round + 2, round + 3];
            let count = lanes.len();
            workers.round(rt, &mut lanes, &orders[..count]);
        }
        lanes
    }
}

/// What one thread makes of the same orders.
fn in_order(lane: u64) -> Total {
    let mut total = total_of(lane);
    for round in 0..ROUNDS {
        total.advance(&round.wrapping_add(lane));
    }
    total
}

/// So many lanes after all rounds, over so many threads: lane i begins with the sum i.
fn counted<R: Threads + Wait + Sync>(
    rt: &R,
    alloc: Global,
    count: u64,
    threads: usize,
) -> Result<Vec<Total>, AllocError>
    requires { count ≤ 4 }
{
    let mut lanes = Vec::new(alloc);
    for lane in 0..count {
        lanes.push(total_of(lane))?;
    }
    Ok(with_workers(rt, alloc, threads, CountingRounds { lanes })?)
}

#[test]
fn no_lane(rt: HostRuntime) -> Result<(), Fail> {
    assert_eq!(rt; counted(&rt, rt.alloc(), 0, 1)?.len(), 0);
    Ok(())
}

#[test]
fn one_lane_without_a_thread(rt: HostRuntime) -> Result<(), Fail> {
    let lanes = counted(&rt, rt.alloc(), 1, 0)?;
    assert_eq!(rt; lanes.as_slice(), [in_order(0)].as_slice());
    assert_eq!(rt; in_order(0).sum, 499_500);
    Ok(())
}

#[test]
fn two_lanes(rt: HostRuntime) -> Result<(), Fail> {
    let lanes = counted(&rt, rt.alloc(), 2, 1)?;
    assert_eq!(rt; lanes.as_slice(), [in_order(0), in_order(1)].as_slice());
    Ok(())
}

#[test]
fn four_lanes(rt: HostRuntime) -> Result<(), Fail> {
    let lanes = counted(&rt, rt.alloc(), 4, 3)?;
    let expected = [in_order(0), in_order(1), in_order(2), in_order(3)];
    assert_eq!(rt; lanes.as_slice(), expected.as_slice());
    assert_eq!(rt; expected[3].sum, 3 + 499_500 + 3_000);
    Ok(())
}

#[test]
fn fewer_lanes_than_threads(rt: HostRuntime) -> Result<(), Fail> {
    let lanes = counted(&rt, rt.alloc(), 2, 3)?;
    assert_eq!(rt; lanes.as_slice(), [in_order(0), in_order(1)].as_slice());
    Ok(())
}

/// An order that refers to what all lanes read.
#[derive(Clone, Copy)]
struct Weights<'a> {
    by_digit: &'a [u64; 10],
    number: u64,
}

impl<'a> Lane<Weights<'a>> for Total {
    ghost use Rattle.std.specs.Prelude.{◌≡◌, ◌+◌, ◌%◌, ◌^◌, slice_index};

    ghost can_advance = { λ order lane. Unit {0} };

    ghost advances = { λ order old new.
        new.sum ≡ (old.sum + slice_index order.by_digit.now (order.number % 10)) % 2 ^ 64 };

    fn advance(&mut self, order: &Weights<'a>) {
        let digit = (order.number % 10) as usize;
        self.sum = self.sum.wrapping_add(order.by_digit[digit]);
        self.mixed = self.mixed.wrapping_mul(31).wrapping_add(order.number);
    }
}

/// One round in which lane i has the order i.
#[derive(Drop)]
struct WeighedRound<'a> {
    by_digit: &'a [u64; 10],
    lanes: Vec<Total>,
}

impl<'a> Driver<Weights<'a>, Total> for WeighedRound<'a> {
    type Outcome = Vec<Total>;

    ghost use Rattle.std.specs.Prelude.{◌≡◌, vec_len};

    ghost can_drive = { λ driver. vec_len driver.lanes ≡ 2 };

    ghost drives = { λ driver outcome. vec_len outcome ≡ 2 };

    fn drive<R: Wait>(self, rt: &R, workers: &mut Workers<Weights<'a>, Total>) -> Vec<Total> {
        let WeighedRound {
            by_digit,
            mut lanes,
        } = self;
        let orders = [
            Weights {
                by_digit,
                number: 0,
            },
            Weights {
                by_digit,
                number: 1,
            },
        ];
        workers.round(rt, &mut lanes, &orders);
        lanes
    }
}

#[test]
fn orders_may_refer_to_what_all_lanes_read(rt: HostRuntime) -> Result<(), Fail> {
    let by_digit = [10, 11, 12, 13, 14, 15, 16, 17, 18, 19];
    let mut lanes = Vec::new(rt.alloc());
    lanes.push(total_of(0))?;
    lanes.push(total_of(100))?;
    let driver = WeighedRound {
        by_digit: &by_digit,
        lanes,
    };
    let lanes = with_workers(&rt, rt.alloc(), 1, driver)?;
    assert_eq!(rt; lanes.len(), 2);
    assert_eq!(rt; lanes[0].sum, 10);
    assert_eq!(rt; lanes[1].sum, 111);
    Ok(())
}
