//! Random calls of an owner, each beside the same of a plain list.
ghost use Rattle.std.specs.Prelude.{◌≡◌, ◌<◌, None, IfOk, length};
ghost use Rattle.dym_heap.specs.Meaning.{IsSound};

use crate::model::Rows;
use crate::random::Random;
use dym_base::Kind;
use dym_base::limits::RECORD_ROOM;
use dym_heap::Heap;
use dym_heap::laws::heaps_are_packable;
use dym_pack::pack;
use dym_quota::OwnSupply;
use dym_slots::Owner;
use std::alloc::{AllocError, Global};

/// The greatest number that a record gets here.
const MOST_MADE: u64 = 1 << 59;

/// How a soak ended.
#[derive(Clone, Copy, PartialEq, Eq)]
pub enum Soaked {
    /// After each call the owner was as the list.
    Same,
    /// After this one it wasn't.
    Differs { call: u64 },
}

/// Makes so many random calls.
pub fn soak(alloc: Global, owner: &mut Owner, seed: u64, calls: u64) -> Result<Soaked, AllocError>
    requires idle { owner.old.lifted ≡ None }
{
    let supply = OwnSupply::open(alloc, 1)?;
    let heap = match Heap::open(alloc, supply) {
        Ok(heap) => heap,
        Err((error, _)) => return Err(error),
    };
    let soaked = soak_over(alloc, &heap, owner, seed, calls);
    heap.end(&());
    soaked
}

/// Makes so many random calls, with records of a heap.
fn soak_over(
    alloc: Global,
    heap: &Heap<OwnSupply>,
    owner: &mut Owner,
    seed: u64,
    calls: u64,
) -> Result<Soaked, AllocError>
    requires sound { IsSound heap.now }
    requires idle { owner.old.lifted ≡ None }
{
    let mut random = Random::new(seed);
    let mut rows = Rows::new(alloc);
    for call in 0..calls {
        let same = make_call(alloc, heap, owner, &mut rows, &mut random)?;
        if !same || !is_same(owner, &rows, &mut random) {
            return Ok(Soaked::Differs { call });
        }
    }
    Ok(Soaked::Same)
}

/// Makes one call, and answers whether its own answer is the list's. A record is put half of the time, until there is no room.
fn make_call(
    alloc: Global,
    heap: &Heap<OwnSupply>,
    owner: &mut Owner,
    rows: &mut Rows,
    random: &mut Random,
) -> Result<bool, AllocError>
    requires sound { IsSound heap.now }
    requires idle { owner.old.lifted ≡ None }
    ensures idle { IfOk result (λ _. owner.new.lifted ≡ None) }
{
    let len = owner.len();
    if len == 0 {
        return put(alloc, heap, owner, rows, random.number());
    }
    let place = random.below(len);
    match random.below(32) {
        0..=15 => put(alloc, heap, owner, rows, random.number()),
        16..=28 => Ok(look(owner, rows, place)),
        29 | 30 => {
            let newest = len - 1 - place % 4.min(len);
            owner.drop_after(newest);
            rows.drop_after(newest);
            Ok(true)
        }
        _ => {
            owner.raise(place);
            rows.raise(place);
            Ok(true)
        }
    }
}

/// Puts a record of a time, where there is room.
fn put(
    alloc: Global,
    heap: &Heap<OwnSupply>,
    owner: &mut Owner,
    rows: &mut Rows,
    time: u64,
) -> Result<bool, AllocError>
    requires sound { IsSound heap.now }
    requires idle { owner.old.lifted ≡ None }
    ensures idle { IfOk result (λ _. owner.new.lifted ≡ None) }
{
    if owner.len() >= RECORD_ROOM || owner.made() >= MOST_MADE {
        return Ok(true);
    }
    heaps_are_packable();
    let rec = pack(alloc, heap, Kind::Full, time)?;
    let number = owner.put(rec);
    Ok(rows.put(time)? == number)
}

/// Takes a record out and brings it back. Whether it is that of the list.
fn look(owner: &mut Owner, rows: &Rows, place: u32) -> bool
    requires place { place < length owner.old.records }
    requires idle { owner.old.lifted ≡ None }
    ensures idle { owner.new.lifted ≡ None }
{
    let rec = owner.lift(place);
    let time = rec.time();
    owner.lower(place, rec);
    rows.time_at(place) == Some(time)
}

/// Whether both have as many records, made as many, and have the same number at a random place.
fn is_same(owner: &Owner, rows: &Rows, random: &mut Random) -> bool {
    let len = owner.len();
    if rows.len() != len as usize || rows.made() != owner.made() {
        return false;
    }
    if len == 0 {
        return true;
    }
    let place = random.below(len);
    rows.number_at(place) == Some(owner.number_at(place))
}
