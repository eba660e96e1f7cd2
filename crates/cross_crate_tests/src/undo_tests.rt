//! Commands to an object over an undo log, beside an object over a chain of packed records: the same replies and the same heaps.
ghost use Rattle.std.specs.Prelude.{◌<◌};

use dym_base::{Handle, Refusal, Version};
use dym_chain::{LogError as ChainError, VecKeep};
use dym_heap::Heap;
use dym_object::Object;
use dym_quota::OwnSupply;
use dym_undo::LogError;
use dym_undo_object::UndoObject;
use std::alloc::{AllocError, Global};
use std::process::Abort;

/// No object runs more commands.
const MOST_COMMANDS: u64 = 100_000;

/// Numbers that look random.
#[derive(Drop)]
struct Numbers {
    state: u64,
}

impl Numbers {
    /// The next number, below `limit`.
    fn below(&mut self, limit: u64) -> u64
        requires { 0 < limit }
        ensures { result < limit }
    {
        self.state ^= self.state << 13;
        self.state ^= self.state >> 7;
        self.state ^= self.state << 17;
        self.state % limit
    }

    /// One of some handles, live or not.
    fn handle(&mut self) -> Handle {
        Handle {
            exp: 5 + self.below(4) as u8,
            index: self.below(5) as u32,
        }
    }

    fn handle_or_nil(&mut self) -> Option<Handle> {
        if self.below(5) == 0 {
            None
        } else {
            Some(self.handle())
        }
    }
}

/// Two objects that run the same commands, at the same time.
struct Pair {
    packed: Object<OwnSupply, VecKeep>,
    undo: UndoObject<OwnSupply>,
    time: u64,
}

fn packed(alloc: Global, version: Version) -> Result<Object<OwnSupply, VecKeep>, AllocError> {
    let keep = VecKeep::open(alloc)?;
    let supply = OwnSupply::open(alloc, 3)?;
    match Object::open_as(alloc, supply, keep, version) {
        Ok(object) => Ok(object),
        Err((error, _, _)) => Err(error),
    }
}

fn undo(alloc: Global, version: Version) -> Result<UndoObject<OwnSupply>, AllocError> {
    let supply = OwnSupply::open(alloc, 3)?;
    match UndoObject::open(alloc, supply, version) {
        Ok(object) => Ok(object),
        Err((error, _)) => Err(error),
    }
}

/// A command that makes, moves or frees chunks. Whether both answer alike.
fn allocates(pair: &mut Pair, numbers: &mut Numbers) -> bool {
    if pair.packed.ran() >= MOST_COMMANDS || pair.undo.ran() >= MOST_COMMANDS {
        return false;
    }
    let len = numbers.below(300);
    match numbers.below(4) {
        0 => pair.packed.malloc(&(), len) == pair.undo.malloc(&(), len),
        1 => pair.packed.calloc(&(), 3, len) == pair.undo.calloc(&(), 3, len),
        2 => {
            let h = numbers.handle_or_nil();
            pair.packed.realloc(&(), h, len) == pair.undo.realloc(&(), h, len)
        }
        _ => {
            let h = numbers.handle_or_nil();
            pair.packed.free(&(), h) == pair.undo.free(&(), h)
        }
    }
}

/// A command that writes. Whether both answer alike.
fn writes(pair: &mut Pair, numbers: &mut Numbers) -> bool {
    if pair.packed.ran() >= MOST_COMMANDS || pair.undo.ran() >= MOST_COMMANDS {
        return false;
    }
    let h = numbers.handle();
    let at = numbers.below(40) as u32;
    let byte = numbers.below(256) as u8;
    match numbers.below(3) {
        0 => {
            let bytes = [byte, 1, byte, 2];
            pair.packed.write(h, at, &bytes) == pair.undo.write(h, at, &bytes)
        }
        1 => {
            let len = numbers.below(30) as u32;
            pair.packed.fill(h, at, len, byte) == pair.undo.fill(h, at, len, byte)
        }
        _ => {
            let to = numbers.handle_or_nil();
            pair.packed.link(h, at, to) == pair.undo.link(h, at, to)
        }
    }
}

/// Both take a log, or refuse it alike.
fn logs(pair: &mut Pair, alloc: Global, full: bool) -> bool {
    if pair.packed.ran() >= MOST_COMMANDS || pair.undo.ran() >= MOST_COMMANDS {
        return false;
    }
    let (packed, undo) = if full {
        (pair.packed.log(alloc, pair.time), pair.undo.log(pair.time))
    } else {
        (
            pair.packed.ilog(alloc, pair.time),
            pair.undo.ilog(pair.time),
        )
    };
    match (packed, undo) {
        (Ok((kind, _)), Ok(other)) => kind == other,
        (Err(ChainError::Refused(why)), Err(LogError::Refused(other))) => why == other,
        _ => false,
    }
}

/// A command about logs. Whether both answer alike.
fn rolls(pair: &mut Pair, numbers: &mut Numbers, alloc: Global) -> bool {
    if pair.packed.ran() >= MOST_COMMANDS || pair.undo.ran() >= MOST_COMMANDS {
        return false;
    }
    let time = pair.time.saturating_sub(numbers.below(9));
    match numbers.below(8) {
        0 => pair.packed.restore(&(), time) == pair.undo.restore(&(), time),
        1 => {
            let undone = pair.undo.restore_before(&(), time);
            match time.checked_sub(1) {
                Some(before) => pair.packed.restore(&(), before) == undone,
                None => undone == Err(Refusal::NoLog),
            }
        }
        2 => pair.packed.prune(time) == pair.undo.prune(time),
        3 => pair.packed.logs() == pair.undo.logs(),
        number => {
            pair.time = pair.time.saturating_add(numbers.below(4));
            logs(pair, alloc, number == 4)
        }
    }
}

/// Whether two heaps have the same chunks.
fn are_same(a: &Heap<OwnSupply>, b: &Heap<OwnSupply>) -> bool {
    let mut last = None;
    for _ in 0..4_095 * 3 {
        let next = a.next_live(last);
        if next != b.next_live(last) {
            return false;
        }
        let Some(h) = next else {
            return a.held() == b.held();
        };
        if a.bytes(h) != b.bytes(h) {
            return false;
        }
        last = next;
    }
    false
}

/// A command. Whether both answer alike.
fn runs(pair: &mut Pair, numbers: &mut Numbers, alloc: Global) -> bool {
    match numbers.below(4) {
        0 => allocates(pair, numbers),
        1 => rolls(pair, numbers, alloc),
        _ => writes(pair, numbers),
    }
}

fn run_both(rt: &impl Abort, pair: &mut Pair, numbers: &mut Numbers, alloc: Global) {
    for step in 0..300 {
        assert!(rt; runs(pair, numbers, alloc), "step {step}");
        assert!(rt;
            are_same(pair.packed.heap(), pair.undo.heap()),
            "after step {step}"
        );
    }
}

fn run_version(rt: &impl Abort, version: Version, alloc: Global) -> Result<(), AllocError> {
    let packed = packed(alloc, version)?;
    let undo = match undo(alloc, version) {
        Ok(undo) => undo,
        Err(error) => {
            packed.end(&());
            return Err(error);
        }
    };
    let mut pair = Pair {
        packed,
        undo,
        time: 1,
    };
    let mut numbers = Numbers { state: 77 };
    run_both(rt, &mut pair, &mut numbers, alloc);
    let Pair {
        packed,
        undo,
        time: _,
    } = pair;
    packed.end(&());
    undo.end(&());
    Ok(())
}

#[test]
fn undo_logs_are_as_chains(rt: HostRuntime) -> Result<(), AllocError> {
    run_version(&rt, Version::One, rt.alloc())?;
    run_version(&rt, Version::Two, rt.alloc())
}
