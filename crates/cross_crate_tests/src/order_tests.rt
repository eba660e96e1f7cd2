//! What the program's call answers where a source or a sink fails, and what a gate sees of its waves, of workers side by side and of steals.
use crate::watch::Watch;
use dym_io::{MemSink, MemSource};
use dymelor_top::dymelor;
use std::alloc::{AllocError, Global};
use std::sync::Wait;
use std::test::Fail;
use std::thread::Threads;

/// More bytes than any answer here has, and more calls than any input has.
const MOST: usize = 1_000;

/// Which call of the source fails, and how much room the sink has.
#[derive(Clone, Copy)]
struct Faults {
    failing: usize,
    room: usize,
}

/// No call fails.
const NO_FAULTS: Faults = Faults {
    failing: MOST,
    room: MOST,
};

/// The status and the bytes that the words give for an input. It comes byte by byte, where a call of the source fails, and the answer goes
/// byte by byte into a sink of so much room.
fn served<R: Threads + Wait + Send + Sync>(
    rt: &R,
    alloc: Global,
    words: &[&str],
    input: &[u8],
    faults: Faults,
    watch: &Watch,
) -> Result<(u8, Vec<u8>), AllocError> {
    let mut list = Vec::new(alloc);
    for word in words {
        list.push(String::from_str(alloc, word)?)?;
    }
    let mut fails = Vec::new(alloc);
    fails.push(faults.failing.min(MOST) as u32)?;
    let mut source = MemSource::new(Vec::from_slice(alloc, input)?, 1, fails);
    let mut sink = MemSink::new(alloc, faults.room, 1, Vec::new(alloc))?;
    let status = dymelor(rt, alloc, &list, &mut source, &mut sink, watch);
    Ok((status, sink.into_bytes()))
}

/// The file of an object `a` of one segment, with one log at time 10 of its empty heap.
const FILE: &[u8] = b"DYMCKPT1\x01a\x01\0\0\0\x01\x01\0\0\0\0\x0d\0\0\0F\x0a\0\0\0\0\0\0\0\0\0\0\0";

/// The words of orders, an input of each, and its answer.
const ORDERS: [(&[&str], &[u8], &[u8], u8); 8] = [
    (
        &["plain"],
        b"object a 1\na malloc 40\n",
        b"object a\nok 64:0\nheap 1 1\n64:0 -\nlogs 0 0\nend\n",
        0,
    ),
    (
        &["run", "--segments", "1"],
        b"object a 1\na malloc 40\n",
        b"object a\nok 64:0\nheap 1 1\n64:0 -\nlogs 0 0\nend\n",
        0,
    ),
    (
        &["views", "--segments", "1"],
        b"object a 1\na malloc 40\n",
        b"object a\nok 64:0\nheap 1 1\n64:0 -\nlogs 0 0\nview none\nend\n",
        0,
    ),
    (
        &["late"],
        b"object a 1\na at 10 malloc 40\na commit 7\n",
        b"object a\nok 64:0\nok\nheap 1 1\n64:0 -\nreplayed 1\nend\n",
        0,
    ),
    (&["save", "a"], b"object a 1\na log 10\n", FILE, 0),
    (&["load"], FILE, b"object a\nheap 0 0\nlogs 1 1\nend\n", 0),
    (&["check"], b"object a 1\na malloc 40\n", b"ok 1 1\n", 0),
    (&["plain"], b"x\n# y\n", b"error line 1: command\n", 2),
];

/// How many calls of the source, also the one that would tell the end, are told of otherwise than by status 3 where they fail.
fn calls_told_otherwise<R: Threads + Wait + Send + Sync>(
    rt: &R,
    alloc: Global,
    words: &[&str],
    input: &[u8],
) -> Result<usize, AllocError> {
    let watch = Watch::new(0, 0);
    let mut otherwise = 0usize;
    for failing in 0..input.len() + 1 {
        let faults = Faults {
            failing,
            room: MOST,
        };
        let (status, bytes) = served(rt, alloc, words, input, faults, &watch)?;
        if status != 3 || !bytes.is_empty() {
            otherwise = otherwise.saturating_add(1);
        }
    }
    Ok(otherwise)
}

/// How many rooms that are too small for the answer are told of otherwise than by status 4 and its front.
fn rooms_told_otherwise<R: Threads + Wait + Send + Sync>(
    rt: &R,
    alloc: Global,
    words: &[&str],
    input: &[u8],
    answer: &[u8],
) -> Result<usize, AllocError> {
    let watch = Watch::new(0, 0);
    let mut otherwise = 0usize;
    for room in 0..answer.len() {
        let faults = Faults {
            failing: MOST,
            room,
        };
        let (status, bytes) = served(rt, alloc, words, input, faults, &watch)?;
        if status != 4 || bytes.as_slice() != &answer[..room] {
            otherwise = otherwise.saturating_add(1);
        }
    }
    Ok(otherwise)
}

/// Each call of the source fails in turn, and the sink has each room that is too small. What follows a bad line is read, too.
#[test]
fn tells_of_calls_that_fail(rt: HostRuntime) -> Result<(), Fail> {
    for (words, input, answer, wanted) in ORDERS {
        let calls = calls_told_otherwise(&rt, rt.alloc(), words, input)?;
        let rooms = rooms_told_otherwise(&rt, rt.alloc(), words, input, answer)?;
        let watch = Watch::new(0, 0);
        let (status, bytes) = served(&rt, rt.alloc(), words, input, NO_FAULTS, &watch)?;
        let is_right = status == wanted && bytes.as_slice() == answer;
        assert!(rt;
            is_right && calls == 0 && rooms == 0,
            "{status}, {calls}, {rooms}"
        );
    }
    Ok(())
}

/// Four objects of two commands each.
const FOUR: &[u8] =
    b"object a 1\nobject b 1\nobject c 1\nobject d 1\na logs\nb logs\nc logs\nd logs\na logs\nb logs\nc logs\nd logs\n";

/// A row is an order, how many segments there are, how many workers are held until worker 1 has entered which object, and how many waves
/// there are. Each of the eight commands is a turn of its own.
#[test]
fn objects_run_in_waves_side_by_side_and_are_stolen(rt: HostRuntime) -> Result<(), Fail> {
    for (order, segments, others, awaited, waves) in [
        ("run", "1", 0, 0, 4),
        ("run", "3", 0, 0, 2),
        ("run", "4", 1, 1, 1),
        ("run", "4", 1, 2, 1),
        ("views", "3", 0, 0, 2),
        ("views", "4", 1, 1, 1),
    ] {
        let watch = Watch::new(others, awaited);
        let words = [
            order,
            "--workers",
            "2",
            "--quantum",
            "1",
            "--segments",
            segments,
        ];
        let (status, _) = served(&rt, rt.alloc(), &words, FOUR, NO_FAULTS, &watch)?;
        assert!(rt;
            status == 0 && watch.seen() == [others, 8, waves],
            "{order}, {segments} segments"
        );
    }
    Ok(())
}

/// To make a script nothing is read.
#[test]
fn reads_nothing_to_make_a_script(rt: HostRuntime) -> Result<(), Fail> {
    let words = ["gen", "7", "1", "4"];
    let faults = Faults {
        failing: 0,
        room: MOST,
    };
    let (status, bytes) = served(&rt, rt.alloc(), &words, b"", faults, &Watch::new(0, 0))?;
    assert!(rt; status == 0 && bytes.starts_with(b"object o0 1\no0 malloc 40\n"));
    Ok(())
}
