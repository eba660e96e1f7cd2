//! A viewer reads the oldest log of an object as it was, sees each commit by the look after it, and looks on beside a publisher.
ghost use Rattle.std.specs.Prelude.{◌≡◌};

use dym_base::{Command, Handle};
use dym_chain::VecKeep;
use dym_object::Object;
use dym_quota::OwnSupply;
use dym_view::{Commit, Glance, Publisher, Seen, Viewer, commit_of, open_view};
use std::alloc::{AllocError, Global};
use std::snapshot::Snapshot;
use std::sync::Wait;
use std::test::Fail;
use std::thread::{Promise, spawn_with};

/// How many commits are published, and how often a viewer looks at most.
const MANY: u64 = 1_001;

const PATIENCE: u64 = 1_000_000;

const CHUNK: Handle = Handle { exp: 6, index: 0 };

fn fill(byte: u8) -> Command {
    Command::Fill {
        h: CHUNK,
        at: 0,
        len: 1,
        byte,
    }
}

/// Runs a command, and says whether memory was there.
fn run(alloc: Global, object: &mut Object<OwnSupply, VecKeep>, command: &Command) -> bool {
    object.ran() < 100 && object.run(&(), alloc, command).is_ok()
}

/// A chunk that begins with a byte, a log of it at a time, and another byte since; whether memory was there.
fn log_chunk(alloc: Global, object: &mut Object<OwnSupply, VecKeep>, time: u64) -> bool {
    run(alloc, object, &Command::Malloc { len: 40 })
        && run(alloc, object, &fill(42))
        && run(alloc, object, &Command::Log { time })
        && run(alloc, object, &fill(7))
}

/// The oldest log of an object that logged its chunk at this time.
fn commit_at(alloc: Global, time: u64) -> Result<Option<Commit>, AllocError> {
    let supply = OwnSupply::open(alloc, 1)?;
    let keep = VecKeep::open(alloc)?;
    let mut object = match Object::open(alloc, supply, keep) {
        Ok(object) => object,
        Err((error, _, _)) => return Err(error),
    };
    let is_logged = log_chunk(alloc, &mut object, time);
    let mut lent = object.lend();
    let commit = commit_of(alloc, &mut lent);
    lent.take_back().end(&());
    if is_logged { commit } else { Err(AllocError) }
}

/// Publishes a commit of this time, where it is later than the last, and answers whether it did.
fn publish_at<R: Wait>(
    publisher: &mut Publisher,
    rt: &R,
    alloc: Global,
    time: u64,
) -> Result<bool, AllocError>
    ensures { publisher.new.history ≡ publisher.old.history }
{
    let Some(commit) = commit_at(alloc, time)? else {
        return Ok(false);
    };
    let count = publisher.tell()?.count();
    let is_later = match publisher.last_time() {
        Some(last) => last < commit.time(),
        None => true,
    };
    if count >= 1 << 60 || !is_later {
        return Ok(false);
    }
    publisher.publish(rt, alloc, commit)?;
    Ok(true)
}

/// The number of what was seen.
fn number_of(glance: Option<Glance>) -> u64 {
    match glance {
        Some(glance) => glance.number,
        None => 0,
    }
}

/// Publishes a commit of each time from 1 on, looks after each, and answers how many of these looks saw the commit just published.
fn publish_and_look<R: Wait>(
    publisher: &mut Publisher,
    viewer: &mut Viewer,
    rt: &R,
    alloc: Global,
) -> Result<u64, AllocError> {
    let mut seen = 0u64;
    for before in 0..MANY {
        let published = publish_at(publisher, rt, alloc, before + 1)?;
        if published && number_of(viewer.look()) == before + 1 {
            seen = seen.saturating_add(1);
        }
    }
    Ok(seen)
}

/// What a viewer reads at the start of the chunk and past its end, and the two bytes then.
fn read(viewer: &mut Viewer) -> (Seen, Seen, [u8; 2]) {
    let mut two = [9, 9];
    let past = viewer.read(CHUNK, 63, &mut two);
    let start = viewer.read(CHUNK, 0, &mut two);
    (start, past, two)
}

#[test]
fn each_commit_is_seen_by_the_look_after_it(rt: HostRuntime) -> Result<(), Fail> {
    let (mut publisher, mut viewer) = open_view(&rt, rt.alloc())?;
    let nothing = read(&mut viewer);
    let seen = publish_and_look(&mut publisher, &mut viewer, &rt, rt.alloc());
    let last = publisher.last();
    publisher.end(&rt);
    let found = read(&mut viewer);
    assert!(rt; nothing == (Seen::Nothing, Seen::Nothing, [9, 9]));
    assert!(rt; seen? == MANY);
    let number = MANY;
    assert!(rt; found == (Seen::Bytes { number }, Seen::Missing { number }, [42, 0]));
    let wanted = Glance {
        number,
        time: MANY,
        chunks: 1,
        total: 42,
    };
    assert!(rt; last == Some(wanted));
    Ok(())
}

/// Publishes a commit of each time from 1 on, and answers whether it published each.
fn publish_all<R: Wait>(
    publisher: &mut Publisher,
    rt: &R,
    alloc: Global,
) -> Result<bool, AllocError>
    ensures { publisher.new.history ≡ publisher.old.history }
{
    let mut all = true;
    for before in 0..MANY {
        all &= publish_at(publisher, rt, alloc, before + 1)?;
    }
    Ok(all)
}

/// Looks until the last commit is seen, and says whether no number fell.
fn look_until(mut viewer: Viewer, last: u64) -> (Viewer, bool)
    ensures { result.0.history ≡ viewer.history }
{
    let mut number = 0;
    let mut rises = true;
    for _ in 0..PATIENCE {
        let seen = number_of(viewer.look());
        rises &= number <= seen;
        number = seen;
        if number == last {
            break;
        }
    }
    (viewer, rises)
}

/// The viewer that comes back is of the same history.
#[derive(Drop)]
struct SameHistory(Snapshot<Viewer>);

impl Promise<(Viewer, bool)> for SameHistory {
    ghost kept_by = { λ p r. r.0.history ≡ p.0.value.history };
}

#[test]
fn a_viewer_looks_on_beside_a_publisher(rt: HostRuntime) -> Result<(), Fail> {
    let (mut publisher, viewer) = open_view(&rt, rt.alloc())?;
    let promise = SameHistory(Snapshot::of(&viewer));
    let Ok(looking) = spawn_with(&rt, promise, move || look_until(viewer, MANY)) else {
        publisher.end(&rt);
        return Err(AllocError.into());
    };
    let published = publish_all(&mut publisher, &rt, rt.alloc());
    let (mut viewer, rises) = looking.join(&rt);
    let told = publisher.tell();
    publisher.end(&rt);
    assert!(rt; published? && rises);
    viewer.learn(told?);
    assert!(rt; number_of(viewer.look()) == MANY);
    Ok(())
}
