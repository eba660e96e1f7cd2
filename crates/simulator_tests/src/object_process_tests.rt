//! Messages in every order for a process over an object (`warp_object`), beside the run in order.
ghost use Rattle.std.specs.Prelude.{◌≡◌, [], ◌∷◌, IfOk};
ghost use Rattle.warp_object.specs.Processes.{IsRecorded};

use dym_base::limits::COUNT_LIMIT;
use dym_base::{Handle, Version};
use dym_quota::FixedSupply;
use dym_undo_object::UndoObject;
use std::alloc::{AllocError, Global};
use std::process::Abort;
use std::test::Fail;
use warp_base::{Draft, Event, Message};
use warp_object::{
    BeginError, CommitError, EndError, ObjectProcess, OpenError, SendError, TakeError,
};

/// An object that gives all its memory back where it is dropped.
struct State {
    object: UndoObject<FixedSupply>,
}

impl Drop for State {
    fn drop(self) {
        let State { object } = self;
        object.end(&()).close();
    }
}

/// An object of one segment, without a chunk.
fn opened(alloc: Global) -> Result<State, AllocError> {
    let supply = FixedSupply::open(alloc, 1)?;
    match UndoObject::open(alloc, supply, Version::Two) {
        Ok(object) => Ok(State { object }),
        Err((error, supply)) => {
            supply.close();
            Err(error)
        }
    }
}

/// A fresh chunk with a number.
fn numbered(
    rt: &impl Abort,
    object: &mut UndoObject<FixedSupply>,
    number: u64,
) -> Result<Handle, Fail> {
    assert!(rt; object.ran() < COUNT_LIMIT);
    let h = object.malloc(&(), 8)?;
    set_number(rt, object, h, number)?;
    Ok(h)
}

/// The number that stands in a chunk.
fn number_in(
    rt: &impl Abort,
    object: &mut UndoObject<FixedSupply>,
    h: Handle,
) -> Result<u64, Fail> {
    assert!(rt; object.ran() < COUNT_LIMIT);
    let mut bytes = [0; 8];
    object.read(h, 0, &mut bytes)?;
    Ok(u64::from_le_bytes(bytes))
}

/// Puts a number into a chunk.
fn set_number(
    rt: &impl Abort,
    object: &mut UndoObject<FixedSupply>,
    h: Handle,
    number: u64,
) -> Result<(), Fail> {
    assert!(rt; object.ran() < COUNT_LIMIT);
    object.write(h, 0, &number.to_le_bytes())?;
    Ok(())
}

/// Frees a chunk.
fn free(rt: &impl Abort, object: &mut UndoObject<FixedSupply>, h: Handle) -> Result<(), Fail> {
    assert!(rt; object.ran() < COUNT_LIMIT);
    object.free(&(), Some(h))?;
    Ok(())
}

/// An event for process 1.
fn event(time: u64, serial: u64, kind: u64) -> Event<u64> {
    Event {
        time,
        priority: 0,
        sender: 7,
        serial,
        receiver: 1,
        kind,
        payload: 0,
    }
}

/// An event that is to be sent to process 1.
fn draft(time: u64, kind: u64) -> Draft<u64> {
    Draft {
        time,
        priority: 0,
        receiver: 1,
        kind,
        payload: 0,
    }
}

/// A process with what it stands on.
#[derive(Drop)]
struct Bench {
    process: ObjectProcess<u64>,
    state: State,
    /// The chunk that has its number.
    chunk: Handle,
    out: Vec<Message<u64>>,
}

/// Process 1 of two, whose number is 1.
fn prepared(rt: &impl Abort, alloc: Global, period: u64) -> Result<Bench, Fail>
    ensures { IfOk result (λ bench. IsRecorded (λ w. w ∷ []) bench.process) }
{
    let mut state = opened(alloc)?;
    let chunk = numbered(rt, &mut state.object, 1)?;
    let mut out = Vec::new(alloc);
    let process = ObjectProcess::open(alloc, 1, 2, period, &mut state.object, &[], &mut out)?;
    Ok(Bench {
        process,
        state,
        chunk,
        out,
    })
}

impl Bench {
    /// Runs one event that is handed out: its kind is mixed into the number, and it sends what the number was. A chunk is made and freed
    /// beside.
    fn run_one(&mut self, rt: &impl Abort, event: &Event<u64>) -> Result<(), Fail>
        requires { IsRecorded (λ w. w ∷ []) self.old.process }
        ensures { IsRecorded (λ w. w ∷ []) self.new.process }
    {
        let number = number_in(rt, &mut self.state.object, self.chunk)?;
        let beside = numbered(rt, &mut self.state.object, number)?;
        self.process
            .send(draft(event.time.saturating_add(3), number))?;
        let next = number % 1_000_003 * 31 + event.kind % 1000;
        set_number(rt, &mut self.state.object, self.chunk, next)?;
        if event.kind % 2 == 0 {
            free(rt, &mut self.state.object, beside)?;
        }
        self.process.end(&self.state.object, &mut self.out)?;
        Ok(())
    }

    /// Runs the next events, this many at most; the answer is how many were run before.
    fn run_some(&mut self, rt: &impl Abort, most: usize) -> Result<usize, Fail>
        requires { IsRecorded (λ w. w ∷ []) self.old.process }
        ensures { IsRecorded (λ w. w ∷ []) self.new.process }
    {
        let mut replayed = 0;
        for handed_out in 0..1000 {
            if handed_out - replayed == most {
                return Ok(replayed);
            }
            let Some(given) = self.process.begin(&mut self.state.object)? else {
                return Ok(replayed);
            };
            self.run_one(rt, &given.event)?;
            if given.is_replayed {
                replayed += 1;
            }
        }
        Ok(replayed)
    }

    /// Takes messages in the order of a number, and runs at most so many events after each.
    fn deliver(
        &mut self,
        rt: &impl Abort,
        messages: Vec<Message<u64>>,
        order: usize,
        most: usize,
    ) -> Result<(), Fail>
        requires { IsRecorded (λ w. w ∷ []) self.old.process }
        ensures { IsRecorded (λ w. w ∷ []) self.new.process }
    {
        let mut left = messages;
        let mut order = order;
        for count in (1..=left.len()).rev() {
            let place = order % count;
            order /= count;
            assert!(rt; place < left.len());
            let message = left.remove(place);
            self.process.take(message, &mut self.out)?;
            self.run_some(rt, most)?;
        }
        Ok(())
    }

    /// The number.
    fn number(&mut self, rt: &impl Abort) -> Result<u64, Fail>
        ensures { self.new.process ≡ self.old.process }
    {
        number_in(rt, &mut self.state.object, self.chunk)
    }
}

/// The events that are sent and not taken back, in the order of the messages.
fn standing(
    rt: &impl Abort,
    alloc: Global,
    messages: &[Message<u64>],
) -> Result<Vec<Event<u64>>, AllocError> {
    let mut events = Vec::new(alloc);
    for message in messages {
        match message {
            Message::Event(event) => events.push(*event)?,
            Message::Anti(event) => {
                let place = events
                    .iter()
                    .position(|other: &Event<u64>| other.is_same(event));
                let place = place.expect(rt, "an anti-message follows its event");
                assert!(rt; place < events.len());
                events.remove(place);
            }
        }
    }
    Ok(events)
}

// Process 1 takes three events, one more, and the anti-message of that one, in each of the 120
// orders, and runs none, two or all of its events after each message, with logs at periods of 1 to 7
// events. Two of the events are at one time.
#[test]
fn every_order_ends_as_the_run_in_order(rt: HostRuntime) -> Result<(), Fail> {
    let alloc = rt.alloc();
    let events = [event(10, 0, 7), event(20, 1, 8), event(20, 2, 9)];
    let gone = event(15, 3, 4);
    // By hand: 1 * 31 + 7, 38 * 31 + 8, 1186 * 31 + 9.
    let sent = [(13, 1), (23, 38), (23, 1186)];
    for order in 0..120 {
        let most = order % 3 * 2;
        let period = 1 + order as u64 % 4 * 2;
        let mut messages = Vec::new(alloc);
        for event in &events {
            messages.push(Message::Event(*event))?;
        }
        messages.push(Message::Event(gone))?;
        messages.push(Message::Anti(gone))?;
        let mut bench = prepared(&rt, alloc, period)?;
        bench.deliver(&rt, messages, order, most)?;
        bench.run_some(&rt, 9)?;
        assert_eq!(rt;
            bench.number(&rt)?,
            36775,
            "order {order}, {most} at a time"
        );
        let posted = standing(&rt, alloc, &bench.out)?;
        assert_eq!(rt; posted.len(), 3, "order {order}, {most} at a time");
        for (i, (event, (time, kind))) in posted.iter().zip(sent.iter()).enumerate() {
            let stamped = draft(*time, *kind).stamp(1, i as u64);
            assert!(rt;
                event.is_same(&stamped),
                "order {order}, {most} at a time, {i}"
            );
        }
    }
    Ok(())
}

/// Process 1, which has run three events.
fn having_run(rt: &impl Abort, alloc: Global, period: u64) -> Result<Bench, Fail>
    ensures { IfOk result (λ bench. IsRecorded (λ w. w ∷ []) bench.process) }
{
    let mut bench = prepared(rt, alloc, period)?;
    for event in [event(10, 0, 7), event(20, 1, 8), event(30, 2, 9)] {
        bench.process.take(Message::Event(event), &mut bench.out)?;
    }
    assert_eq!(rt; bench.run_some(rt, 9)?, 0);
    Ok(bench)
}

// A rollback hands out again what was run since the newest log that stands, and no more; a straggler in
// the midst of that is no harm.
#[test]
fn a_rollback_replays_from_the_newest_log(rt: HostRuntime) -> Result<(), Fail> {
    let alloc = rt.alloc();
    for (period, replayed) in [(0, 0), (1, 0), (2, 0), (3, 2), (5, 2)] {
        let mut bench = having_run(&rt, alloc, period)?;
        let late = Message::Event(event(25, 3, 4));
        bench.process.take(late, &mut bench.out)?;
        assert_eq!(rt; bench.run_some(&rt, 9)?, replayed, "period {period}");
        // By hand: 1186 * 31 + 4, 36770 * 31 + 9.
        assert_eq!(rt; bench.number(&rt)?, 1_139_879, "period {period}");
    }
    let mut bench = having_run(&rt, alloc, 9)?;
    let late = Message::Event(event(25, 3, 4));
    bench.process.take(late, &mut bench.out)?;
    let given = bench.process.begin(&mut bench.state.object)?;
    let given = given.expect(&rt, "an event is replayed");
    assert!(rt; given.is_replayed);
    bench.run_one(&rt, &given.event)?;
    let late = Message::Event(event(15, 4, 5));
    bench.process.take(late, &mut bench.out)?;
    assert_eq!(rt; bench.run_some(&rt, 9)?, 0);
    // By hand: 38 * 31 + 5, 1183 * 31 + 8, 36681 * 31 + 4, 137109 % 1000003 ..
    assert_eq!(rt; standing(&rt, alloc, &bench.out)?.len(), 5);
    Ok(())
}

// Where the last event is taken back, nothing is left to be run, and the object is brought to what is.
#[test]
fn the_last_event_may_be_taken_back(rt: HostRuntime) -> Result<(), Fail> {
    let alloc = rt.alloc();
    let mut bench = having_run(&rt, alloc, 9)?;
    let last = Message::Anti(event(30, 2, 9));
    bench.process.take(last, &mut bench.out)?;
    assert!(rt; bench.process.next_event().is_none());
    assert_eq!(rt; bench.run_some(&rt, 9)?, 2);
    assert_eq!(rt; bench.number(&rt)?, 1186);
    Ok(())
}

// Replays alone are handed out by a call of their own: the next event stays.
#[test]
fn replays_are_handed_out_without_the_next_event(rt: HostRuntime) -> Result<(), Fail> {
    let alloc = rt.alloc();
    let mut bench = having_run(&rt, alloc, 9)?;
    assert_eq!(rt; (bench.process.date(), bench.process.replays()), (3, 0));
    let late = Message::Event(event(25, 3, 4));
    bench.process.take(late, &mut bench.out)?;
    assert_eq!(rt; (bench.process.date(), bench.process.replays()), (2, 2));
    for left in (0..2).rev() {
        let given = bench.process.begin_replay(&mut bench.state.object)?;
        let given = given.expect(&rt, "an event is replayed");
        bench.run_one(&rt, &given)?;
        assert_eq!(rt; bench.process.replays(), left);
    }
    assert!(rt;
        bench
            .process
            .begin_replay(&mut bench.state.object)?
            .is_none()
    );
    assert_eq!(rt; bench.number(&rt)?, 1186);
    assert_eq!(rt; bench.process.newest_log(), 0);
    bench.process.set_period(2);
    assert_eq!(rt; bench.run_some(&rt, 1)?, 0);
    assert_eq!(rt; bench.process.newest_log(), 0);
    assert_eq!(rt; bench.run_some(&rt, 1)?, 0);
    assert_eq!(rt; bench.process.newest_log(), 3);
    // By hand: 1186 * 31 + 4, 36770 * 31 + 9.
    assert_eq!(rt; bench.number(&rt)?, 1_139_879);
    Ok(())
}

// A commit hands out the events up to its time and refuses what comes for them; a straggler behind it
// rolls back to a log that is left, whatever the period.
#[test]
fn a_commit_leaves_what_a_rollback_needs(rt: HostRuntime) -> Result<(), Fail> {
    let alloc = rt.alloc();
    for period in [0, 1, 2, 5] {
        for (last, gone) in [(9, 0), (10, 1), (19, 1), (20, 2)] {
            let mut bench = having_run(&rt, alloc, period)?;
            let mut committed = Vec::new(alloc);
            bench
                .process
                .commit(&mut bench.state.object, last, &mut committed)?;
            assert_eq!(rt; committed.len(), gone, "at {last}");
            let late = event(last, 3, 4);
            let taken = bench.process.take(Message::Event(late), &mut bench.out);
            assert_eq!(rt; taken, Err(TakeError::Committed), "at {last}");
            let taken = bench.process.take(Message::Anti(late), &mut bench.out);
            assert_eq!(rt; taken, Err(TakeError::Committed), "at {last}");
            let straggler = Message::Event(event(25, 3, 4));
            bench.process.take(straggler, &mut bench.out)?;
            bench.run_some(&rt, 9)?;
            assert_eq!(rt; bench.number(&rt)?, 1_139_879, "period {period}, at {last}");
            bench
                .process
                .commit(&mut bench.state.object, u64::MAX, &mut committed)?;
            let times = [10, 20, 25, 30];
            assert_eq!(rt; committed.len(), 4);
            for (event, time) in committed.iter().zip(times.iter()) {
                assert_eq!(rt; event.time, *time);
            }
            let backward = bench
                .process
                .commit(&mut bench.state.object, last, &mut committed);
            assert_eq!(rt; backward, Err(CommitError::Backward));
            assert!(rt; bench.process.next_event().is_none());
            assert_eq!(rt; standing(&rt, alloc, &bench.out)?.len(), 4);
        }
    }
    Ok(())
}

// What doesn't fit is refused, and changes nothing.
#[test]
fn what_does_not_fit_is_refused(rt: HostRuntime) -> Result<(), Fail> {
    let alloc = rt.alloc();
    let mut bench = prepared(&rt, alloc, 1)?;
    let first = Message::Event(event(10, 0, 7));
    assert_eq!(rt; bench.process.send(draft(5, 0)), Err(SendError::Idle));
    assert_eq!(rt;
        bench.process.end(&bench.state.object, &mut bench.out),
        Err(EndError::Idle)
    );
    bench.process.take(first, &mut bench.out)?;
    let elsewhere = Message::Anti(Event {
        receiver: 0,
        ..event(10, 0, 7)
    });
    let taken = bench.process.take(elsewhere, &mut bench.out);
    assert_eq!(rt; taken, Err(TakeError::Elsewhere));
    let given = bench.process.begin(&mut bench.state.object)?;
    let given = given.expect(&rt, "an event is to be run");
    assert!(rt; !given.is_replayed);
    let begun = bench
        .process
        .begin(&mut bench.state.object)
        .map(|given| given.is_none());
    assert_eq!(rt; begun, Err(BeginError::Open));
    assert_eq!(rt;
        bench.process.take(first, &mut bench.out),
        Err(TakeError::Open)
    );
    assert_eq!(rt; bench.process.send(draft(10, 0)), Err(SendError::NotLater));
    let beyond = Draft {
        receiver: 2,
        ..draft(11, 0)
    };
    assert_eq!(rt; bench.process.send(beyond), Err(SendError::NoProcess));
    let mut committed = Vec::new(alloc);
    let commit = bench
        .process
        .commit(&mut bench.state.object, 9, &mut committed);
    assert_eq!(rt; commit, Err(CommitError::Open));
    bench.process.end(&bench.state.object, &mut bench.out)?;
    assert!(rt; bench.out.is_empty());
    let again = ObjectProcess::open(
        alloc,
        1,
        2,
        1,
        &mut bench.state.object,
        &[draft(4, 0)],
        &mut bench.out,
    );
    assert_eq!(rt; again.map(|_| ()), Err(OpenError::Logged));
    let mut state = opened(alloc)?;
    let mut out = Vec::new(alloc);
    let opened = ObjectProcess::open(alloc, 1, 1, 1, &mut state.object, &[draft(4, 0)], &mut out);
    assert_eq!(rt; opened.map(|_| ()), Err(OpenError::NoProcess));
    assert!(rt; out.is_empty());
    let opened = ObjectProcess::open(alloc, 1, 2, 1, &mut state.object, &[draft(4, 0)], &mut out)?;
    assert_eq!(rt; opened.number(), 1);
    assert_eq!(rt; out.len(), 1);
    Ok(())
}
