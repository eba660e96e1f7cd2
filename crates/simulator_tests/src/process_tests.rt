//! Messages in every order for a process with a model (`warp_process`), beside the run in order.
ghost use Rattle.std.specs.Prelude.{◌≡◌, [], ◌∷◌, ◌+◌, ◌*◌, ◌%◌, ◌==◌, IfOk, List};
ghost use Rattle.warp_base.specs.declared.event.Event.{Event};
ghost use Rattle.std.proofs.Common.{rules};
ghost use Rattle.warp_process.specs.Processes.{face, IsProcess};

use std::alloc::{AllocError, Global};
use std::process::Abort;
use std::test::Fail;
use warp_base::{Draft, Event, Message, Simulation};
use warp_process::{Copied, Process, RunError, TakeError, WholeCopies};

/// Each event mixes its kind into the state, and sends what the state was. A state of 38 is a fault.
struct Mixer;

impl Simulation for Mixer {
    type Payload = ();

    type State = u64;

    ghost behaviour = { λ _. record {
      start = λ p. p;
      firsts = λ p. [];
      after = λ p s e. s % 1000003 * 31 + e.kind % 1000;
      drafts = λ p s e. record { time = e.time + 3; priority = 0; receiver = 1; kind = s; payload = e.payload } ∷ [];
      faulty = λ s. s == 38;
    } };

    ghost processes = { λ _. 2 };

    ghost looks_ahead = { λ model p s e. Prim.search rules };

    ghost starts_within = { λ model p more. Prim.search rules };

    ghost sends_within = { λ model. record { firsts = λ p. Prim.search rules; drafts = λ p s e. Prim.search rules } };

    fn processes(&self) -> u32 {
        2
    }

    fn start(
        &self,
        _alloc: Global,
        process: u32,
        _out: &mut Vec<Draft<()>>,
    ) -> Result<u64, AllocError> {
        Ok(process as u64)
    }

    fn run(
        &self,
        _alloc: Global,
        _process: u32,
        state: &mut u64,
        event: &Event<()>,
        out: &mut Vec<Draft<()>>,
    ) -> Result<(), AllocError> {
        let Some(time) = event.time.checked_add(3) else {
            return Err(AllocError);
        };
        out.push(Draft {
            time,
            priority: 0,
            receiver: 1,
            kind: *state,
            payload: event.payload,
        })?;
        *state = *state % 1_000_003 * 31 + event.kind % 1000;
        Ok(())
    }

    fn is_faulty(&self, state: &u64) -> bool {
        *state == 38
    }
}

/// A process in its model's first state.
fn open<M: Simulation>(
    alloc: Global,
    model: &M,
    number: u32,
    period: u64,
    out: &mut Vec<Message<M::Payload>>,
) -> Result<Process<M::Payload, WholeCopies<M::State>>, AllocError>
where
    M::State: Copied,
    ensures { IfOk result (λ p. (past : List (Event M.Payload)) × IsProcess M.Payload.words
        (M.behaviour model.now) past (face (λ k. k.state) (λ k. k.copies.items) p)) }
{
    let mut drafts = Vec::new(alloc);
    let state = model.start(alloc, number, &mut drafts)?;
    let is_faulty = model.is_faulty(&state);
    Process::open(
        alloc,
        number,
        period,
        WholeCopies::new(alloc, state),
        is_faulty,
        &drafts,
        out,
    )
}

/// Runs the next events, this many at most.
fn run_some<M: Simulation>(
    alloc: Global,
    model: &M,
    process: &mut Process<M::Payload, WholeCopies<M::State>>,
    most: usize,
    out: &mut Vec<Message<M::Payload>>,
) -> Result<(), RunError>
where
    M::State: Copied,
    requires { (past : List (Event M.Payload)) × IsProcess M.Payload.words (M.behaviour model.now)
        past (face (λ k. k.state) (λ k. k.copies.items) process.old) }
    ensures { (past : List (Event M.Payload)) × IsProcess M.Payload.words (M.behaviour model.now)
        past (face (λ k. k.state) (λ k. k.copies.items) process.new) }
{
    for _ in 0..most {
        if process.next_event().is_none() {
            return Ok(());
        }
        process.run_next(alloc, model, out)?;
    }
    Ok(())
}

/// Takes a message for the process.
fn take_one<M: Simulation>(
    rt: &impl Abort,
    _model: &M,
    process: &mut Process<M::Payload, WholeCopies<M::State>>,
    message: Message<M::Payload>,
    out: &mut Vec<Message<M::Payload>>,
) -> Result<(), TakeError>
where
    M::State: Copied,
    requires { (past : List (Event M.Payload)) × IsProcess M.Payload.words (M.behaviour _model.now)
        past (face (λ k. k.state) (λ k. k.copies.items) process.old) }
    ensures { (past : List (Event M.Payload)) × IsProcess M.Payload.words (M.behaviour _model.now)
        past (face (λ k. k.state) (λ k. k.copies.items) process.new) }
{
    assert_eq!(rt; message.event().receiver, process.number());
    process.take(message, out)
}

/// Commits all up to a time, up to which all is settled.
fn commit_until<M: Simulation>(
    rt: &impl Abort,
    _model: &M,
    process: &mut Process<M::Payload, WholeCopies<M::State>>,
    last: u64,
    committed: &mut Vec<Event<M::Payload>>,
) -> Result<(), AllocError>
where
    M::State: Copied,
    requires { (past : List (Event M.Payload)) × IsProcess M.Payload.words (M.behaviour _model.now)
        past (face (λ k. k.state) (λ k. k.copies.items) process.old) }
    ensures { (past : List (Event M.Payload)) × IsProcess M.Payload.words (M.behaviour _model.now)
        past (face (λ k. k.state) (λ k. k.copies.items) process.new) }
{
    assert!(rt; process.is_settled(last));
    assert!(rt; !process.is_committed(last));
    process.commit(last, committed)
}

/// Takes messages in the order of a number, and runs at most so many events after each.
fn deliver<M: Simulation>(
    rt: &impl Abort,
    alloc: Global,
    model: &M,
    process: &mut Process<M::Payload, WholeCopies<M::State>>,
    messages: Vec<Message<M::Payload>>,
    order: usize,
    most: usize,
    out: &mut Vec<Message<M::Payload>>,
) -> Result<(), Fail>
where
    M::State: Copied,
    requires { (past : List (Event M.Payload)) × IsProcess M.Payload.words (M.behaviour model.now)
        past (face (λ k. k.state) (λ k. k.copies.items) process.old) }
    ensures { (past : List (Event M.Payload)) × IsProcess M.Payload.words (M.behaviour model.now)
        past (face (λ k. k.state) (λ k. k.copies.items) process.new) }
{
    let mut left = messages;
    let mut order = order;
    for count in (1..=left.len()).rev() {
        let place = order % count;
        order /= count;
        assert!(rt; place < left.len());
        let message = left.remove(place);
        take_one(rt, model, process, message, out)?;
        run_some(alloc, model, process, most, out)?;
    }
    Ok(())
}

/// An event for process 1, which carries nothing.
fn event(time: u64, serial: u64, kind: u64) -> Event<()> {
    Event {
        time,
        priority: 0,
        sender: 0,
        serial,
        receiver: 1,
        kind,
        payload: (),
    }
}

/// The events that are sent and not taken back, in the order of the messages.
fn standing(
    rt: &impl Abort,
    alloc: Global,
    messages: &[Message<()>],
) -> Result<Vec<Event<()>>, AllocError> {
    let mut events = Vec::new(alloc);
    for message in messages {
        match message {
            Message::Event(event) => events.push(*event)?,
            Message::Anti(event) => {
                let place = events
                    .iter()
                    .position(|other: &Event<()>| other.is_same(event));
                let place = place.expect(rt, "an anti-message follows its event");
                assert!(rt; place < events.len());
                events.remove(place);
            }
        }
    }
    Ok(events)
}

// Process 1 takes three events, one more, and the anti-message of that one, in each of the 120
// orders, and runs none, one or all of its events after each message. Two of the events are at one
// time.
#[test]
fn every_order_ends_as_the_run_in_order(rt: HostRuntime) -> Result<(), Fail> {
    let alloc = rt.alloc();
    let events = [event(10, 0, 7), event(20, 1, 8), event(20, 2, 9)];
    let gone = event(15, 3, 4);
    // By hand: 1 * 31 + 7, 38 * 31 + 8, 1186 * 31 + 9.
    let sent = [(13, 1), (23, 38), (23, 1186)];
    for order in 0..120 {
        for most in [0, 1, 5] {
            let mut messages = Vec::new(alloc);
            for event in &events {
                messages.push(Message::Event(*event))?;
            }
            messages.push(Message::Event(gone))?;
            messages.push(Message::Anti(gone))?;
            let mut out = Vec::new(alloc);
            let mut process = open(alloc, &Mixer, 1, most as u64, &mut out)?;
            deliver(
                &rt,
                alloc,
                &Mixer,
                &mut process,
                messages,
                order,
                most,
                &mut out,
            )?;
            run_some(alloc, &Mixer, &mut process, 5, &mut out)?;
            assert_eq!(rt; *process.state(), 36775, "order {order}, {most} at a time");
            assert!(rt; !process.is_stale());
            let posted = standing(&rt, alloc, &out)?;
            assert_eq!(rt; posted.len(), 3, "order {order}, {most} at a time");
            for (i, (event, (time, kind))) in posted.iter().zip(sent.iter()).enumerate() {
                let stamped = Event {
                    time: *time,
                    priority: 0,
                    sender: 1,
                    serial: i as u64,
                    receiver: 1,
                    kind: *kind,
                    payload: (),
                };
                assert!(rt;
                    event.is_same(&stamped),
                    "order {order}, {most} at a time, {i}"
                );
            }
        }
    }
    Ok(())
}

/// Process 1, which has taken these messages and run its events.
fn having_run<M: Simulation>(
    rt: &impl Abort,
    alloc: Global,
    model: &M,
    period: u64,
    messages: Vec<Message<M::Payload>>,
    out: &mut Vec<Message<M::Payload>>,
) -> Result<Process<M::Payload, WholeCopies<M::State>>, Fail>
where
    M::State: Copied,
    ensures { IfOk result (λ p. (past : List (Event M.Payload)) × IsProcess M.Payload.words
        (M.behaviour model.now) past (face (λ k. k.state) (λ k. k.copies.items) p)) }
{
    let most = messages.len();
    let mut process = open(alloc, model, 1, period, out)?;
    deliver(rt, alloc, model, &mut process, messages, 0, most, out)?;
    Ok(process)
}

/// Three events for process 1, the first of which makes its state a fault.
fn three_events(alloc: Global) -> Result<Vec<Message<()>>, AllocError> {
    let mut messages = Vec::new(alloc);
    for event in [event(10, 0, 7), event(20, 1, 8), event(30, 2, 9)] {
        messages.push(Message::Event(event))?;
    }
    Ok(messages)
}

// A commit hands out the events up to its time and refuses what comes for them; a straggler behind it
// rolls back to a copy that is left, whatever the period.
#[test]
fn a_commit_leaves_what_a_rollback_needs(rt: HostRuntime) -> Result<(), Fail> {
    let alloc = rt.alloc();
    for period in [0, 1, 2, 5] {
        for (last, gone) in [(9, 0), (10, 1), (19, 1), (20, 2)] {
            let mut out = Vec::new(alloc);
            let mut committed = Vec::new(alloc);
            let mut process = having_run(
                &rt,
                alloc,
                &Mixer,
                period,
                three_events(alloc)?,
                &mut out,
            )?;
            commit_until(&rt, &Mixer, &mut process, last, &mut committed)?;
            assert_eq!(rt; committed.len(), gone, "at {last}");
            let late = event(last, 3, 4);
            let taken = take_one(&rt, &Mixer, &mut process, Message::Event(late), &mut out);
            assert_eq!(rt; taken, Err(TakeError::Committed), "at {last}");
            let taken = take_one(&rt, &Mixer, &mut process, Message::Anti(late), &mut out);
            assert_eq!(rt; taken, Err(TakeError::Committed), "at {last}");
            let straggler = Message::Event(event(25, 3, 4));
            take_one(&rt, &Mixer, &mut process, straggler, &mut out)?;
            assert!(rt; process.is_stale());
            run_some(alloc, &Mixer, &mut process, 9, &mut out)?;
            // By hand: 1186 * 31 + 4, 36770 * 31 + 9.
            assert_eq!(rt; *process.state(), 1_139_879, "period {period}, at {last}");
            commit_until(&rt, &Mixer, &mut process, u64::MAX, &mut committed)?;
            let times = [10, 20, 25, 30];
            assert_eq!(rt; committed.len(), 4);
            for (event, time) in committed.iter().zip(times.iter()) {
                assert_eq!(rt; event.time, *time);
            }
            assert!(rt; process.next_event().is_none());
            assert_eq!(rt; standing(&rt, alloc, &out)?.len(), 4);
        }
    }
    Ok(())
}

// The model finds no memory for the event at the last time: it stays the next one, nothing goes out,
// and the state can be brought forward again.
#[test]
fn an_error_leaves_the_event_to_be_run(rt: HostRuntime) -> Result<(), Fail> {
    let alloc = rt.alloc();
    let mut out = Vec::new(alloc);
    let mut process = having_run(&rt, alloc, &Mixer, 2, three_events(alloc)?, &mut out)?;
    let sent = out.len();
    let last = Message::Event(event(u64::MAX, 3, 4));
    take_one(&rt, &Mixer, &mut process, last, &mut out)?;
    let ran = run_some(alloc, &Mixer, &mut process, 1, &mut out);
    assert_eq!(rt; ran, Err(RunError::Memory));
    assert!(rt; process.is_stale());
    assert_eq!(rt; out.len(), sent);
    let next = process
        .next_event()
        .expect(&rt, "the event is to be run still");
    assert_eq!(rt; next.time, u64::MAX);
    process.catch_up(alloc, &Mixer)?;
    assert_eq!(rt; *process.state(), 36775);
    Ok(())
}

/// Whether the process has failed in what is committed.
fn has_failed<M: Simulation>(
    model: &M,
    process: &Process<M::Payload, WholeCopies<M::State>>,
) -> bool
where
    M::State: Copied,
    requires { (past : List (Event M.Payload)) × IsProcess M.Payload.words (M.behaviour model.now)
        past (face (λ k. k.state) (λ k. k.copies.items) process.now) }
{
    let _ = model;
    process.has_failed()
}

// The state after the first event is a fault: it is told of the process once it is committed.
#[test]
fn a_fault_counts_once_it_is_committed(rt: HostRuntime) -> Result<(), Fail> {
    let alloc = rt.alloc();
    let mut out = Vec::new(alloc);
    let mut committed = Vec::new(alloc);
    let mut process = having_run(&rt, alloc, &Mixer, 1, three_events(alloc)?, &mut out)?;
    assert_eq!(rt; process.fault(), Some(1));
    commit_until(&rt, &Mixer, &mut process, 9, &mut committed)?;
    assert!(rt; !has_failed(&Mixer, &process));
    commit_until(&rt, &Mixer, &mut process, 10, &mut committed)?;
    assert!(rt; has_failed(&Mixer, &process));
    Ok(())
}

// A straggler before the first event undoes the fault: the state is another then.
#[test]
fn a_fault_that_is_undone_is_forgotten(rt: HostRuntime) -> Result<(), Fail> {
    let alloc = rt.alloc();
    let mut out = Vec::new(alloc);
    let mut committed = Vec::new(alloc);
    let mut process = having_run(&rt, alloc, &Mixer, 1, three_events(alloc)?, &mut out)?;
    let straggler = Message::Event(event(5, 3, 0));
    take_one(&rt, &Mixer, &mut process, straggler, &mut out)?;
    assert_eq!(rt; process.fault(), None);
    run_some(alloc, &Mixer, &mut process, 4, &mut out)?;
    assert_eq!(rt; process.fault(), None);
    commit_until(&rt, &Mixer, &mut process, u64::MAX, &mut committed)?;
    assert!(rt; !has_failed(&Mixer, &process));
    Ok(())
}
