//! Events, the drafts of which they are made, and messages.
ghost use Rattle.std.specs.Prelude.{◌≡◌, ◌↔◌, IsTrue};
ghost use Rattle.warp_base.specs.Events.{precedes};
ghost use Rattle.warp_base.specs.Histories.{stamp};
ghost use Rattle.warp_base.specs.Messages.{event_of};

use crate::payload::Payload;

/// What a process is to do at a time.
///
/// Events are in the order of their fields from top to bottom, but for `receiver`, which stands
/// behind `serial`, and the payload, which goes by its words.
#[derive(Clone, Copy, Debug)]
pub struct Event<P> {
    /// The simulation time, in ticks.
    pub time: u64,
    /// Which of several events at one time is first: the least. It is the model's to choose.
    pub priority: u64,
    /// The process that sent the event.
    pub sender: u32,
    /// How many events the sender had sent before this one, in the history that stands.
    pub serial: u64,
    /// The process that runs the event.
    pub receiver: u32,
    /// What the event is, in the model's own numbers.
    pub kind: u64,
    pub payload: P,
}

/// An event that a model asks to be sent. Its sender and its serial are the simulator's to fill in.
#[derive(Clone, Copy, Debug)]
pub struct Draft<P> {
    pub time: u64,
    pub priority: u64,
    pub receiver: u32,
    pub kind: u64,
    pub payload: P,
}

/// An event on its way, or an anti-message, which takes such an event back.
#[derive(Clone, Copy, Debug)]
pub enum Message<P> {
    Event(Event<P>),
    Anti(Event<P>),
}

impl<P: Payload> Event<P> {
    /// Whether this event is at or before another in the order of keys.
    #[tactic(auto, unfolding(crate::specs::Words::lexically))]
    pub fn is_at_or_before(&self, other: &Event<P>) -> bool
        ensures { result ≡ precedes P.words self.now other.now }
    {
        if self.time != other.time {
            return self.time < other.time;
        }
        if self.priority != other.priority {
            return self.priority < other.priority;
        }
        if self.sender != other.sender {
            return self.sender < other.sender;
        }
        if self.serial != other.serial {
            return self.serial < other.serial;
        }
        if self.receiver != other.receiver {
            return self.receiver < other.receiver;
        }
        if self.kind != other.kind {
            return self.kind < other.kind;
        }
        self.payload.is_at_or_before(&other.payload)
    }

    /// Whether two events are one in all fields.
    pub fn is_same(&self, other: &Event<P>) -> bool
        ensures { IsTrue result ↔ (self.now ≡ other.now) }
    {
        self.time == other.time
            && self.priority == other.priority
            && self.sender == other.sender
            && self.serial == other.serial
            && self.receiver == other.receiver
            && self.kind == other.kind
            && self.payload.is_same(&other.payload)
    }
}

impl<P: Copy> Draft<P> {
    /// The draft as the event that `sender` sends, which has sent `serial` events before.
    pub fn stamp(&self, sender: u32, serial: u64) -> Event<P>
        ensures { result ≡ stamp sender serial self.now }
    {
        Event {
            time: self.time,
            priority: self.priority,
            sender,
            serial,
            receiver: self.receiver,
            kind: self.kind,
            payload: self.payload,
        }
    }
}

impl<P: Copy> Message<P> {
    /// The event that the message sends or takes back.
    pub fn event(&self) -> Event<P>
        ensures { result ≡ event_of self.now }
    {
        match self {
            Message::Event(event) | Message::Anti(event) => *event,
        }
    }
}
