//! Events and messages as C has them.
ghost use Rattle.std.specs.Prelude.{◌≡◌, ◌↔◌, IsTrue, ◌∷◌, []};
ghost use Rattle.std.proofs.Common.{ap};
ghost use Rattle.warp_base.specs.Words.{lexically};
ghost use Rattle.dym_c.specs.ProcessMeanings.{data_of};
ghost use Rattle.dym_c.specs.Events.{c_event, event_of_c, draft_of_c, c_message, message_of_c};

use warp_base::{Draft, Event, Message, Payload};

/// What an event carries: four numbers of the model's own.
#[repr(C)]
#[derive(Clone, Copy, Debug)]
pub struct DymData {
    pub first: u64,
    pub second: u64,
    pub third: u64,
    pub fourth: u64,
}

impl Payload for DymData {
    ghost words = { λ d. d.first ∷ d.second ∷ d.third ∷ d.fourth ∷ [] };

    ghost tells_apart = { λ a b same. ap data_of same };

    #[tactic(auto, unfolding(warp_base::specs::Words::lexically))]
    fn is_at_or_before(&self, other: &DymData) -> bool {
        if self.first != other.first {
            return self.first < other.first;
        }
        if self.second != other.second {
            return self.second < other.second;
        }
        if self.third != other.third {
            return self.third < other.third;
        }
        self.fourth <= other.fourth
    }

    fn is_same(&self, other: &DymData) -> bool {
        self.first == other.first
            && self.second == other.second
            && self.third == other.third
            && self.fourth == other.fourth
    }
}

/// An event.
#[repr(C)]
#[derive(Clone, Copy)]
pub struct DymEvent {
    pub time: u64,
    pub priority: u64,
    pub serial: u64,
    pub sender: u32,
    pub receiver: u32,
    pub kind: u64,
    pub payload: DymData,
}

/// An event on its way (0), or its anti-message (1). `mark` is C's own.
#[repr(C)]
#[derive(Clone, Copy)]
pub struct DymMessage {
    pub event: DymEvent,
    pub is_anti: u32,
    pub mark: u32,
}

/// An event, for C.
pub(crate) fn event_for_c(event: &Event<DymData>) -> DymEvent
    ensures { result ≡ c_event event.now }
{
    DymEvent {
        time: event.time,
        priority: event.priority,
        serial: event.serial,
        sender: event.sender,
        receiver: event.receiver,
        kind: event.kind,
        payload: event.payload,
    }
}

/// The event that C hands in.
pub(crate) fn event_from_c(event: &DymEvent) -> Event<DymData>
    ensures { result ≡ event_of_c event.now }
{
    Event {
        time: event.time,
        priority: event.priority,
        sender: event.sender,
        serial: event.serial,
        receiver: event.receiver,
        kind: event.kind,
        payload: event.payload,
    }
}

/// The event that C sends. Its sender and its serial aren't read.
pub(crate) fn draft_from_c(event: &DymEvent) -> Draft<DymData>
    ensures { result ≡ draft_of_c event.now }
{
    Draft {
        time: event.time,
        priority: event.priority,
        receiver: event.receiver,
        kind: event.kind,
        payload: event.payload,
    }
}

/// The message that C hands in, and None where it is neither kind.
pub(crate) fn message_from_c(message: &DymMessage) -> Option<Message<DymData>>
    ensures { result ≡ message_of_c message.now }
{
    match message.is_anti {
        0 => Some(Message::Event(event_from_c(&message.event))),
        1 => Some(Message::Anti(event_from_c(&message.event))),
        _ => None,
    }
}

/// A message, for C.
pub(crate) fn message_for_c(message: &Message<DymData>) -> DymMessage
    ensures { result ≡ c_message message.now }
{
    DymMessage {
        event: event_for_c(&message.event()),
        is_anti: match message {
            Message::Event(_) => 0,
            Message::Anti(_) => 1,
        },
        mark: 0,
    }
}
