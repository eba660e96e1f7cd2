//! Events in the order of their keys (`warp_base`).
use warp_base::{Draft, Event, Message};

const FIRST: Event<u64> = Event {
    time: 5,
    priority: 5,
    sender: 5,
    serial: 5,
    receiver: 5,
    kind: 5,
    payload: 5,
};

// Each event differs from the first one in one field, in which it is less: the field's place
// in the key decides, whatever the fields behind it say.
#[test]
fn events_are_in_the_order_of_their_keys(rt: HostRuntime) {
    let high = Event {
        time: 5,
        priority: 9,
        sender: 9,
        serial: 9,
        receiver: 9,
        kind: 9,
        payload: 9,
    };
    let in_order = [
        Event { time: 4, ..high },
        Event {
            priority: 4,
            ..high
        },
        Event {
            priority: 5,
            sender: 4,
            ..high
        },
        Event {
            priority: 5,
            sender: 5,
            serial: 4,
            ..high
        },
        Event {
            receiver: 4,
            kind: 9,
            payload: 9,
            ..FIRST
        },
        Event {
            kind: 4,
            payload: 9,
            ..FIRST
        },
        Event {
            payload: 4,
            ..FIRST
        },
        FIRST,
    ];
    for (i, one) in in_order.iter().enumerate() {
        for (j, other) in in_order.iter().enumerate() {
            assert_eq!(rt; one.is_at_or_before(other), i <= j, "{i} and {j}");
            assert_eq!(rt; one.is_same(other), i == j, "{i} and {j}");
        }
    }
}

#[test]
fn a_draft_becomes_an_event(rt: HostRuntime) {
    let draft = Draft {
        time: 7,
        priority: 1,
        receiver: 3,
        kind: 2,
        payload: (),
    };
    let event = draft.stamp(4, 9);
    assert_eq!(rt; event.sender, 4);
    assert_eq!(rt; event.serial, 9);
    assert_eq!(rt; event.receiver, 3);
    assert!(rt; Message::Anti(event).event().is_same(&event));
    assert!(rt; event.is_at_or_before(&Message::Event(event).event()));
}
