//! What goes out.
ghost use Rattle.std.specs.Prelude.{◌≡◌, ◌+◌, ◌-◌, ◌^◌, ◌<◌, ◌≤◌, ◌++◌, length, take, drop, map, vec_len, vec_capacity};
ghost use Rattle.warp_base.specs.Histories.{stamped};
ghost use Rattle.warp_base.specs.declared.event.Message.TheVariants as Variants;

use warp_base::{Draft, Event, Message};

/// Sends drafts as the events that they are, for which there is room; `serial` events were sent
/// before them.
pub(crate) fn post<P: Copy>(
    number: u32,
    serial: u64,
    drafts: &[Draft<P>],
    sent: &mut Vec<Event<P>>,
    out: &mut Vec<Message<P>>,
)
    requires fits { serial + length drafts.now < 2 ^ 64 }
    requires sent_room { vec_len sent.old + length drafts.now ≤ vec_capacity sent.old }
    requires out_room { vec_len out.old + length drafts.now ≤ vec_capacity out.old }
    ensures sent { sent.new.items ≡ sent.old.items ++ stamped number serial drafts.now }
    ensures out { out.new.items
        ≡ out.old.items ++ map Variants.Event (stamped number serial drafts.now) }
{
    for (i, draft) in drafts.iter().enumerate() {
        let event = draft.stamp(number, serial + i as u64);
        sent.push_reserved(event);
        out.push_reserved(Message::Event(event));
    }
}

/// Takes back all but the first events that were sent: the anti-message of each goes out, for which
/// there is room.
pub(crate) fn take_back<P: Copy>(sent: &mut Vec<Event<P>>, first: usize, out: &mut Vec<Message<P>>)
    requires within { first ≤ vec_len sent.old }
    requires room { vec_len out.old + (vec_len sent.old - first) ≤ vec_capacity out.old }
    ensures sent { sent.new.items ≡ take first sent.old.items }
    ensures out { out.new.items ≡ out.old.items ++ map Variants.Anti (drop first sent.old.items) }
{
    announce(&sent[first..], out);
    sent.truncate(first);
}

/// Puts the anti-messages of events out, for which there is room.
fn announce<P: Copy>(events: &[Event<P>], out: &mut Vec<Message<P>>)
    requires { vec_len out.old + length events.now ≤ vec_capacity out.old }
    ensures { out.new.items ≡ out.old.items ++ map Variants.Anti events.now }
{
    for event in events {
        out.push_reserved(Message::Anti(*event));
    }
}
