//! Places in the order of the times.
ghost use Rattle.std.specs.Prelude.{◌≡◌, ◌≤◌, length};
ghost use Rattle.dym_base.specs.LateRun.{events_to, events_before};
ghost use Rattle.dym_late.specs.Orders.{IsOrder};
ghost use Rattle.dym_late.specs.Timelines.{late_events};

use crate::event::Event;

/// How many events have a time at or before this one: in the order of the times they are the first ones.
pub(crate) fn count_to(events: &[Event], order: &[u32], time: u64) -> usize
    requires { IsOrder (late_events events.now) order.now }
    ensures count { result ≡ events_to time (late_events events.now) }
    ensures within { result ≤ length events.now }
{
    let mut low = 0;
    let mut high = order.len();
    while low < high {
        let middle = low + (high - low) / 2;
        let event = &events[order[middle] as usize];
        if event.time <= time {
            low = middle + 1;
        } else {
            high = middle;
        }
    }
    low
}

/// How many events have a time before this one.
pub(crate) fn count_before(events: &[Event], order: &[u32], time: u64) -> usize
    requires { IsOrder (late_events events.now) order.now }
    ensures count { result ≡ events_before time (late_events events.now) }
    ensures within { result ≤ length events.now }
{
    if time == 0 {
        return 0;
    }
    count_to(events, order, time - 1)
}
