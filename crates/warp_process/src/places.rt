//! Places in lists.
ghost use Rattle.std.specs.Prelude.{◌≡◌, ◌+◌, ◌≤◌, ◌++◌, suc, ◌↔◌, IsTrue, false, Some, IfSome, IfNone, slice_get, length, take, drop, vec_len, vec_capacity};
ghost use Rattle.warp_base.specs.Events.{Each, precedes, copies, IsBefore, IsInOrder, AreFrom};

use std::alloc::AllocError;
use warp_base::{Event, Payload};

/// The place of an event in a list in order: how many events are before it, by a binary search.
pub(crate) fn find_place<P: Payload>(events: &[Event<P>], event: &Event<P>) -> usize
    requires { IsInOrder P.words events.now }
    ensures within { result ≤ length events.now }
    ensures before { Each (λ x. precedes P.words event.now x ≡ false) (take result events.now) }
    ensures behind { IsBefore P.words event.now (drop result events.now) }
{
    events.partition_point(|other| !event.is_at_or_before(other))
}

/// A place at which this very event stands.
pub(crate) fn find_copy<P: Payload>(events: &[Event<P>], event: &Event<P>) -> Option<usize>
    ensures found { IfSome result (λ place. slice_get events.now place ≡ Some event.now) }
    ensures missing { IfNone result (copies P.words event.now events.now ≡ 0) }
{
    for (place, other) in events.iter().enumerate() {
        if other.is_same(event) {
            return Some(place);
        }
    }
    None
}

/// Whether this very event stands at a place.
pub(crate) fn is_at<P: Payload>(events: &[Event<P>], place: usize, event: &Event<P>) -> bool
    ensures { IsTrue result ↔ (slice_get events.now place ≡ Some event.now) }
{
    match events.get(place) {
        Some(other) => other.is_same(event),
        None => false,
    }
}

/// How many events of a list in order are at or before a time.
pub(crate) fn count_until<P: Payload>(events: &[Event<P>], last: u64) -> usize
    requires { IsInOrder P.words events.now }
    ensures within { result ≤ length events.now }
    ensures before { Each (λ x. x.time ≤ last) (take result events.now) }
    ensures behind { AreFrom (suc last) (drop result events.now) }
{
    events.partition_point(|event| event.time <= last)
}

/// Whether all events are later than a time.
pub(crate) fn are_later<P: Payload>(events: &[Event<P>], time: u64) -> bool
    ensures { IsTrue result ↔ AreFrom (suc time) events.now }
{
    for event in events {
        if event.time <= time {
            return false;
        }
    }
    true
}

/// Puts elements at the end of a list, which has room for them.
pub(crate) fn append_reserved<T: Copy>(elements: &[T], list: &mut Vec<T>)
    requires { vec_len list.old + length elements.now ≤ vec_capacity list.old }
    ensures { list.new.items ≡ list.old.items ++ elements.now }
{
    match list.extend_from_slice(elements) {
        Ok(()) => (),
        Err(AllocError) => unreachable!(),
    }
}

/// Drops the first elements of a list.
pub(crate) fn drop_first<T: Copy>(list: &mut Vec<T>, count: usize)
    requires { count ≤ vec_len list.old }
    ensures { list.new.items ≡ drop count list.old.items }
{
    let left = list.len() - count;
    list.copy_within(count.., 0);
    list.truncate(left);
}
