//! What leaves the owner's list, at either end.

ghost use Rattle.dym_slots.specs.SlotFacts.{NumbersRise};
ghost use Rattle.dym_trace.specs.Machine.{DropsNewest, DropsOlder};

use dym_slots::Entry;
use std::collections::VecDeque;

/// The fewest entries of a list that may lose its newest.
const FEWEST: usize = 2;

/// Drops the newest entry, where it has this number and isn't the only one, and says whether.
pub(crate) fn drop_newest(list: &mut VecDeque<Entry>, number: u64) -> bool
    requires { NumbersRise list.old.items }
    ensures { DropsNewest number list.old.items list.new.items result }
{
    if list.len() < FEWEST {
        return false;
    }
    match list.pop_back() {
        Some(newest) => newest.number == number,
        None => false,
    }
}

/// Drops the entries older than that of this number, and says whether there is one.
pub(crate) fn drop_older(list: &mut VecDeque<Entry>, number: u64) -> bool
    requires { NumbersRise list.old.items }
    ensures { DropsOlder number list.old.items list.new.items result }
{
    while let Some(oldest) = list.front().copied() {
        if oldest.number >= number {
            return oldest.number == number;
        }
        let _ = list.pop_front();
    }
    false
}
