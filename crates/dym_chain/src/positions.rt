//! Places in the list of kept logs.
ghost use Rattle.std.specs.Prelude.{◌≡◌, ◌==◌, if◌then◌else◌, ◌-◌, ◌<◌, ◌≤◌, Option, List, map, length, drop, option_map, vec_len, vec_capacity};
ghost use Rattle.dym_base.specs.Objects as Objects;
ghost use Rattle.dym_base.specs.Objects.{LogEntry, next_depth};
ghost use Rattle.dym_chain.specs.Answers.{log_refusal};
ghost use Rattle.dym_base.specs.RunLaws.{EachFollows};
ghost use Rattle.dym_base.specs.declared.command.Kind.TheVariants.{Full, Inc};
ghost use Rattle.dym_chain.specs.Lawful.{entry_of};

use crate::entry::Entry;
use dym_base::limits::{MOST_DEPTH, MOST_KEPT_LOGS};
use dym_base::{Kind, Refusal};

/// How many logs have a time at or before this one. As times rise, they are the first ones.
pub(crate) fn reached(entries: &[Entry], time: u64) -> usize
    ensures within { result ≤ length entries.now }
    ensures reached { (logs : List LogEntry) → entries.now ≡ map entry_of logs → EachFollows logs
        → result ≡ Objects.reached time logs }
{
    entries.partition_point(|entry| entry.time <= time)
}

/// How many logs a prune at a bound drops: those before the last one at or before it.
pub(crate) fn dropped_by(entries: &[Entry], bound: u64) -> usize
    ensures within { result ≤ length entries.now - 1 }
    ensures dropped { (logs : List LogEntry) → entries.now ≡ map entry_of logs → EachFollows logs
        → result ≡ Objects.reached bound logs - 1 }
{
    reached(entries, bound).saturating_sub(1)
}

/// The entry of the newest log.
pub(crate) fn newest_of(entries: &[Entry]) -> Option<Entry>
    ensures { (logs : List LogEntry) → entries.now ≡ map entry_of logs
        → result ≡ option_map entry_of (Objects.newest logs) }
{
    entries.last().copied()
}

/// Why no log is taken at a time.
pub(crate) fn refusal_of(newest: Option<Entry>, kept: usize, time: u64) -> Option<Refusal>
    ensures { (logs : List LogEntry) → newest ≡ option_map entry_of (Objects.newest logs)
        → kept ≡ length logs → result ≡ log_refusal time logs }
{
    match newest {
        Some(entry) if time <= entry.time => Some(Refusal::NotAfter { newest: entry.time }),
        _ if kept == MOST_KEPT_LOGS as usize => Some(Refusal::LogsFull),
        _ => None,
    }
}

/// Drops the first entries.
pub(crate) fn drop_first(entries: &mut Vec<Entry>, count: usize)
    requires { count ≤ vec_len entries.old }
    ensures items { entries.new.items ≡ drop count entries.old.items }
    ensures capacity { vec_capacity entries.new ≡ vec_capacity entries.old }
{
    let left = entries.len() - count;
    entries.copy_within(count.., 0);
    entries.truncate(left);
}

/// The depth of the log that comes after the newest one.
pub(crate) fn depth_of_next(want: Kind, newest: Option<Entry>) -> u8
    ensures { (log : Option LogEntry) → newest ≡ option_map entry_of log
        → ((e : LogEntry) → log ≡ Some e → e.depth ≤ MOST_DEPTH) → result ≡ next_depth want log }
{
    match (want, newest) {
        (Kind::Inc, Some(entry)) if entry.depth < MOST_DEPTH => entry.depth + 1,
        _ => 0,
    }
}

/// The kind of a log of a depth.
pub(crate) fn kind_at(depth: u8) -> Kind
    ensures { result ≡ (if depth == 0 then Full else Inc) }
{
    if depth == 0 { Kind::Full } else { Kind::Inc }
}
