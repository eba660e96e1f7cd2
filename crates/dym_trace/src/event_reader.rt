//! Reads a line as an event.

ghost use Rattle.std.specs.Prelude.{◌≡◌, ◌≢◌, ℕ, ◌^◌, ◌+◌, ◌-◌, ◌*◌, ◌<◌, ◌≤◌, ◌↔◌, List, ◌++◌, length, slice_index, IsTrue, MatchOption, codes};
ghost use Rattle.std.specs.Fmt.{decimal};
ghost use Rattle.dym_slots.specs.declared.machine.Event.{Event};
ghost use Rattle.dym_trace.specs.Events.{Reads};

use crate::cut::cut;
use dym_base::limits::LOG_SLOTS;
use dym_slots::Event;

/// The event that the line is, if it is one.
pub(crate) fn read_event(line: &[u8]) -> Option<Event>
    ensures { MatchOption result ((e : Event) → ¬ Reads line.now e) (λ e. Reads line.now e) }
{
    if let Some(words) = after(line, b"o ") {
        return read_owner(words);
    }
    read_sweeper(after(line, b"s ")?)
}

fn read_owner(words: &[u8]) -> Option<Event>
    ensures { MatchOption result ((e : Event) → ¬ Reads (codes "o " ++ words.now) e)
        (λ e. Reads (codes "o " ++ words.now) e) }
{
    if let Some(slot) = after(words, b"look ") {
        return Some(Event::OwnerLook {
            slot: read_slot(slot)?,
        });
    }
    if let Some(slot) = after(words, b"claim ") {
        return Some(Event::OwnerClaim {
            slot: read_slot(slot)?,
        });
    }
    if let Some(slot) = after(words, b"take ") {
        return Some(Event::OwnerTake {
            slot: read_slot(slot)?,
        });
    }
    if let Some(words) = after(words, b"swap ") {
        return read_swap(words);
    }
    if let Some(slot) = after(words, b"put ") {
        return Some(Event::OwnerPut {
            slot: read_slot(slot)?,
        });
    }
    if let Some(slot) = after(words, b"lower ") {
        return Some(Event::OwnerLower {
            slot: read_slot(slot)?,
        });
    }
    if let Some(slot) = after(words, b"free ") {
        return Some(Event::OwnerFree {
            slot: read_slot(slot)?,
        });
    }
    let number = after(words, b"raise ")?;
    Some(Event::OwnerRaise {
        number: read_number(number)?,
    })
}

fn read_swap(words: &[u8]) -> Option<Event>
    ensures { MatchOption result ((e : Event) → ¬ Reads (codes "o swap " ++ words.now) e)
        (λ e. Reads (codes "o swap " ++ words.now) e) }
{
    let (slot, home) = cut(words, b' ')?;
    let slot = read_slot(slot)?;
    if home == b"-".as_slice() {
        return Some(Event::OwnerEmpty { slot });
    }
    Some(Event::OwnerFill {
        slot,
        number: read_number(home)?,
    })
}

fn read_sweeper(words: &[u8]) -> Option<Event>
    ensures { MatchOption result ((e : Event) → ¬ Reads (codes "s " ++ words.now) e)
        (λ e. Reads (codes "s " ++ words.now) e) }
{
    if let Some(slot) = after(words, b"look ") {
        return Some(Event::SweeperLook {
            slot: read_slot(slot)?,
        });
    }
    if let Some(slot) = after(words, b"grab ") {
        return Some(Event::SweeperGrab {
            slot: read_slot(slot)?,
        });
    }
    if let Some(slot) = after(words, b"swap ") {
        return Some(Event::SweeperEmpty {
            slot: read_slot(slot)?,
        });
    }
    if let Some(slot) = after(words, b"free ") {
        return Some(Event::SweeperFree {
            slot: read_slot(slot)?,
        });
    }
    if words == b"root".as_slice() {
        return Some(Event::SweeperRoot);
    }
    None
}

/// What stands after the word, if the text begins with it.
fn after<'a>(text: &'a [u8], word: &[u8]) -> Option<&'a [u8]>
    ensures { MatchOption result ((rest : List ℕ) → text.now ≢ word.now ++ rest)
        (λ rest. text.now ≡ word.now ++ rest.now) }
{
    text.strip_prefix(word)
}

/// The slot that the word names, if it is the decimal number of one.
fn read_slot(word: &[u8]) -> Option<u32>
    ensures { MatchOption result ((s : ℕ) → s < LOG_SLOTS → word.now ≢ decimal s)
        (λ s. (word.now ≡ decimal s) × (s < LOG_SLOTS)) }
{
    let slot = read_number(word)?;
    if slot < u64::from(LOG_SLOTS) {
        Some(slot as u32)
    } else {
        None
    }
}

/// The number that the word is, if it is one of 64 bits in decimal without leading zeros.
fn read_number(word: &[u8]) -> Option<u64>
    ensures { MatchOption result ((n : ℕ) → n < 2 ^ 64 → word.now ≢ decimal n)
        (λ n. word.now ≡ decimal n) }
{
    if word.is_empty() || has_leading_zero(word) {
        return None;
    }
    let mut number = 0;
    for byte in word {
        match with_digit(number, *byte) {
            Some(longer) => number = longer,
            None => return None,
        }
    }
    Some(number)
}

/// Whether a word of several bytes begins with the digit 0.
fn has_leading_zero(word: &[u8]) -> bool
    ensures { IsTrue result ↔ ((1 < length word.now) × (slice_index word.now 0 ≡ 48)) }
{
    word.len() > 1 && word[0] == b'0'
}

/// The number with one more digit at its end, if the byte is a digit and the number fits.
fn with_digit(number: u64, byte: u8) -> Option<u64>
    ensures { MatchOption result (48 ≤ byte → byte ≤ 57 → 2 ^ 64 ≤ number * 10 + (byte - 48))
        (λ n. (48 ≤ byte) × (byte ≤ 57) × (n ≡ number * 10 + (byte - 48))) }
{
    if !byte.is_ascii_digit() {
        return None;
    }
    number.checked_mul(10)?.checked_add(u64::from(byte - b'0'))
}
