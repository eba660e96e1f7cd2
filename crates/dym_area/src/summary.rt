//! Which words of the use bits have an unused chunk.
ghost use Rattle.std.specs.Prelude.{◌≡◌, ℕ, ◌*◌, ◌/◌, ◌<◌, ◌≤◌, Bool, List, MatchBool};
ghost use Rattle.std.specs.Int.{bit_at};
ghost use Rattle.dym_base.specs.Numbers.{per};
ghost use Rattle.dym_bits.specs.Bits.{IsSet, IsClear};
ghost use Rattle.dym_area.specs.Area.{HasRoom, IsSummary};

use dym_base::Class;
use dym_base::limits::MOST_CHUNKS;
use dym_bits::Bits;

/// Chunks whose use bits stand in one word.
pub(crate) const WORD_CHUNKS: u32 = 64;

/// The summary of the use bits of an area: bit `q` is set where word `q` has an unused chunk.
pub(crate) fn summary_of(used: &Bits, class: Class) -> u32
    ensures { IsSummary used.now (per class.exp) result }
{
    let words = words_of(class);
    let mut room = 0;
    for q in 0..words {
        if has_room(used, class, q * WORD_CHUNKS) {
            room = with_room(room, q * WORD_CHUNKS);
        }
    }
    room
}

/// The summary of an area of a class where no chunk is used.
pub(crate) fn all_words(class: Class) -> u32
    ensures { (used : List Bool) → ((i : ℕ) → IsClear used i) → IsSummary used (per class.exp) result }
{
    u32::MAX >> (u32::BITS - words_of(class))
}

/// How many words of the use bits an area of a class has.
fn words_of(class: Class) -> u32
    ensures least { 1 ≤ result }
    ensures most { result ≤ 32 }
    ensures enough { per class.exp ≤ result * 64 }
    ensures begun { (q : ℕ) → q < result → q * 64 < per class.exp }
{
    class.per_area().div_ceil(WORD_CHUNKS)
}

/// The summary after chunk `i` became used.
pub(crate) fn after_take(room: u32, used: &Bits, class: Class, i: u32) -> u32
    requires within { i < MOST_CHUNKS }
    requires elsewhere { (q : ℕ) → bit_at room q ≡ 1 → (q ≡ i / 64 → ⊥)
        → HasRoom used.now (per class.exp) q }
    requires marked { (k : ℕ) → k < per class.exp → IsClear used.now k → bit_at room (k / 64) ≡ 1 }
    ensures { IsSummary used.now (per class.exp) result }
{
    if has_room(used, class, i / WORD_CHUNKS * WORD_CHUNKS) {
        room
    } else {
        room & !(1 << (i / WORD_CHUNKS))
    }
}

/// The summary with the word of chunk `i` as one that has an unused chunk.
pub(crate) fn with_room(room: u32, i: u32) -> u32
    requires { i < MOST_CHUNKS }
    ensures same { bit_at result (i / 64) ≡ 1 }
    ensures others { (q : ℕ) → (q ≡ i / 64 → ⊥) → bit_at result q ≡ bit_at room q }
{
    room | 1 << (i / WORD_CHUNKS)
}

/// Whether a chunk from `from` on is unused that has its use bit in the same word.
fn has_room(used: &Bits, class: Class, from: u32) -> bool
    requires within { from < MOST_CHUNKS }
    ensures { MatchBool result (HasRoom used.now (per class.exp) (from / 64))
        ((k : ℕ) → from ≤ k → k < per class.exp → k / 64 ≡ from / 64 → IsSet used.now k) }
{
    match used.next_clear_in_word(from) {
        None => false,
        Some(next) => next < class.per_area(),
    }
}
