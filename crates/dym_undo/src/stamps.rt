//! Stamps: a bit for each handle that can be live within a quota.
ghost use Rattle.std.specs.Prelude.{◌≡◌, true, ℕ, ◌+◌, ◌*◌, ◌/◌, ◌%◌, ◌<◌, ◌≤◌, length, false};
ghost use Rattle.dym_base.specs.HeapStep.{key};
ghost use Rattle.dym_base.specs.declared.limits.TheConstants.{LEAST_EXPONENT, GREATEST_EXPONENT, MOST_QUOTA};
ghost use Rattle.dym_undo.specs.Keys.{IsKey, stamp_bit, is_stamped, with_stamp, without_stamp};

use dym_base::limits::{GREATEST_EXPONENT, LEAST_EXPONENT};
use dym_base::{Class, Handle};

/// The bits of one area of each class, and of one word.
pub(crate) const AREA_BITS: usize = 4_096;

const WORD_BITS: usize = 64;

/// The words that hold the bits of one area of each class.
pub(crate) const AREA_WORDS: usize = 64;

/// Whether a handle can be live within a quota.
fn is_key(handle: Handle, quota: u32) -> bool
    ensures key { result ≡ true → IsKey quota (key handle) }
    ensures only { IsKey quota (key handle) → result ≡ true }
{
    if handle.exp < LEAST_EXPONENT || handle.exp > GREATEST_EXPONENT {
        return false;
    }
    handle.index / Class { exp: handle.exp }.per_area() < quota
}

/// Whether a handle can be live within a quota, and is stamped: for a handle of which nothing is known.
pub(crate) fn is_stamped_key(words: &[u64], quota: u32, handle: Handle) -> bool
    requires { length words.now / 64 ≡ quota }
    ensures stamped { result ≡ true
        → IsKey quota (key handle) × (is_stamped words.now (key handle) ≡ true) }
    ensures unstamped { result ≡ false
        → IsKey quota (key handle) → is_stamped words.now (key handle) ≡ false }
{
    if !is_key(handle, quota) {
        return false;
    }
    is_stamped(words, handle)
}

/// The bit of a handle.
fn stamp_bit(handle: Handle) -> usize
    requires least { LEAST_EXPONENT ≤ handle.exp }
    requires greatest { handle.exp ≤ GREATEST_EXPONENT }
    ensures { result ≡ stamp_bit (key handle) }
{
    let per = Class { exp: handle.exp }.per_area();
    let area = (handle.index / per) as usize;
    area * AREA_BITS + (per + handle.index % per) as usize
}

/// Whether a handle is stamped.
pub(crate) fn is_stamped(words: &[u64], handle: Handle) -> bool
    requires { IsKey (length words.now / 64) (key handle) }
    ensures { result ≡ is_stamped words.now (key handle) }
{
    let bit = stamp_bit(handle);
    (words[bit / WORD_BITS] >> (bit % WORD_BITS)) & 1 == 1
}

/// Stamps a handle.
pub(crate) fn stamp(words: &mut [u64], handle: Handle)
    requires { IsKey (length words.old / 64) (key handle) }
    ensures { words.new ≡ with_stamp words.old (key handle) }
{
    let bit = stamp_bit(handle);
    words[bit / WORD_BITS] |= 1 << (bit % WORD_BITS);
}

/// Takes a handle's stamp away.
pub(crate) fn unstamp(words: &mut [u64], handle: Handle)
    requires { IsKey (length words.old / 64) (key handle) }
    ensures { words.new ≡ without_stamp words.old (key handle) }
{
    let bit = stamp_bit(handle);
    words[bit / WORD_BITS] &= !(1 << (bit % WORD_BITS));
}
