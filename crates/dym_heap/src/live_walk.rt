//! Live chunks in their order.
ghost use Rattle.std.specs.Prelude.{◌≡◌, ℕ, ◌≤◌, ◌⊎◌, ◌^◌, false, None, Some, MatchOption};
ghost use Rattle.std.specs.FinMap.{contains_key};
ghost use Rattle.dym_base.specs.Numbers.{number};
ghost use Rattle.dym_base.specs.HeapStep.{key};
ghost use Rattle.dym_base.specs.declared.limits.TheConstants.{LEAST_EXPONENT};
ghost use Rattle.dym_heap.specs.Shelves.{IsTidy};
ghost use Rattle.dym_heap.specs.Replies.{after_key, IsNextLive};

use crate::shelf::Shelf;
use dym_base::limits::{GREATEST_EXPONENT, LEAST_EXPONENT};
use dym_base::{Class, Handle};
use dym_quota::Supply;

/// The least live chunk above a handle, or the least of all.
pub(crate) fn next_from<S: Supply>(shelf: &Shelf<S>, after: Option<Handle>) -> Option<Handle>
    requires { IsTidy shelf.now }
    ensures { MatchOption result ((k : ℕ) → after_key after ≤ k
        → contains_key shelf.now.state.live k ≡ false) (λ h.
        IsNextLive shelf.now.state.live (after_key after) (key h)) }
{
    let (mut exp, mut from) = start_of(after);
    while exp <= GREATEST_EXPONENT {
        if let Some(index) = shelf.next_used(Class { exp }, from) {
            return Some(Handle { exp, index });
        }
        exp += 1;
        from = 0;
    }
    None
}

/// The class and the index from which the next live chunk is sought.
fn start_of(after: Option<Handle>) -> (u8, u64)
    ensures least { LEAST_EXPONENT ≤ result.0 }
    ensures fits { result.1 ≤ 2 ^ 32 }
    ensures start { after_key after ≤ number result.0 result.1 }
    ensures near { (number result.0 result.1 ≡ after_key after)
        ⊎ (number result.0 result.1 ≡ number LEAST_EXPONENT 0) }
{
    let Some(h) = after else {
        return (LEAST_EXPONENT, 0);
    };
    if h.exp < LEAST_EXPONENT {
        return (LEAST_EXPONENT, 0);
    }
    (h.exp, u64::from(h.index) + 1)
}
