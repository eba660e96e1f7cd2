//! How far the used chunks of an area reach.
ghost use Rattle.std.specs.Prelude.{ℕ, ◌<◌, ◌≤◌};
ghost use Rattle.dym_base.specs.Numbers.{per};
ghost use Rattle.dym_base.specs.declared.limits.TheConstants.{SEGMENT_BYTES};
ghost use Rattle.dym_bits.specs.Bits.{IsSet};
ghost use Rattle.dym_area.specs.Area.{AreFilled};

use dym_base::Class;
use dym_base::limits::SEGMENT_BYTES;
use dym_bits::Bits;

/// Where the last of these chunks of a class ends, in bytes. 0 where there is none.
pub(crate) fn end_of(used: &Bits, class: Class) -> u32
    requires below { (i : ℕ) → IsSet used.now i → i < per class.exp }
    ensures within { result ≤ SEGMENT_BYTES }
    ensures all { AreFilled used.now class.exp result }
{
    match used.top_set() {
        None => 0,
        Some(top) => (top + 1) * class.size(),
    }
}
