//! Reads an input whole.
ghost use Rattle.dymelor_top.specs.Calls.{ReadsSource, SameVerdict, Tells};

use crate::stop::Stop;
use dym_base::limits::MOST_INPUT_BYTES;
use dym_io::{Source, read_whole};
use std::alloc::Global;

/// Reads a source to its end, or for as many bytes as tell that the input is too long.
pub fn read_input<R: Source>(alloc: Global, source: &mut R) -> Result<Vec<u8>, Stop>
    requires { R.goes_on source.old }
    ensures { ReadsSource (λ bytes r. Tells (λ read. SameVerdict read.items bytes) (λ line kind. ⊥) r)
        (record { left = R.left source.old; faults = R.faults source.old })
        (record { left = R.left source.new; faults = R.faults source.new }) result }
{
    Ok(read_whole(alloc, source, MOST_INPUT_BYTES + 1)?)
}
