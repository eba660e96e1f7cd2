//! Reading a source whole, up to a limit.
ghost use Rattle.std.specs.Prelude.{◌≡◌, ◌≤◌, IfOk, IsErrOf, length};
ghost use Rattle.std.specs.Io.KnownBytes.{Consumes};
ghost use Rattle.dym_io.specs.Faults.{RoseOnce};
ghost use Rattle.dym_io.specs.Source.{IsEndOrLimit, TookAtMost};
ghost use Rattle.dym_io.specs.declared.whole_input.ReadFail.TheVariants.{Source as SourceFail, Memory};

use crate::{Failed, Source};
use std::alloc::{AllocError, Global};
use thiserror::Error;

/// Why a source could not be read whole.
#[derive(Clone, Copy, Debug, PartialEq, Eq, Error)]
pub enum ReadFail {
    /// A call on the source failed.
    #[error("the source failed")]
    Source,
    /// There was no memory for the bytes.
    #[error("out of memory")]
    Memory,
}

impl From<Failed> for ReadFail {
    ghost from_gives = { λ _ e. e ≡ SourceFail };

    fn from(_: Failed) -> ReadFail {
        ReadFail::Source
    }
}

impl From<AllocError> for ReadFail {
    ghost from_gives = { λ _ e. e ≡ Memory };

    fn from(_: AllocError) -> ReadFail {
        ReadFail::Memory
    }
}

/// The most bytes that one pull asks for.
const PIECE: usize = 65_536;

/// Reads a source to its end, or until `limit` bytes were taken. Each turn but the last takes at least one byte. Where memory
/// is short, the bytes that were taken are lost. Whatever it answers, no more than `limit` bytes were taken, and it is a
/// source's fault exactly where a call failed.
pub fn read_whole<R: Source>(
    alloc: Global,
    source: &mut R,
    limit: usize,
) -> Result<Vec<u8>, ReadFail>
    requires { R.goes_on source.old }
    ensures taken { IfOk result (λ bytes. Consumes (R.left source.old) (R.left source.new) bytes.items) }
    ensures within { IfOk result (λ bytes. length bytes.items ≤ limit) }
    ensures ended { IfOk result (λ bytes.
        IsEndOrLimit limit (R.left source.old) (R.left source.new) bytes.items) }
    ensures bounded { TookAtMost limit (R.left source.old) (R.left source.new) }
    ensures failed { IsErrOf result ReadFail.Source → RoseOnce (R.faults source.old) (R.faults source.new) }
    ensures count { ¬ IsErrOf result ReadFail.Source → R.faults source.new ≡ R.faults source.old }
{
    let mut bytes = Vec::new(alloc);
    let mut buffer = [0; PIECE];
    'pieces: while bytes.len() < limit {
        let room = PIECE.min(limit - bytes.len());
        let amount = source.pull(&mut buffer[..room])?;
        if amount == 0 {
            break 'pieces;
        }
        bytes.extend_from_slice(&buffer[..amount])?;
    }
    Ok(bytes)
}
