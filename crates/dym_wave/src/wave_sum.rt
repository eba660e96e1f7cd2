//! What some objects come to, one after the other.
ghost use Rattle.std.specs.Prelude.{◌≡◌};
ghost use Rattle.dym_report.specs.Summary.{no_tally};

use dym_report::Tally;

/// What so many objects come to together.
#[derive(Clone, Copy, Debug, PartialEq, Eq)]
pub(crate) struct WaveSum {
    pub(crate) tally: Tally,
    pub(crate) objects: u32,
}

impl WaveSum {
    /// Of no object.
    pub(crate) fn none() -> WaveSum
        ensures { result ≡ record { tally = no_tally; objects = 0 } }
    {
        WaveSum {
            tally: Tally::none(),
            objects: 0,
        }
    }
}
