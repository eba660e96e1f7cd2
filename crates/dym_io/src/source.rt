//! Where bytes come from.
ghost use Rattle.std.specs.Prelude.{◌≡◌, ◌<◌, ◌≤◌, Option, List, ℕ, length, IfOk, OnOk, OnErr};
ghost use Rattle.dym_io.specs.Faults.{RoseOnce};
ghost use Rattle.dym_io.specs.Source.{Takes, IsEmptyAtEnd};

use crate::Failed;

/// A stream of bytes that is read from front to end.
pub trait Source {
    /// The bytes that are left, where the source tells them. What is told at a call's start is told at its end.
    ghost left: { Self → Option (List ℕ) };

    /// How often a call has failed.
    ghost faults: { Self → ℕ };

    /// Another call may follow. Nothing tells so once a call has found the end or has failed: a terminal would ask for its end a
    /// second time, and bytes behind a fault aren't those that follow.
    ghost goes_on: { Self → Type 0 };

    /// Takes the next bytes into the front of `out`, at most its length, and says how many. What stands behind them in `out`
    /// is left open, and so is all of `out` where the call fails.
    fn pull(&mut self, out: &mut [u8]) -> Result<usize, Failed>
        requires room { 0 < length out.old }
        requires goes_on { goes_on self.old }
        ensures amount { IfOk result (λ n. n ≤ length out.new) }
        ensures taken { Takes (left self.old) (left self.new) out.new result }
        ensures end { IfOk result (IsEmptyAtEnd (left self.old)) }
        ensures more { IfOk result (λ n. 0 < n → goes_on self.new) }
        ensures count { OnOk result (faults self.new ≡ faults self.old) }
        ensures failed { OnErr result (RoseOnce (faults self.old) (faults self.new)) };
}
