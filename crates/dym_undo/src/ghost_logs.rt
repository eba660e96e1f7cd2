//! What clauses alone know of an undo log.
ghost use Rattle.std.specs.Prelude.{◌≡◌, List};
ghost use Rattle.std.specs.Coded.{codes};
ghost use Rattle.dym_base.specs.Objects.{LogEntry};
ghost use Rattle.dym_undo.specs.UndoLogs.{live_code, touched_code};
ghost use base.Fml.{ftrue};

use crate::undo_heap::UndoHeap;
use std::marker::{Model, PhantomData, Send};

/// The kept logs as whole copies. It has no bytes.
pub(crate) struct GhostLogs {
    marker: PhantomData<()>,
    pub(crate) ghost logs: { List LogEntry } by { Prim.hlevel (codes, live_code, touched_code) },
}

impl Model for GhostLogs {
    ghost also_owns = { λ _. ftrue };
}

impl GhostLogs {
    /// A ledger that tells this.
    fn of_ghost() -> GhostLogs
        ghost whole: { List LogEntry }
        ensures { result.logs ≡ whole }
    {
        GhostLogs {
            marker: PhantomData,
        }
    }

    /// The ledger of a new undo log.
    pub(crate) fn open() -> GhostLogs
        ghost whole: { List LogEntry }
        ensures { result.logs ≡ whole }
    {
        GhostLogs::of_ghost()
    }

    /// The ledger after a log was taken of a heap.
    pub(crate) fn logged<H: UndoHeap>(&self, heap: &H, time: u64, depth: u8) -> GhostLogs
        ghost whole: { List LogEntry }
        ensures { result.logs ≡ whole }
    {
        let _ = heap;
        let _ = time;
        let _ = depth;
        GhostLogs::of_ghost()
    }

    /// The ledger after logs were dropped.
    pub(crate) fn cut(&self, gone: usize, kept: usize) -> GhostLogs
        ghost whole: { List LogEntry }
        ensures { result.logs ≡ whole }
    {
        let _ = gone;
        let _ = kept;
        GhostLogs::of_ghost()
    }
}

unsafe impl Send for GhostLogs {}

impl Drop for GhostLogs {
    fn drop(self) {
        let GhostLogs { marker: _ } = self;
    }
}
