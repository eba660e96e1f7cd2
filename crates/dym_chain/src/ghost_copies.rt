//! What clauses alone know of a chain.
ghost use Rattle.std.specs.Prelude.{◌≡◌};
ghost use Rattle.std.specs.Coded.{codes};
ghost use Rattle.dym_heap.specs.Meaning.{live_code, touched_code};
ghost use Rattle.dym_chain.specs.Copies.{ChainCopies, ReadRecords, AreCopiesOf};
ghost use base.Fml.{ftrue};

use crate::log_keep::LogKeep;
use dym_heap::Heap;
use dym_quota::Supply;
use std::marker::{Model, PhantomData, Send};

/// The whole copies that the records of a chain stand for. It has no bytes.
pub(crate) struct GhostCopies {
    marker: PhantomData<()>,
    pub(crate) ghost copies: { ChainCopies } by { Prim.hlevel (codes, live_code, touched_code) },
}

impl Model for GhostCopies {
    ghost also_owns = { λ _. ftrue };
}

impl GhostCopies {
    /// A ledger that tells this.
    fn of_ghost() -> GhostCopies
        ghost whole: { ChainCopies }
        ensures { result.copies ≡ whole }
    {
        GhostCopies {
            marker: PhantomData,
        }
    }

    /// The ledger of a new chain.
    pub(crate) fn open() -> GhostCopies
        ghost whole: { ChainCopies }
        ensures { result.copies ≡ whole }
    {
        GhostCopies::of_ghost()
    }

    /// A ledger that tells what records say, where they say anything.
    fn of_records() -> GhostCopies
        ghost read_records: { ReadRecords }
        requires { (copies : ChainCopies) × AreCopiesOf read_records copies }
        ensures { AreCopiesOf read_records result.copies }
    {
        GhostCopies {
            marker: PhantomData,
        }
    }

    /// The ledger of a chain whose logs are read from the records of a keep, those from place `first` on being kept.
    pub(crate) fn read<K: LogKeep>(keep: &K, first: u8) -> GhostCopies
        ghost read_records: { ReadRecords }
        requires { (copies : ChainCopies) × AreCopiesOf read_records copies }
        ensures { AreCopiesOf read_records result.copies }
    {
        let _ = keep;
        let _ = first;
        GhostCopies::of_records()
    }

    /// The ledger after a log was taken of a heap.
    pub(crate) fn logged<S: Supply>(&self, heap: &Heap<S>, time: u64, depth: u8) -> GhostCopies
        ghost whole: { ChainCopies }
        ensures { result.copies ≡ whole }
    {
        let _ = heap;
        let _ = time;
        let _ = depth;
        GhostCopies::of_ghost()
    }

    /// The ledger after logs were dropped.
    pub(crate) fn cut(&self, gone: usize, kept: usize) -> GhostCopies
        ghost whole: { ChainCopies }
        ensures { result.copies ≡ whole }
    {
        let _ = gone;
        let _ = kept;
        GhostCopies::of_ghost()
    }
}

unsafe impl Send for GhostCopies {}

impl Drop for GhostCopies {
    fn drop(self) {
        let GhostCopies { marker: _ } = self;
    }
}
