//! A commit.
ghost use Rattle.std.specs.Prelude.{◌≡◌, true, false, length, None, Some, MatchOption};
ghost use Rattle.std.specs.FinMap.{get, len};
ghost use Rattle.dym_base.specs.HeapStep.{key};
ghost use Rattle.dym_view.specs.Commits.{total_of, part_in};

use crate::chunk_copies::ChunkCopies;
use dym_base::Handle;
use std::marker::Model;

/// A heap at a time, as a whole copy that shares nothing with the heap and takes no more room than its bytes.
///
/// Contracts see its time, and its copy as the map from handles to bytes.
#[derive(Drop)]
pub struct Commit {
    pub(crate) time: u64,
    pub(crate) copied: ChunkCopies,
}

impl Model for Commit {
    ghost use Rattle.std.specs.Coded.{codes};
    ghost use Rattle.dym_heap.specs.Meaning.{live_code};
    ghost use Rattle.dym_view.specs.Commits.{CommitMeaning};

    ghost Value = { CommitMeaning };

    ghost coded = { Prim.hlevel (codes, live_code) };

    ghost use Rattle.dym_view.specs.Copies.{copy_of, IsWhole};

    ghost view = { λ c. record { time = c.time; copy = copy_of c.copied } };

    ghost invariant = { λ c. IsWhole c.copied };
}

impl Commit {
    /// The time of the log.
    pub fn time(&self) -> u64
        ensures { result ≡ self.now.time }
    {
        self.time
    }

    /// How many chunks the copy has.
    pub fn chunks(&self) -> u32
        ensures { result ≡ len self.now.copy }
    {
        self.copied.chunk_ranges.len() as u32
    }

    /// The sum of all bytes of the copy, as numbers.
    pub fn total(&self) -> u64
        ensures { result ≡ total_of self.now.copy }
    {
        self.copied.total
    }

    /// Copies bytes of a chunk from its place `at` on into `out`, and says whether the copy has them. Where it hasn't, `out` stays.
    pub(crate) fn read(&self, h: Handle, at: u32, out: &mut [u8]) -> bool
        ensures { MatchOption (part_in self.now.copy h at (length out.old))
            ((result ≡ false) × (out.new ≡ out.old))
            (λ bytes. (result ≡ true) × (out.new ≡ bytes)) }
    {
        let Some(bytes) = self.chunk(h) else {
            return false;
        };
        let from = at as usize;
        if bytes.len() < from + out.len() {
            return false;
        }
        out.copy_from_slice(&bytes[from..from + out.len()]);
        true
    }

    /// All bytes of a chunk, and None where the copy hasn't it.
    fn chunk(&self, h: Handle) -> Option<&[u8]>
        ensures { MatchOption result (get self.now.copy (key h) ≡ None)
            (λ bytes. get self.now.copy (key h) ≡ Some bytes.now) }
    {
        self.copied.chunk(h.number())
    }
}
