//! How a commit is made of an object's oldest log.
ghost use Rattle.std.specs.Prelude.{◌≡◌, ◌^◌, ◌<◌, None, length, option_map, IfOk};
ghost use Rattle.std.specs.FinMap.{entries};
ghost use Rattle.dym_chain.specs.Chains.{log_at};
ghost use Rattle.dym_heap.specs.Meaning.{IsSound};
ghost use Rattle.dym_view.specs.Commits.{committed, oldest};
ghost use Rattle.dym_view.specs.Copies.{entries_of, IsWhole, IsTable, copy_of};

use crate::chunk_copies::ChunkCopies;
use crate::commit::Commit;
use crate::oldest_heap::{Scratch, rebuild_oldest};
use dym_chain::KeptLogs;
use std::alloc::{AllocError, Global};

/// The oldest kept log as a commit, and None where no log is kept. The logs stay as they are, at want of memory too.
pub fn commit_of<L: KeptLogs>(alloc: Global, logs: &mut L) -> Result<Option<Commit>, AllocError>
    requires { (L.meaning logs.old).lifted ≡ None }
    ensures commit { IfOk result (λ commit.
        commit ≡ option_map committed (oldest (L.meaning logs.old).logs)) }
    ensures logs { L.meaning logs.new ≡ L.meaning logs.old }
{
    if logs.kept() == 0 {
        return Ok(None);
    }
    let entry = logs.entry(0);
    let heap = rebuild_oldest(alloc, logs, u32::from(entry.depth))?;
    let copied = copy_heap(alloc, &heap);
    drop(heap.end(&()));
    Ok(Some(Commit {
        time: entry.time,
        copied: copied?,
    }))
}

/// A copy of all chunks of a heap.
fn copy_heap(alloc: Global, heap: &Scratch) -> Result<ChunkCopies, AllocError>
    requires { IsSound heap.now }
    ensures whole { IfOk result IsWhole }
    ensures copy { IfOk result (λ copied. copy_of copied ≡ heap.now.state.live) }
{
    let mut copied = ChunkCopies::new(alloc);
    let mut last = None;
    while let Some(h) = heap.next_live(last) {
        let Some(bytes) = heap.bytes(h) else {
            unreachable!()
        };
        copied.push(h.number(), bytes)?;
        last = Some(h);
    }
    Ok(copied)
}
