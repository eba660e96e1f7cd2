//! A copy of a heap, by which writes are found that no call was told before.

use crate::object_content::Process;
use dym_base::Handle;
use dym_base::limits::SEGMENT_BYTES;
use dym_heap::Heap;
use dym_quota::FixedSupply;
use dym_undo::Head;
use std::alloc::{AllocError, Global};
use std::mem;

/// The chunks that an area of each class has.
pub(crate) const MOST_CHUNKS: usize = 4_095;

/// What the newest log would bring a chunk back with.
#[derive(Clone, Copy)]
enum Logged {
    /// What stands in the chunk: nothing of it was kept.
    InPlace,
    /// What was kept of it, which is what was copied.
    Same,
    /// What was kept of it, which is something else.
    Other,
}

/// A chunk of a heap that was copied: its handle, and where its bytes stand among those that were copied.
#[derive(Clone, Copy)]
struct CopiedChunk {
    handle: Handle,
    at: usize,
    len: u32,
    logged: Logged,
}

/// The chunks of a heap as they stood when it was copied, in the order of their handles; and a chunk that was found other than it was
/// copied.
#[derive(Drop)]
pub(crate) struct HeapCopy {
    chunks: Vec<CopiedChunk>,
    /// Their bytes, one chunk after the other.
    bytes: Vec<u8>,
    is_whole: bool,
    found: Option<Handle>,
}

impl HeapCopy {
    /// A copy of an empty heap, with room for all chunks that a quota allows.
    pub(crate) fn open(alloc: Global, quota: u32) -> Result<HeapCopy, AllocError> {
        let mut chunks = Vec::new(alloc);
        chunks.reserve(quota as usize * MOST_CHUNKS)?;
        let mut bytes = Vec::new(alloc);
        bytes.reserve(quota as usize * SEGMENT_BYTES as usize)?;
        Ok(HeapCopy {
            chunks,
            bytes,
            is_whole: true,
            found: None,
        })
    }

    /// Copies a heap as it stands. It takes no memory but what `open` took.
    pub(crate) fn take(&mut self, heap: &Heap<FixedSupply>) {
        self.chunks.clear();
        self.bytes.clear();
        self.is_whole = copy_chunks(heap, &mut self.chunks, &mut self.bytes).is_ok();
    }

    /// Looks for a chunk that the newest log of an object would bring back with other bytes than were copied at that log, and keeps
    /// the first one, unless one is kept already.
    pub(crate) fn look(&mut self, object: &Process) {
        if self.found.is_none() {
            compare_kept(&mut self.chunks, &self.bytes, object);
            self.found = first_other(&self.chunks, &self.bytes, object);
        }
    }

    /// What was found, which is then kept no more. An error says that the heap was not copied whole.
    pub(crate) fn take_found(&mut self) -> Result<Option<Handle>, AllocError> {
        if !self.is_whole {
            return Err(AllocError);
        }
        Ok(mem::replace(&mut self.found, None))
    }
}

/// Copies each live chunk of a heap.
fn copy_chunks(
    heap: &Heap<FixedSupply>,
    chunks: &mut Vec<CopiedChunk>,
    bytes: &mut Vec<u8>,
) -> Result<(), AllocError> {
    let mut last = None;
    for _ in 0..heap.quota() as usize * MOST_CHUNKS {
        let Some(handle) = heap.next_live(last) else {
            break;
        };
        let (Some(chunk), Some(len)) = (heap.bytes(handle), heap.size_of(handle)) else {
            break;
        };
        chunks.push(CopiedChunk {
            handle,
            at: bytes.len(),
            len,
            logged: Logged::InPlace,
        })?;
        bytes.extend_from_slice(chunk)?;
        last = Some(handle);
    }
    Ok(())
}

/// The bytes of a chunk that was copied.
fn copied_bytes<'a>(bytes: &'a [u8], copied: &CopiedChunk) -> Option<&'a [u8]> {
    bytes.get(copied.at..)?.get(..copied.len as usize)
}

/// Compares what was kept of these chunks since the newest log of an object with what was copied at that log.
fn compare_kept(chunks: &mut [CopiedChunk], bytes: &[u8], object: &Process) {
    for copied in chunks.iter_mut() {
        copied.logged = Logged::InPlace;
    }
    let (heads, kept) = object.changes();
    let mut rest = kept;
    for head in heads.iter().rev() {
        let len = head.len.unwrap_or(0) as usize;
        if rest.len() < len {
            return;
        }
        let (others, chunk) = rest.split_at(rest.len() - len);
        compare_one(chunks, bytes, head, chunk);
        rest = others;
    }
}

/// Compares what was kept of one chunk. Chunks stand in the order of their handles.
fn compare_one(chunks: &mut [CopiedChunk], bytes: &[u8], head: &Head, chunk: &[u8]) {
    let number = head.handle.number();
    let place = chunks.partition_point(|copied| copied.handle.number() < number);
    let Some(copied) = chunks.get_mut(place) else {
        return;
    };
    if copied.handle != head.handle {
        return;
    }
    copied.logged = if head.len.is_some() && copied_bytes(bytes, copied) == Some(chunk) {
        Logged::Same
    } else {
        Logged::Other
    };
}

/// The first of these chunks that the newest log of an object would bring back otherwise than it was copied.
fn first_other(chunks: &[CopiedChunk], bytes: &[u8], object: &Process) -> Option<Handle> {
    for copied in chunks {
        let is_other = match copied.logged {
            Logged::InPlace => object.heap().bytes(copied.handle) != copied_bytes(bytes, copied),
            Logged::Same => false,
            Logged::Other => true,
        };
        if is_other {
            return Some(copied.handle);
        }
    }
    None
}
