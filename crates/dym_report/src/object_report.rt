//! The report of an object over its heap.
ghost use Rattle.std.specs.Prelude.{◌≡◌, ◌≤◌, ◌^◌, true, IfSome};
ghost use Rattle.std.specs.FinMap.{get, contains_key, len};
ghost use Rattle.dym_base.specs.Heaps.{held};
ghost use Rattle.dym_base.specs.HeapStep.{handle_of};
ghost use Rattle.dym_base.specs.Numbers.{number};
ghost use Rattle.dym_heap.specs.Meaning.{IsSound};
ghost use Rattle.dym_io.specs.Sink.{Writes};
ghost use Rattle.dym_report.specs.Objects.{heap_line, image_line, images_text, state_text, object_text};

use crate::object::{write_heading, write_image, write_logs};
use crate::reply::{write_numbers, write_replies};
use dym_base::{Handle, Name, Reply};
use dym_heap::Heap;
use dym_io::{Sink, SinkFault};
use dym_quota::Supply;

/// Writes the whole part of one object: its name, its replies, its heap, and how many logs it keeps, which take that many
/// records. Its only error is that of the sink.
pub fn write_object<W: Sink, S: Supply>(
    sink: &mut W,
    name: &Name,
    replies: &[Reply],
    heap: &Heap<S>,
    kept: u32,
    slots: u32,
) -> Result<(), SinkFault>
    requires sound { IsSound heap.now }
    ensures { Writes (W.output sink.old) (W.output sink.new)
        (object_text heap.now.version name.now replies.now heap.now.state.live kept slots) result }
{
    write_heading(sink, name)?;
    write_replies(sink, replies)?;
    write_state(sink, heap, kept, slots)
}

/// Writes what stands behind an object's replies: its heap, and how many logs it keeps, which take that many records. Its
/// only error is that of the sink.
pub fn write_state<W: Sink, S: Supply>(
    sink: &mut W,
    heap: &Heap<S>,
    kept: u32,
    slots: u32,
) -> Result<(), SinkFault>
    requires sound { IsSound heap.now }
    ensures { Writes (W.output sink.old) (W.output sink.new)
        (state_text heap.now.version heap.now.state.live kept slots) result }
{
    write_heap(sink, heap)?;
    write_images(sink, heap)?;
    write_logs(sink, kept, slots)
}

/// Writes how many chunks of a heap are live, and how many segments they need.
pub(crate) fn write_heap<W: Sink, S: Supply>(sink: &mut W, heap: &Heap<S>) -> Result<(), SinkFault>
    requires sound { IsSound heap.now }
    ensures { Writes (W.output sink.old) (W.output sink.new)
        (heap_line (len heap.now.state.live) (held heap.now.state.live)) result }
{
    write_numbers(sink, b"heap ", live_chunks(heap), u64::from(heap.held()))
}

/// How many chunks of a heap are live.
pub fn live_chunks<S: Supply>(heap: &Heap<S>) -> u64
    requires sound { IsSound heap.now }
    ensures counted { result ≡ len heap.now.state.live }
    ensures few { result ≤ 2 ^ 37 }
{
    let mut chunks = 0;
    let mut last = None;
    while let Some(handle) = heap.next_live(last) {
        chunks += 1;
        last = Some(handle);
    }
    chunks
}

/// Writes a line for each live chunk of a heap, in the order of their handles.
pub(crate) fn write_images<W: Sink, S: Supply>(
    sink: &mut W,
    heap: &Heap<S>,
) -> Result<(), SinkFault>
    requires sound { IsSound heap.now }
    ensures { Writes (W.output sink.old) (W.output sink.new)
        (images_text heap.now.version heap.now.state.live) result }
{
    let mut last = None;
    while let Some(handle) = heap.next_live(last) {
        write_live(sink, heap, handle.exp, handle.index)?;
        last = Some(handle);
    }
    Ok(())
}

/// Writes the line of a live chunk of a heap.
fn write_live<W: Sink, S: Supply>(
    sink: &mut W,
    heap: &Heap<S>,
    exp: u8,
    index: u32,
) -> Result<(), SinkFault>
    requires { contains_key heap.now.state.live (number exp index) ≡ true }
    ensures { IfSome (get heap.now.state.live (number exp index))
        (λ bytes. Writes (W.output sink.old) (W.output sink.new)
        (image_line heap.now.version (handle_of (number exp index)) bytes) result) }
{
    let handle = Handle { exp, index };
    let Some(bytes) = heap.bytes(handle) else {
        unreachable!()
    };
    write_image(sink, heap.version(), handle, bytes)
}
