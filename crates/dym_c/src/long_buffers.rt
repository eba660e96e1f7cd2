//! Writes and reads of more bytes than a chunk has, of which C may not have a buffer: such a length is refused before a byte is
//! looked at, and before it is added to a place.
ghost use Rattle.std.specs.Prelude.{◌≡◌, ◌<◌, length, OnErr};
ghost use Rattle.dym_base.specs.declared.command.Command.TheVariants.{Write, Read};
ghost use Rattle.dym_base.specs.declared.limits.TheConstants.{COUNT_LIMIT};
ghost use Rattle.dym_heap.specs.Replies.{done_reply, bytes_reply};
ghost use Rattle.dym_undo_object.specs.Meaning.{IsStep, counted, step_by};

use crate::object_content::Process;
use dym_base::{Handle, Refusal};

/// The greatest length of a chunk.
const LONGEST: usize = 65536;

/// `Object::write`.
pub(crate) fn write_bytes(
    object: &mut Process,
    chunk: Handle,
    at: u32,
    bytes: &[u8],
) -> Result<(), Refusal>
    requires { object.old.ran < COUNT_LIMIT }
    ensures reply { done_reply result ≡ (step_by object.old (Write chunk at bytes.now)).reply }
    ensures step { IsStep object.old object.new (Write chunk at bytes.now) }
    ensures refused { OnErr result (object.new ≡ counted object.old) }
{
    if bytes.len() <= LONGEST {
        return object.write(chunk, at, bytes);
    }
    match object.heap().size_of(chunk) {
        Some(size) if (size as usize) < bytes.len() => object.write(chunk, size, &[0]),
        _ => object.write(chunk, at, bytes),
    }
}

/// `Object::read`.
pub(crate) fn read_bytes(
    object: &mut Process,
    chunk: Handle,
    at: u32,
    out: &mut [u8],
) -> Result<(), Refusal>
    requires { object.old.ran < COUNT_LIMIT }
    ensures reply { bytes_reply result out.new
        ≡ (step_by object.old (Read chunk at (length out.old))).reply }
    ensures step { IsStep object.old object.new (Read chunk at (length out.old)) }
    ensures refused { OnErr result (object.new ≡ counted object.old) }
    ensures same { OnErr result (out.new ≡ out.old) }
{
    if out.len() <= LONGEST {
        return object.read(chunk, at, out);
    }
    match object.heap().size_of(chunk) {
        Some(size) if (size as usize) < out.len() => object.read(chunk, size, &mut [0]),
        _ => object.read(chunk, at, out),
    }
}
