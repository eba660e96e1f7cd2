//! Commands to the heap of an object. Each status of a command that isn't run, and of one that is refused, leaves the object's
//! chunks and what the last parameters point to as they were.
ghost use Rattle.std.specs.Prelude.{◌≡◌, Some, length};
ghost use Rattle.dym_base.specs.declared.command.Command.TheVariants.{Malloc, Calloc};
ghost use Rattle.dym_c.specs.AskedCommands.{asked_realloc, asked_free, asked_write, asked_fill, asked_read, asked_link, asked_follow, asked_sum};
ghost use Rattle.dym_c.specs.Calls.{status_of, reply_of, IsAfter};
ghost use Rattle.dym_c.specs.OutValues.{chunk_after, found_after, bytes_after, total_after};

use crate::handle::{DymHandle, c_chunk, c_chunk_or_nil, chunk_of_c, chunk_or_nil_of_c};
use crate::long_buffers::{read_bytes, write_bytes};
use crate::object::DymObject;
use crate::out_values::{DymFound, c_found};
use crate::status::{BAD, DONE, done_number, refusal_number};

/// A fresh chunk of `len` zero bytes.
#[unsafe(no_mangle)]
pub extern "C" fn dym_malloc(object: &mut DymObject, len: u64, chunk: &mut DymHandle) -> u32
    ensures status { result ≡ status_of object.old.value (Some (Malloc len)) }
    ensures after { IsAfter object.old.value (Some (Malloc len)) object.new.value }
    ensures out_value { chunk.new ≡ chunk_after
        (reply_of object.old.value (Some (Malloc len))) chunk.old }
{
    let inside = match object.ready() {
        Ok(inside) => inside,
        Err(status) => return status,
    };
    match inside.object.malloc(&(), len) {
        Ok(h) => {
            *chunk = c_chunk(h);
            DONE
        }
        Err(why) => refusal_number(why),
    }
}

/// A fresh chunk of `n * len` zero bytes.
#[unsafe(no_mangle)]
pub extern "C" fn dym_calloc(object: &mut DymObject, n: u64, len: u64, chunk: &mut DymHandle) -> u32
    ensures status { result ≡ status_of object.old.value (Some (Calloc n len)) }
    ensures after { IsAfter object.old.value (Some (Calloc n len)) object.new.value }
    ensures out_value { chunk.new ≡ chunk_after
        (reply_of object.old.value (Some (Calloc n len))) chunk.old }
{
    let inside = match object.ready() {
        Ok(inside) => inside,
        Err(status) => return status,
    };
    match inside.object.calloc(&(), n, len) {
        Ok(h) => {
            *chunk = c_chunk(h);
            DONE
        }
        Err(why) => refusal_number(why),
    }
}

/// A chunk of `len` bytes with the old bytes up to the smaller length, then zeros. What is told is where the chunk now is, and nil where
/// it was freed.
#[unsafe(no_mangle)]
pub extern "C" fn dym_realloc(
    object: &mut DymObject,
    h: DymHandle,
    len: u64,
    chunk: &mut DymHandle,
) -> u32
    ensures status { result ≡ status_of object.old.value (asked_realloc h len) }
    ensures after { IsAfter object.old.value (asked_realloc h len) object.new.value }
    ensures out_value { chunk.new ≡ chunk_after
        (reply_of object.old.value (asked_realloc h len)) chunk.old }
{
    let Some(place) = chunk_or_nil_of_c(h) else {
        return BAD;
    };
    let inside = match object.ready() {
        Ok(inside) => inside,
        Err(status) => return status,
    };
    match inside.object.realloc(&(), place, len) {
        Ok(place) => {
            *chunk = c_chunk_or_nil(place);
            DONE
        }
        Err(why) => refusal_number(why),
    }
}

/// Frees a chunk. Nil does nothing.
#[unsafe(no_mangle)]
pub extern "C" fn dym_free(object: &mut DymObject, h: DymHandle) -> u32
    ensures status { result ≡ status_of object.old.value (asked_free h) }
    ensures after { IsAfter object.old.value (asked_free h) object.new.value }
{
    let Some(place) = chunk_or_nil_of_c(h) else {
        return BAD;
    };
    let inside = match object.ready() {
        Ok(inside) => inside,
        Err(status) => return status,
    };
    done_number(inside.object.free(&(), place))
}

/// Writes the bytes into a chunk, from its place `at` on. Of more than a chunk can have none is read.
#[unsafe(no_mangle)]
pub extern "C" fn dym_write(object: &mut DymObject, h: DymHandle, at: u32, bytes: &[u8]) -> u32
    ensures status { result ≡ status_of object.old.value (asked_write h at bytes.now) }
    ensures after { IsAfter object.old.value (asked_write h at bytes.now) object.new.value }
{
    let Some(chunk) = chunk_of_c(h) else {
        return BAD;
    };
    let inside = match object.ready() {
        Ok(inside) => inside,
        Err(status) => return status,
    };
    done_number(write_bytes(&mut inside.object, chunk, at, bytes))
}

/// Makes `len` bytes of a chunk from its place `at` on `byte`.
#[unsafe(no_mangle)]
pub extern "C" fn dym_fill(object: &mut DymObject, h: DymHandle, at: u32, len: u32, byte: u8) -> u32
    ensures status { result ≡ status_of object.old.value (asked_fill h at len byte) }
    ensures after { IsAfter object.old.value (asked_fill h at len byte) object.new.value }
{
    let Some(chunk) = chunk_of_c(h) else {
        return BAD;
    };
    let inside = match object.ready() {
        Ok(inside) => inside,
        Err(status) => return status,
    };
    done_number(inside.object.fill(chunk, at, len, byte))
}

/// Copies the bytes of a chunk from its place `at` on into `out`. Of more than a chunk can have none is written.
#[unsafe(no_mangle)]
pub extern "C" fn dym_read(object: &mut DymObject, h: DymHandle, at: u32, out: &mut [u8]) -> u32
    ensures status { result ≡ status_of object.old.value (asked_read h at (length out.old)) }
    ensures after { IsAfter object.old.value (asked_read h at (length out.old)) object.new.value }
    ensures out_value { out.new ≡ bytes_after
        (reply_of object.old.value (asked_read h at (length out.old))) out.old }
{
    let Some(chunk) = chunk_of_c(h) else {
        return BAD;
    };
    let inside = match object.ready() {
        Ok(inside) => inside,
        Err(status) => return status,
    };
    done_number(read_bytes(&mut inside.object, chunk, at, out))
}

/// Writes the number of a handle into a chunk, from its place `at` on, in eight bytes, or 0 for nil.
#[unsafe(no_mangle)]
pub extern "C" fn dym_link(object: &mut DymObject, h: DymHandle, at: u32, to: DymHandle) -> u32
    ensures status { result ≡ status_of object.old.value (asked_link h at to) }
    ensures after { IsAfter object.old.value (asked_link h at to) object.new.value }
{
    let Some(chunk) = chunk_of_c(h) else {
        return BAD;
    };
    let Some(place) = chunk_or_nil_of_c(to) else {
        return BAD;
    };
    let inside = match object.ready() {
        Ok(inside) => inside,
        Err(status) => return status,
    };
    done_number(inside.object.link(chunk, at, place))
}

/// What the eight bytes of a chunk from its place `at` on name.
#[unsafe(no_mangle)]
pub extern "C" fn dym_follow(
    object: &mut DymObject,
    h: DymHandle,
    at: u32,
    found: &mut DymFound,
) -> u32
    ensures status { result ≡ status_of object.old.value (asked_follow h at) }
    ensures after { IsAfter object.old.value (asked_follow h at) object.new.value }
    ensures out_value { found.new ≡ found_after
        (reply_of object.old.value (asked_follow h at)) found.old }
{
    let Some(chunk) = chunk_of_c(h) else {
        return BAD;
    };
    let inside = match object.ready() {
        Ok(inside) => inside,
        Err(status) => return status,
    };
    match inside.object.follow(chunk, at) {
        Ok(what) => {
            *found = c_found(what);
            DONE
        }
        Err(why) => refusal_number(why),
    }
}

/// The sum of a chunk's bytes as numbers.
#[unsafe(no_mangle)]
pub extern "C" fn dym_sum(object: &mut DymObject, h: DymHandle, total: &mut u64) -> u32
    ensures status { result ≡ status_of object.old.value (asked_sum h) }
    ensures after { IsAfter object.old.value (asked_sum h) object.new.value }
    ensures out_value { total.new ≡ total_after
        (reply_of object.old.value (asked_sum h)) total.old }
{
    let Some(chunk) = chunk_of_c(h) else {
        return BAD;
    };
    let inside = match object.ready() {
        Ok(inside) => inside,
        Err(status) => return status,
    };
    match inside.object.sum(chunk) {
        Ok(sum) => {
            *total = sum;
            DONE
        }
        Err(why) => refusal_number(why),
    }
}
