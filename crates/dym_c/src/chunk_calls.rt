//! Chunks in place: where they lie, and which of them were written there.
ghost use Rattle.std.specs.Prelude.{◌≡◌, ◌+◌, option_map};
ghost use Rattle.dym_c.specs.AskedCommands.{asked_touch};
ghost use Rattle.dym_c.specs.Calls.{status_of, IsAfter};
ghost use Rattle.dym_c.specs.ChunkPlaces.{address_after, touched_address, with_all_touched, with_touched_in, start_after, IsHandleAt};
ghost use Rattle.dym_c.specs.Handles.{chunk_of};
ghost use Rattle.dym_c.specs.Inspections.{size_status, open_status};

use crate::handle::{DymHandle, c_chunk, chunk_of_c};
use crate::object::DymObject;
use crate::status::{BAD, DONE, STATE, refusal_number};
use dym_base::Refusal;

/// Where a chunk lies, to be read there.
#[unsafe(no_mangle)]
pub extern "C" fn dym_address(object: &mut DymObject, h: DymHandle, address: &mut *const u8) -> u32
    ensures status { result ≡ size_status object.old.value (chunk_of h) }
    ensures out_value { address.new ≡ address_after object.old.value (chunk_of h) address.old }
    ensures same { object.new.value ≡ object.old.value }
{
    let Some(chunk) = chunk_of_c(h) else {
        return BAD;
    };
    let Some(inside) = object.inside() else {
        return STATE;
    };
    match inside.object.address(chunk) {
        Some(place) => {
            *address = place;
            DONE
        }
        None => refusal_number(Refusal::Dead),
    }
}

/// Where a chunk lies, to be read and written there: all its bytes count as written.
#[unsafe(no_mangle)]
pub extern "C" fn dym_touch(object: &mut DymObject, h: DymHandle, address: &mut *const u8) -> u32
    ensures status { result ≡ status_of object.old.value (asked_touch object.old.value h) }
    ensures after { IsAfter object.old.value (asked_touch object.old.value h) object.new.value }
    ensures out_value { address.new ≡ touched_address object.old.value (chunk_of h) address.old }
{
    let Some(chunk) = chunk_of_c(h) else {
        return BAD;
    };
    let inside = match object.ready() {
        Ok(inside) => inside,
        Err(status) => return status,
    };
    match inside.object.touch(chunk) {
        Ok(place) => {
            *address = place;
            DONE
        }
        Err(why) => refusal_number(why),
    }
}

/// Makes all live chunks count as written.
#[unsafe(no_mangle)]
pub extern "C" fn dym_touch_all(object: &mut DymObject) -> u32
    ensures status { result ≡ open_status object.old.value }
    ensures after { object.new.value ≡ option_map with_all_touched object.old.value }
{
    let Some(inside) = object.inside() else {
        return STATE;
    };
    inside.object.touch_all();
    DONE
}

/// Makes each live chunk count as written of which a byte lies in the `len` bytes from `offset` on of the object's region.
#[unsafe(no_mangle)]
pub extern "C" fn dym_wrote_offset(object: &mut DymObject, offset: u64, len: u64) -> u32
    ensures status { result ≡ open_status object.old.value }
    ensures after { object.new.value ≡ option_map
        (with_touched_in offset (offset + len)) object.old.value }
{
    let Some(inside) = object.inside() else {
        return STATE;
    };
    inside.object.touch_at(offset, len);
    DONE
}

/// Where the object's region begins.
#[unsafe(no_mangle)]
pub extern "C" fn dym_start(object: &mut DymObject, start: &mut *const u8) -> u32
    ensures status { result ≡ open_status object.old.value }
    ensures out_value { start.new ≡ start_after object.old.value start.old }
    ensures same { object.new.value ≡ object.old.value }
{
    let Some(inside) = object.inside() else {
        return STATE;
    };
    *start = inside.object.start();
    DONE
}

/// The live chunk that has the byte at `offset` of the object's region.
#[unsafe(no_mangle)]
pub extern "C" fn dym_handle_offset(
    object: &mut DymObject,
    offset: u64,
    chunk: &mut DymHandle,
) -> u32
    ensures told { IsHandleAt object.old.value offset result chunk.old chunk.new }
    ensures same { object.new.value ≡ object.old.value }
{
    let Some(inside) = object.inside() else {
        return STATE;
    };
    let found = inside.object.handle_at(offset);
    match found {
        Some(h) => {
            *chunk = c_chunk(h);
            DONE
        }
        None => refusal_number(Refusal::Dead),
    }
}
