//! One large block of bytes: its room is taken out of its vector, cut into vectors that lie in the block, joined again and
//! put back. Only this file has raw pointers. No byte is read or written here.
ghost use Rattle.std.specs.Prelude.{◌≡◌, ◌+◌, ◌-◌, ◌^◌, ◌<◌, ◌≤◌, ℕ, List, []};
ghost use base.Fml.{ftrue, fex, fwand, fsep, feq};
ghost use denote.RawPtr.{block_ptr, ◌+ₚ◌};
ghost use Rattle.dym_region.specs.Block.{Allocation, allocation_code, room_in};

use std::marker::{Move, Owns};
use std_alloc::vec::{Lodged, lodge};

/// A vector without its room: the right to free its block, once all of the room is back.
pub(crate) struct Claim {
    hollow: Vec<u8>,
}

impl Owns for Claim {
    ghost Value = { Allocation };

    ghost coded = { allocation_code };

    ghost shr_at = { λ _ _ _. ftrue };
}

impl Move for Claim {
    // With the room of all its bytes it is an empty vector that has that room.
    ghost own_val = { λ a vs. fwand (room_in a.block 0 a.size)
        (fex Inside (λ it. fsep (feq (List ℕ) it.hollow.items [])
        (fsep (feq ℕ it.hollow.cap a.size) (Fields.own_val it vs)))) };
}

/// Takes the room out of an empty vector. It begins its block.
pub(crate) fn take_out(mut whole: Vec<u8>) -> (Vec<u8, Lodged>, Claim)
    requires empty { whole.len ≡ 0 }
    requires some { 0 < whole.cap }
    ensures items { result.0.items ≡ [] }
    ensures room { result.0.cap ≡ whole.cap }
    ensures start { result.0.ptr ≡ block_ptr result.1.block 0 }
    ensures size { result.1.size ≡ whole.cap }
{
    let start = whole.as_mut_ptr();
    let size = whole.capacity();
    unsafe { hollow_out(whole, start, size) }
}

/// Puts the room back into the vector that it was taken out of. What was written there is forgotten.
pub(crate) fn put_back(bytes: Vec<u8, Lodged>, claim: Claim) -> Vec<u8>
    requires start { bytes.ptr ≡ block_ptr claim.block 0 }
    requires all { bytes.cap ≡ claim.size }
    ensures { (result.items ≡ []) × (result.cap ≡ bytes.cap) }
{
    let _len = bytes.dislodge();
    let Claim { hollow } = claim;
    hollow
}

/// Cuts a vector's room in two at byte `at`. What was written there is forgotten.
pub(crate) fn split(mut bytes: Vec<u8, Lodged>, at: usize) -> (Vec<u8, Lodged>, Vec<u8, Lodged>)
    requires { at ≤ bytes.cap }
    ensures front { result.0.items ≡ [] }
    ensures front_room { result.0.cap ≡ at }
    ensures front_place { result.0.ptr ≡ bytes.ptr }
    ensures back { result.1.items ≡ [] }
    ensures back_room { result.1.cap ≡ bytes.cap - at }
    ensures back_place { result.1.ptr ≡ bytes.ptr +ₚ at }
{
    let start = bytes.as_mut_ptr();
    let rest = bytes.capacity() - at;
    unsafe { divide(bytes, at, rest, start, start.byte_add(at)) }
}

/// Joins the room of two vectors that lie side by side. What was written there is forgotten.
pub(crate) fn join(mut front: Vec<u8, Lodged>, back: Vec<u8, Lodged>) -> Vec<u8, Lodged>
    requires side_by_side { back.ptr ≡ front.ptr +ₚ front.cap }
    requires small { front.cap + back.cap < 2 ^ 63 }
    ensures items { result.items ≡ [] }
    ensures room { result.cap ≡ front.cap + back.cap }
    ensures place { result.ptr ≡ front.ptr }
{
    let start = front.as_mut_ptr();
    let size = front.capacity() + back.capacity();
    unsafe { unite(front, back, start, size) }
}

// The room of an empty vector as a vector that lies at `start`, and the claim to put it back.
unsafe fn hollow_out(whole: Vec<u8>, start: *mut u8, size: usize) -> (Vec<u8, Lodged>, Claim)
    requires { (start ≡ whole.ptr) × (whole.len ≡ 0) × (size ≡ whole.cap) × (0 < size) }
    ensures { (result.0.items ≡ []) × (result.0.cap ≡ size)
        × (result.0.ptr ≡ block_ptr result.1.block 0) × (result.1.size ≡ size) }
{
    (lodge(start, 0, size), Claim { hollow: whole })
}

// The room of a vector as two vectors, of which the first lies at `start` and the other at `middle`.
unsafe fn divide(
    bytes: Vec<u8, Lodged>,
    at: usize,
    rest: usize,
    start: *mut u8,
    middle: *mut u8,
) -> (Vec<u8, Lodged>, Vec<u8, Lodged>)
    requires { (start ≡ bytes.ptr) × (middle ≡ start +ₚ at) × (at + rest ≡ bytes.cap) }
    ensures { (result.0.items ≡ []) × (result.0.cap ≡ at) × (result.0.ptr ≡ start)
        × (result.1.items ≡ []) × (result.1.cap ≡ rest) × (result.1.ptr ≡ middle) }
{
    let _len = bytes.dislodge();
    (lodge(start, 0, at), lodge(middle, 0, rest))
}

// The room of two vectors side by side, of which the first begins at `start`, as one.
unsafe fn unite(
    front: Vec<u8, Lodged>,
    back: Vec<u8, Lodged>,
    start: *mut u8,
    size: usize,
) -> Vec<u8, Lodged>
    requires { (start ≡ front.ptr) × (back.ptr ≡ start +ₚ front.cap) × (size ≡ front.cap + back.cap)
        × (size < 2 ^ 63) }
    ensures { (result.items ≡ []) × (result.cap ≡ size) × (result.ptr ≡ start) }
{
    let _front = front.dislodge();
    let _back = back.dislodge();
    lodge(start, 0, size)
}
