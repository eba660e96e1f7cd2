//! The bytes of a segment in a vector that holds only as many of them as were used. Behind these the segment is zero, up to the
//! vector's capacity. No call here takes memory or moves the vector's block.
ghost use Rattle.std.specs.Prelude.{◌≡◌, ℕ, ◌+◌, ◌≤◌, List, length, replicate, vec_len, vec_capacity};
ghost use Rattle.std_alloc.specs.Vec.{vec_ptr};
ghost use Rattle.dym_region.specs.Content.{part_of, with_part, zeros_behind};

use core::mem::replace_with;
use std::alloc::Allocator;

/// Makes at least the first `to` bytes real. What the segment holds stays.
pub(crate) fn fill_to<A: Allocator>(bytes: &mut Vec<u8, A>, to: usize)
    requires { to ≤ vec_capacity bytes.old }
    ensures content { zeros_behind (vec_capacity bytes.new) bytes.new.items
        ≡ zeros_behind (vec_capacity bytes.old) bytes.old.items }
    ensures reached { to ≤ vec_len bytes.new }
    ensures more { vec_len bytes.old ≤ vec_len bytes.new }
    ensures room { vec_capacity bytes.new ≡ vec_capacity bytes.old }
    ensures place { vec_ptr bytes.new ≡ vec_ptr bytes.old }
{
    if bytes.len() < to {
        replace_with(bytes, to, filled_to);
    }
}

// The vector with zeros behind its bytes up to `to`. It is a value of this function's own, so that the loop becomes one fill.
fn filled_to<A: Allocator>(mut bytes: Vec<u8, A>, to: usize) -> (Vec<u8, A>, ())
    requires { to ≤ vec_capacity bytes }
    ensures content { zeros_behind (vec_capacity result.0) result.0.items
        ≡ zeros_behind (vec_capacity bytes) bytes.items }
    ensures reached { to ≤ vec_len result.0 }
    ensures more { vec_len bytes ≤ vec_len result.0 }
    ensures room { vec_capacity result.0 ≡ vec_capacity bytes }
    ensures place { vec_ptr result.0 ≡ vec_ptr bytes }
{
    while bytes.len() < to {
        bytes.push_reserved(0);
    }
    (bytes, ())
}

/// The segment's `len` bytes from place `at` on, which are real.
pub(crate) fn bytes_at<A: Allocator>(bytes: &Vec<u8, A>, at: usize, len: usize) -> &[u8]
    requires { at + len ≤ vec_len bytes.now }
    ensures { result.now ≡ part_of (zeros_behind (vec_capacity bytes.now) bytes.now.items) at len }
{
    &bytes[at..at + len]
}

/// Copies the segment's bytes from place `at` on into `out`.
pub(crate) fn read_at<A: Allocator>(bytes: &Vec<u8, A>, at: usize, out: &mut [u8])
    requires { at + length out.old ≤ vec_capacity bytes.now }
    ensures { out.new
        ≡ part_of (zeros_behind (vec_capacity bytes.now) bytes.now.items) at (length out.old) }
{
    let end = at + out.len();
    if end <= bytes.len() {
        out.copy_from_slice(&bytes[at..end]);
    } else {
        read_past(bytes, at, out);
    }
}

// Copies the segment's bytes from place `at` on into `out`, where they end behind those that were used.
fn read_past<A: Allocator>(bytes: &Vec<u8, A>, at: usize, out: &mut [u8])
    requires within { at + length out.old ≤ vec_capacity bytes.now }
    requires past { vec_len bytes.now ≤ at + length out.old }
    ensures { out.new
        ≡ part_of (zeros_behind (vec_capacity bytes.now) bytes.now.items) at (length out.old) }
{
    out.fill(0);
    if at < bytes.len() {
        let there = bytes.len() - at;
        out[..there].copy_from_slice(&bytes[at..]);
    }
}

/// Copies `new` over the segment's bytes from place `at` on.
pub(crate) fn write_at<A: Allocator>(bytes: &mut Vec<u8, A>, at: usize, new: &[u8])
    requires { at + length new.now ≤ vec_capacity bytes.old }
    ensures content { zeros_behind (vec_capacity bytes.new) bytes.new.items
        ≡ with_part (zeros_behind (vec_capacity bytes.old) bytes.old.items) at new.now }
    ensures reached { at + length new.now ≤ vec_len bytes.new }
    ensures more { vec_len bytes.old ≤ vec_len bytes.new }
    ensures room { vec_capacity bytes.new ≡ vec_capacity bytes.old }
    ensures place { vec_ptr bytes.new ≡ vec_ptr bytes.old }
{
    let end = at + new.len();
    fill_to(bytes, end);
    bytes[at..end].copy_from_slice(new);
}

/// Makes the segment's `len` bytes from place `at` on zero. Behind what was used they are zero already.
pub(crate) fn zero_at<A: Allocator>(bytes: &mut Vec<u8, A>, at: usize, len: usize)
    requires { at + len ≤ vec_capacity bytes.old }
    ensures content { zeros_behind (vec_capacity bytes.new) bytes.new.items
        ≡ with_part (zeros_behind (vec_capacity bytes.old) bytes.old.items) at (replicate len 0) }
    ensures reached { at + len ≤ vec_len bytes.new }
    ensures more { vec_len bytes.old ≤ vec_len bytes.new }
    ensures room { vec_capacity bytes.new ≡ vec_capacity bytes.old }
    ensures place { vec_ptr bytes.new ≡ vec_ptr bytes.old }
{
    let end = at + len;
    let used = at < bytes.len();
    fill_to(bytes, end);
    if used {
        bytes[at..end].fill(0);
    }
}
