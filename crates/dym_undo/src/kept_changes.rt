//! What is kept of one change.
ghost use Rattle.std.specs.Prelude.{◌≡◌, ℕ, ◌+◌, ◌^◌, ◌<◌, ◌≤◌, ◌++◌, ◌∷◌, [], None, Some, length, vec_len, vec_capacity};

use crate::head::Head;
use dym_base::Handle;

/// Keeps that a chunk was dead.
pub(crate) fn push_dead(heads: &mut Vec<Head>, handle: Handle)
    requires { vec_len heads.old < vec_capacity heads.old }
    ensures heads { heads.new.items
        ≡ heads.old.items ++ record { handle = handle; len = None } ∷ [] }
    ensures room { vec_capacity heads.old ≤ vec_capacity heads.new }
{
    heads.push_reserved(Head { handle, len: None });
}

/// Keeps what a live chunk was: its length, and its bytes behind those that are kept.
pub(crate) fn push_live(heads: &mut Vec<Head>, bytes: &mut Vec<u8>, handle: Handle, chunk: &[u8])
    requires heads { vec_len heads.old < vec_capacity heads.old }
    requires bytes { length bytes.old.items + length chunk.now ≤ vec_capacity bytes.old }
    requires short { length chunk.now < 2 ^ 32 }
    ensures heads { heads.new.items
        ≡ heads.old.items ++ record { handle = handle; len = Some (length chunk.now) } ∷ [] }
    ensures bytes { bytes.new.items ≡ bytes.old.items ++ chunk.now }
    ensures head_room { vec_capacity heads.old ≤ vec_capacity heads.new }
    ensures byte_room { vec_capacity bytes.old ≤ vec_capacity bytes.new }
{
    heads.push_reserved(Head {
        handle,
        len: Some(chunk.len() as u32),
    });
    append_reserved(bytes, chunk);
}

/// Appends bytes in room that is there. That is said before the call, so that the compiler leaves out the vector's growth.
fn append_reserved(bytes: &mut Vec<u8>, more: &[u8])
    requires { length bytes.old.items + length more.now ≤ vec_capacity bytes.old }
    ensures items { bytes.new.items ≡ bytes.old.items ++ more.now }
    ensures room { vec_capacity bytes.old ≤ vec_capacity bytes.new }
{
    if bytes.capacity() - bytes.len() < more.len() {
        unreachable!();
    }
    let Ok(()) = bytes.extend_from_slice(more) else {
        unreachable!();
    };
}
