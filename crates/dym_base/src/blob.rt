//! Bytes that a command or a reply keeps.
ghost use Rattle.std.specs.Prelude.{◌≡◌, List, ℕ, nat_eq, IfOk};
ghost use Rattle.std.specs.Cmp.{partial_equiv_from_equiv};
ghost use Rattle.std.specs.Cmp.Lexicographic.{pointwise, nat_list_eq_equiv};

use smallvec::SmallVec;
use std::alloc::{AllocError, Global};
use std::marker::Model;

/// How many bytes are kept in the value itself: as many as a command that reads or writes a few words has.
const INLINE: usize = 16;

/// Bytes that a command or a reply keeps, seen as their list. Few bytes take no memory of their own.
#[derive(Drop)]
pub struct Blob {
    bytes: SmallVec<u8, INLINE>,
}

impl Model for Blob {
    ghost Value = { List ℕ };

    ghost view = { λ b. b.bytes.items };
}

impl Blob {
    /// A copy of the bytes.
    pub fn new(alloc: Global, bytes: &[u8]) -> Result<Blob, AllocError>
        ensures { IfOk result (λ blob. blob ≡ bytes.now) }
    {
        let bytes = SmallVec::from_slice(alloc, bytes)?;
        Ok(Blob { bytes })
    }

    /// The bytes of a list, which is moved and not copied.
    pub fn of_vec(bytes: Vec<u8>) -> Blob
        ensures { result ≡ bytes.items }
    {
        Blob {
            bytes: SmallVec::from_vec(bytes),
        }
    }

    /// The bytes.
    pub fn bytes(&self) -> &[u8]
        ensures { result.now ≡ self.now }
    {
        self.bytes.as_slice()
    }
}

impl Clone for Blob {
    ghost is_clone = { λ b c. c ≡ b };

    fn clone(&self) -> Result<Blob, AllocError> {
        Blob::new(*self.bytes.allocator(), self.bytes())
    }
}

impl PartialEq for Blob {
    ghost eq = { pointwise nat_eq };

    ghost laws = { partial_equiv_from_equiv nat_list_eq_equiv };

    fn eq(&self, other: &Self) -> bool {
        self.bytes() == other.bytes()
    }
}
