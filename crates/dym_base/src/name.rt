//! Names of simulation objects.
ghost use Rattle.std.specs.Prelude.{◌≡◌, List, ℕ, ◌≤◌, take, IfSome, IsSome, IsTrue, ◌↔◌};
ghost use Rattle.dym_base.specs.Names.{is_name, is_name_byte};

use crate::limits::MOST_NAME_BYTES;
use std::marker::Model;

/// The name of a simulation object: 1 to 32 characters of `A-Z a-z 0-9 _`, other than the word `object`. It is seen as its
/// list of bytes.
#[derive(Drop)]
pub struct Name {
    bytes: [u8; 32],
    len: usize,
}

impl Model for Name {
    ghost Value = { List ℕ };

    ghost view = { λ n. take n.len n.bytes };

    ghost invariant = { λ n. n.len ≤ 32 };
}

impl Name {
    /// The name of these bytes, where they are one. It takes no memory.
    pub fn new(bytes: &[u8]) -> Option<Name>
        ensures some { IsSome result ↔ IsTrue (is_name bytes.now) }
        ensures name { IfSome result (λ name. name ≡ bytes.now) }
    {
        if !is_name(bytes) {
            return None;
        }
        let len = bytes.len();
        let mut copy = [0; 32];
        copy[..len].copy_from_slice(bytes);
        Some(Name { bytes: copy, len })
    }

    /// The bytes of the name.
    pub fn bytes(&self) -> &[u8]
        ensures { result.now ≡ self.now }
    {
        &self.bytes[..self.len]
    }
}

/// Whether these bytes are a name.
pub fn is_name(bytes: &[u8]) -> bool
    ensures { result ≡ is_name bytes.now }
{
    if bytes.is_empty() || bytes.len() > MOST_NAME_BYTES {
        return false;
    }
    if !bytes.iter().all(is_name_byte) {
        return false;
    }
    bytes != b"object".as_slice()
}

/// Whether this byte may stand in a name.
fn is_name_byte(byte: &u8) -> bool
    ensures { result ≡ is_name_byte byte.now }
{
    byte.is_ascii_alphanumeric() || *byte == b'_'
}
