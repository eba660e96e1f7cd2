//! Bytes that a word writes in hexadecimal digits.
ghost use Rattle.std.specs.Prelude.{◌≡◌, ◌++◌, IfOk, OnOk, OnErr, IfSome};
ghost use Rattle.dym_commands.specs.Hexes.{hex_of, IsAtFront};

use crate::digits::{are_digits, decode_digits, digits_at_front};
use dym_base::Blob;
use std::alloc::{AllocError, Global};
use std::marker::Model;

/// The bytes that a word writes, seen as their list. The word was tested, so that it can be decoded any time: only memory can
/// be wanting then.
#[derive(Drop)]
pub struct HexBytes<'a> {
    digits: &'a [u8],
}

impl<'a> Model for HexBytes<'a> {
    ghost use Rattle.std.specs.Prelude.{List, ℕ};
    ghost use Rattle.dym_commands.specs.Hexes.{decoded, AreDigits};

    ghost Value = { List ℕ };

    ghost view = { λ h. decoded h.digits.now };

    ghost invariant = { λ h. AreDigits h.digits.now };
}

impl<'a> HexBytes<'a> {
    /// The bytes that a word writes: none where it is a dash, and one for each two digits where it has at least two of them, an
    /// even number, and nothing else.
    #[tactic(auto, unfolding(crate::specs::Hexes::hex_of))]
    pub fn of_word(word: &'a [u8]) -> Option<HexBytes<'a>>
        ensures { result ≡ hex_of word.now }
    {
        if word == b"-".as_slice() {
            return Some(HexBytes {
                digits: b"".as_slice(),
            });
        }
        if word.len() < 2 || word.len() % 2 != 0 {
            return None;
        }
        if !are_digits(word) {
            return None;
        }
        Some(HexBytes { digits: word })
    }

    /// The bytes that the digits at the front of a text write, and the text after them. Where those are no word for bytes, or
    /// are the front of a long text with no line end, nothing is said of them.
    #[inline(always)]
    pub fn at_front(text: &'a [u8]) -> Option<(HexBytes<'a>, &'a [u8])>
        ensures { IfSome result (λ cut. IsAtFront text.now cut.0 cut.1.now) }
    {
        let count = digits_at_front(text)?;
        let (digits, rest) = text.split_at(count);
        if digits.len() < 2 || digits.len() % 2 != 0 {
            return None;
        }
        Some((HexBytes { digits }, rest))
    }

    /// Writes the bytes behind those of a list.
    pub fn append_to(&self, list: &mut Vec<u8>) -> Result<(), AllocError>
        ensures bytes { OnOk result (list.new.items ≡ list.old.items ++ self.now) }
        ensures same { OnErr result (list.new.items ≡ list.old.items) }
    {
        let place = list.len();
        list.resize(place + self.digits.len() / 2, 0)?;
        decode_digits(self.digits, &mut list[place..]);
        Ok(())
    }

    /// The bytes, in memory of their own.
    pub fn blob(&self, alloc: Global) -> Result<Blob, AllocError>
        ensures { IfOk result (λ blob. blob ≡ self.now) }
    {
        let mut bytes = Vec::new(alloc);
        self.append_to(&mut bytes)?;
        Ok(Blob::of_vec(bytes))
    }
}
