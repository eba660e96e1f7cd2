//! Bits that are set in one bitmap or another.
ghost use Rattle.std.specs.Prelude.{◌≡◌, ℕ, true, false, slice_index_or};
ghost use Rattle.dym_ckpt.specs.RecordOrder.{HasBit, LacksBit};

/// Whether each bit that is set in the bytes of a bitmap is set in those of one of two others. Past their ends all bits are clear.
pub(crate) fn are_covered(used: &[u8], packed: &[u8], before: &[u8]) -> bool
    ensures covered { result ≡ true → (i : ℕ) → HasBit used.now i → LacksBit packed.now i
        → HasBit before.now i }
    ensures bare { result ≡ false → (i : ℕ) × HasBit used.now i × LacksBit packed.now i
        × LacksBit before.now i }
{
    for q in 0..used.len() {
        if used[q] & !byte_at(packed, q) & !byte_at(before, q) != 0 {
            return false;
        }
    }
    true
}

/// A byte, and 0 past the end.
fn byte_at(bytes: &[u8], q: usize) -> u8
    ensures { result ≡ slice_index_or bytes.now q 0 }
{
    if q < bytes.len() { bytes[q] } else { 0 }
}
