//! A walk over packed chunks that each stand after their length.
ghost use Rattle.std.specs.Prelude.{◌≡◌, ℕ, ◌+◌, ◌≤◌, List, length, take, drop};
ghost use Rattle.std.specs.Int.{w32, from_le_bytes};
ghost use Rattle.dym_pack.specs.ParsedAreas.{IsNth};

/// The bytes of a chunk's length.
pub(crate) const LENGTH_BYTES: usize = 4;

/// The bytes of the chunk that stands after `n` others.
pub(crate) fn chunk_after(bytes: &[u8], n: u32) -> &[u8]
    requires { (x : List ℕ) × IsNth bytes.now n x }
    ensures { (x : List ℕ) → IsNth bytes.now n x → result.now ≡ x }
{
    let mut at = 0;
    for _i in 0..n {
        at += LENGTH_BYTES + length_at(bytes, at) as usize;
    }
    let start = at + LENGTH_BYTES;
    &bytes[start..start + length_at(bytes, at) as usize]
}

/// The length of the chunk whose length stands at `at`.
pub(crate) fn length_at(bytes: &[u8], at: usize) -> u32
    requires { at + 4 ≤ length bytes.now }
    ensures { result ≡ from_le_bytes w32 (take 4 (drop at bytes.now)) }
{
    let four = &bytes[at..at + LENGTH_BYTES];
    u32::from_le_bytes([four[0], four[1], four[2], four[3]])
}
