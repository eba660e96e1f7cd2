//! The sum of bytes.
ghost use Rattle.std.specs.Prelude.{◌≡◌, ℕ, ◌+◌, ◌*◌, ◌<◌, ◌≤◌, length, sum};
ghost use Rattle.dym_base.specs.declared.limits.TheConstants.{SEGMENT_BYTES};

/// The sum of a chunk's bytes as numbers. Numbers of 32 bits hold it, and more of them are added at a time.
pub(crate) fn sum_bytes(bytes: &[u8]) -> u32
    requires { length bytes.now ≤ SEGMENT_BYTES }
    ensures total { result ≡ sum bytes.now }
    ensures small { result ≤ 255 * length bytes.now }
{
    let mut total = 0;
    for byte in bytes {
        total += u32::from(*byte);
    }
    total
}
