//! The sizes of chunks as words.
ghost use Rattle.std.specs.Prelude.{◌≡◌, ◌*◌, ◌^◌, ◌<◌, ◌++◌, take, codes, decimal};

use dym_io::Word;

/// One of the sizes 32, 64, 128 and 256, and a colon.
#[inline(always)]
pub fn size(draw: u32) -> Word
    requires { draw < 4 }
    ensures { take result.len result.bytes ≡ decimal (32 * 2 ^ draw) ++ codes ":" }
{
    match draw {
        0 => Word {
            bytes: *b"32: ",
            len: 3,
        },
        1 => Word {
            bytes: *b"64: ",
            len: 3,
        },
        2 => Word {
            bytes: *b"128:",
            len: 4,
        },
        _ => Word {
            bytes: *b"256:",
            len: 4,
        },
    }
}
