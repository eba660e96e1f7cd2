//! The size classes of chunks.
ghost use Rattle.std.specs.Prelude.{◌≡◌, ◌≤◌, ◌<◌, IfSome, MatchOption, option_map};
ghost use Rattle.dym_base.specs.Numbers.{cls, size, per, rank, IsNoClass};
ghost use Rattle.dym_base.specs.declared.limits.TheConstants.{LEAST_EXPONENT, GREATEST_EXPONENT, CLASSES, SEGMENT_BYTES};

use crate::limits::{GREATEST_EXPONENT, LEAST_EXPONENT, SEGMENT_BYTES};

/// The most bytes of a chunk of the least class.
const LEAST_SIZE: u64 = 32;

/// A size class, by its exponent: each of its chunks has `2^exp` bytes. What has one need not ask for its bounds.
#[derive(Clone, Copy, Debug, PartialEq, Eq)]
pub struct Class {
    pub exp: u8,
    pub ghost least: { LEAST_EXPONENT ≤ exp },
    pub ghost most: { exp ≤ GREATEST_EXPONENT },
}

impl Class {
    /// The class of an exponent, and None where no class has it.
    pub fn of_exponent(exp: u8) -> Option<Class>
        ensures { MatchOption result (IsNoClass exp) (λ class. class.exp ≡ exp) }
    {
        if exp < LEAST_EXPONENT {
            return None;
        }
        if exp > GREATEST_EXPONENT {
            return None;
        }
        Some(Class { exp })
    }

    /// The class of a chunk of `len` bytes: the least whose size is at least `len`. None exactly where `len` is above
    /// 65,536.
    pub fn of_len(len: u64) -> Option<Class>
        ensures value { option_map (λ class. class.exp) result ≡ cls len }
        ensures fits { IfSome result (λ class. (len ≤ size class.exp) × (len ≤ SEGMENT_BYTES)) }
    {
        if len <= LEAST_SIZE {
            return Some(Class {
                exp: LEAST_EXPONENT,
            });
        }
        if len > u64::from(SEGMENT_BYTES) {
            return None;
        }
        Some(Class {
            exp: ((len - 1).ilog2() + 1) as u8,
        })
    }

    /// The bytes of a chunk of the class.
    pub fn size(self) -> u32
        ensures { result ≡ size self.exp }
    {
        1 << self.exp
    }

    /// The chunks of the class in one segment.
    pub fn per_area(self) -> u32
        ensures { result ≡ per self.exp }
    {
        1 << (GREATEST_EXPONENT - self.exp)
    }

    /// The place of the class among all, from 0 on.
    pub fn rank(self) -> usize
        ensures value { result ≡ rank self.exp }
        ensures within { result < CLASSES }
    {
        usize::from(self.exp - LEAST_EXPONENT)
    }
}
