//! Handles: the names of chunks, which a rollback doesn't change.
ghost use Rattle.std.specs.Prelude.{◌≡◌, ◌+◌, ◌^◌, ◌<◌, ◌/◌, ◌↔◌, ◌⊎◌, IsNone, IfSome, MatchBool, MatchOption};
ghost use Rattle.dym_base.specs.Numbers.{number, IsClass, IsNoClass};
ghost use Rattle.dym_base.specs.declared.limits.TheConstants.{LEAST_EXPONENT, GREATEST_EXPONENT};

use crate::class::Class;
use crate::limits::{GREATEST_EXPONENT, LEAST_EXPONENT};

/// The name of a chunk: the exponent of its class, and its index in that class.
///
/// A handle is any pair of numbers. One whose exponent is no class's is live in no heap.
#[derive(Clone, Copy, Debug, PartialEq, Eq, Hash)]
pub struct Handle {
    pub exp: u8,
    pub index: u32,
}

impl Handle {
    /// Whether a class has the handle's exponent. Where none has, the handle is live in no heap.
    pub fn has_class(self) -> bool
        ensures { MatchBool result (IsClass self.exp) (IsNoClass self.exp) }
    {
        if self.exp < LEAST_EXPONENT {
            return false;
        }
        if self.exp > GREATEST_EXPONENT {
            return false;
        }
        true
    }

    /// The class of the chunk, and None where no class has its exponent.
    pub fn class(self) -> Option<Class>
        ensures { MatchOption result (IsNoClass self.exp) (λ class. class.exp ≡ self.exp) }
    {
        Class::of_exponent(self.exp)
    }

    /// The number that stands for the handle in a chunk's bytes: `exp * 2^32 + index`.
    pub fn number(self) -> u64
        ensures { result ≡ number self.exp self.index }
    {
        (u64::from(self.exp) << 32) + u64::from(self.index)
    }

    /// The handle of a number, where its exponent is that of a class. The number 0 is nil, and names no handle.
    pub fn of_number(n: u64) -> Option<Handle>
        ensures none { IsNone result
            ↔ ((n / 2 ^ 32 < LEAST_EXPONENT) ⊎ (GREATEST_EXPONENT < n / 2 ^ 32)) }
        ensures some { IfSome result (λ h. n ≡ number h.exp h.index) }
        ensures class { IfSome result (λ h. IsClass h.exp) }
    {
        let exp = n >> 32;
        if !(u64::from(LEAST_EXPONENT)..=u64::from(GREATEST_EXPONENT)).contains(&exp) {
            return None;
        }
        Some(Handle {
            exp: exp as u8,
            index: (n & 0xffff_ffff) as u32,
        })
    }
}
