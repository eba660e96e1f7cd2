//! Checksums of states, by which two runs of one model are compared.
ghost use Rattle.std.specs.Prelude.{◌≡◌, ℕ};
ghost use Rattle.warp_models.specs.Checksums as definition;

use crate::random::mixed;

/// A state of which a checksum is made.
pub trait Summed {
    /// The sum of a state.
    ghost sum: { Self → ℕ };

    /// The sum of this state, in which memory's addresses don't count.
    fn sum(&self) -> u64
        ensures { result ≡ sum self.now };
}

/// A sum with a number more.
pub fn with_number(sum: u64, number: u64) -> u64
    ensures { result ≡ definition.with_number sum number }
{
    mixed(sum ^ number)
}

/// The checksum of the states of all processes, in the order of their numbers.
pub fn checksum<S: Summed>(states: &[S]) -> u64
    ensures { result ≡ definition.checksum_of S.sum states.now }
{
    let mut total: u64 = 0;
    for (process, state) in states.iter().enumerate() {
        total = total.wrapping_add(mixed(state.sum().wrapping_add(process as u64)));
    }
    total
}
