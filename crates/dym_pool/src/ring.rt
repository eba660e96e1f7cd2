//! Places in a ring.
ghost use Rattle.std.specs.Prelude.{◌≡◌, ◌≢◌, ◌⊎◌, ◌+◌, ◌<◌};

/// The place after that one, of so many in a ring.
pub(crate) fn after(place: usize, count: usize) -> usize
    requires { place < count }
    ensures { ((place + 1 ≡ count) × (result ≡ 0)) ⊎ ((place + 1 ≢ count) × (result ≡ place + 1)) }
{
    if place + 1 == count { 0 } else { place + 1 }
}
