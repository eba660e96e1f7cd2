//! Random numbers, by a generator that is one number of a state.
ghost use Rattle.std.specs.Prelude.{◌≡◌, ◌+◌, ◌<◌, ◌^◌};
ghost use Rattle.warp_models.specs.Random as definition;

/// A number, mixed well.
#[tactic(auto, unfolding(crate::specs::Random::mixed))]
pub fn mixed(x: u64) -> u64
    ensures { result ≡ definition.mixed x }
{
    let y = (x ^ (x >> 30)).wrapping_mul(0xbf58476d1ce4e5b9);
    let z = (y ^ (y >> 27)).wrapping_mul(0x94d049bb133111eb);
    z ^ (z >> 31)
}

/// The generator's next number.
#[tactic(auto, unfolding(crate::specs::Random::next))]
pub fn next(random: u64) -> u64
    ensures { result ≡ definition.next random }
{
    random.wrapping_add(0x9e3779b97f4a7c15)
}

/// A random number below a bound, of the generator's next number.
#[tactic(auto, unfolding(crate::specs::Random::drawn))]
pub fn drawn(random: &mut u64, bound: u64) -> u64
    requires { 0 < bound }
    ensures value { result ≡ definition.drawn random.old bound }
    ensures random { random.new ≡ definition.next random.old }
    ensures below { result < bound }
{
    *random = next(*random);
    mixed(*random) % bound
}

/// Where the generator of a process begins.
#[tactic(auto, unfolding(crate::specs::Random::seeded))]
pub fn seeded(seed: u64, process: u32) -> u64
    ensures { result ≡ definition.seeded seed process }
{
    let product = seed.wrapping_mul(0x2545f4914f6cdd1d);
    mixed(product.wrapping_add(u64::from(process)).wrapping_add(1))
}

/// A time without memory: it lasts for each further half-life with probability 1/2.
#[tactic(auto, unfolding(crate::specs::Random::memoryless))]
pub fn memoryless(half_life: u32, random: u64) -> u64
    ensures value { result ≡ definition.memoryless half_life random }
    ensures short { result + 1 < 2 ^ 64 }
{
    let half_life = u64::from(half_life);
    half_life * u64::from(random.leading_zeros()) + mixed(random) % (half_life + 1)
}
