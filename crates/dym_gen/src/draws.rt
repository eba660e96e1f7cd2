//! The numbers that the generator draws.
ghost use Rattle.std.specs.Prelude.{◌≡◌, ◌+◌, ◌<◌, ◌%◌, ◌^◌};
ghost use Rattle.dym_gen.specs.Draws.{next, below};

/// The state of the generator.
#[derive(Clone, Copy)]
pub struct Draws {
    pub state: u64,
    ghost small: { state < 2 ^ 31 },
}

impl Draws {
    /// The state that a seed gives.
    pub fn new(seed: u64) -> Draws
        ensures { result.state ≡ seed % 2 ^ 31 }
    {
        Draws {
            state: seed % 0x8000_0000,
        }
    }

    /// A number below `limit`.
    #[inline(always)]
    pub fn below(&mut self, limit: u32) -> u32
        requires { 0 < limit }
        ensures state { self.new.state ≡ next self.old.state }
        ensures number { result ≡ below limit self.new.state }
        ensures small { result < limit }
    {
        self.state = (self.state * 1_103_515_245 + 12_345) % 0x8000_0000;
        (self.state / 65_536) as u32 % limit
    }
}
