//! What a pool runs.
ghost use Rattle.std.specs.Prelude.{◌≡◌, ◌<◌, ℕ};

/// Work that is done turn by turn, by whichever worker has it.
///
/// Contracts see its number, how much is left of it, and where it came from.
pub trait Job<Runtime>: Send {
    /// Where a job came from: plain data that no turn changes. No value of it is made.
    type Origin;

    ghost number_of: { Self → ℕ };

    ghost left_of: { Self → ℕ };

    ghost origin_of: { Self → Self.Origin };

    /// Its place in the list of jobs.
    fn number(&self) -> u32
        ensures { result ≡ number_of self.now };

    /// How much is left to do; it has ended at 0.
    fn left(&self) -> u32
        ensures { result ≡ left_of self.now };

    /// Does a part of what is left.
    fn turn(&mut self, rt: &Runtime)
        requires { 0 < left_of self.old }
        ensures number { number_of self.new ≡ number_of self.old }
        ensures origin { origin_of self.new ≡ origin_of self.old }
        ensures left { left_of self.new < left_of self.old };
}
