//! Which object a command is of, and which of that object's commands it is.
ghost use Rattle.std.specs.Prelude.{◌≡◌, ℕ, ◌+◌, ◌/◌, ◌%◌, ◌<◌};

/// Command `number` of object `object`.
#[derive(Clone, Copy)]
pub struct CommandPlace {
    pub object: u32,
    pub number: u32,
}

impl CommandPlace {
    /// The place of line `k` of the commands.
    pub fn of(k: u32, objects: u32) -> CommandPlace
        requires { 0 < objects }
        ensures object { result.object ≡ k % objects }
        ensures number { result.number ≡ k / objects }
    {
        CommandPlace {
            object: k % objects,
            number: k / objects,
        }
    }

    /// The place of the next line, which is found without a division.
    #[inline(always)]
    pub fn next(self, objects: u32) -> CommandPlace
        requires object { self.object < objects }
        requires number { self.number < 1000000 }
        ensures object { (k : ℕ) → self.object ≡ k % objects → result.object ≡ (k + 1) % objects }
        ensures number { (k : ℕ) → self.object ≡ k % objects → self.number ≡ k / objects
            → result.number ≡ (k + 1) / objects }
    {
        let object = self.object + 1;
        if object < objects {
            CommandPlace {
                object,
                number: self.number,
            }
        } else {
            CommandPlace {
                object: 0,
                number: self.number + 1,
            }
        }
    }
}
