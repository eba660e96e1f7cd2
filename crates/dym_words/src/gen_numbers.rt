//! The numbers of a script that the generator makes.
ghost use Rattle.std.specs.Prelude.{◌≡◌, map};
ghost use Rattle.std.specs.String.{string_bytes};

use crate::number::{read_number, read_within};
use dym_base::limits::{MOST_MADE_COMMANDS, MOST_OBJECTS};

/// The numbers of a script that the generator makes.
#[derive(Clone, Copy)]
pub struct GenNumbers {
    pub seed: u64,
    pub objects: u32,
    pub commands: u32,
}

impl GenNumbers {
    ghost use Rattle.dym_words.specs.Orders.{made_of};

    /// The numbers that three words spell: the seed, the objects and the commands.
    pub fn of_words(words: &[String]) -> Option<GenNumbers>
        ensures { result ≡ made_of (map string_bytes words.now) }
    {
        let [seed, objects, commands] = words else {
            return None;
        };
        Some(GenNumbers {
            seed: read_number(seed.as_str())?,
            objects: read_within(objects.as_str(), 1, MOST_OBJECTS as u32)?,
            commands: read_within(commands.as_str(), 0, MOST_MADE_COMMANDS)?,
        })
    }
}
