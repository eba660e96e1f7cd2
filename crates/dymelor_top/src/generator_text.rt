//! A script that a seed makes, written into memory, and a source of its bytes.
ghost use Rattle.std.specs.Prelude.{◌≡◌, Some, None, IfOk, ⊤};
ghost use Rattle.dym_gen.specs.Scripts.{generated};
ghost use Rattle.dym_words.specs.Laws.{CanBeMade};

use dym_gen::gen_script;
use dym_io::{Failed, Sink, Source};
use std::alloc::{AllocError, Global};

/// The bytes of room that the longest made script fits in, so that it grows no more.
const MADE_ROOM: usize = 6_600_000;

/// What is left to read of a script that was made. No call fails.
#[derive(Drop)]
pub struct GeneratedSource<'a> {
    pub rest: &'a [u8],
}

impl<'a> Source for GeneratedSource<'a> {
    ghost left = { λ s. Some s.rest.now };

    ghost faults = { λ _. 0 };

    ghost goes_on = { λ _. ⊤ };

    fn pull(&mut self, out: &mut [u8]) -> Result<usize, Failed> {
        let amount = out.len().min(self.rest.len());
        let (front, rest) = self.rest.split_at(amount);
        out[..amount].copy_from_slice(front);
        self.rest = rest;
        Ok(amount)
    }
}

/// A script while it is made. A push fails only where there is no memory for its bytes, and the error of that is kept.
#[derive(Drop)]
struct GeneratedText {
    bytes: Vec<u8>,
    faults: u64,
    error: Option<AllocError>,
    ghost why: { error ≡ None → faults ≡ 0 },
}

impl Sink for GeneratedText {
    ghost output = { λ s.
        record { written = Some s.bytes.items; flushed = None; faults = s.faults } };

    fn push(&mut self, piece: &[u8]) -> Result<usize, Failed> {
        match self.bytes.extend_from_slice(piece) {
            Ok(()) => Ok(piece.len()),
            Err(error) => {
                self.error = Some(error);
                self.faults = self.faults.saturating_add(1);
                Err(Failed)
            }
        }
    }

    fn flush(&mut self) -> Result<(), Failed> {
        Ok(())
    }
}

/// The script that a seed makes.
pub fn generated_script(
    alloc: Global,
    seed: u64,
    objects: u32,
    commands: u32,
) -> Result<Vec<u8>, AllocError>
    requires made { CanBeMade objects commands }
    ensures { IfOk result (λ made. made.items ≡ generated seed objects commands) }
{
    let mut text = GeneratedText {
        bytes: Vec::with_capacity(alloc, MADE_ROOM)?,
        faults: 0,
        error: None,
    };
    let made = gen_script(&mut text, seed, objects, commands);
    let GeneratedText { bytes, error, .. } = text;
    match made {
        Ok(()) => Ok(bytes),
        Err(_) => Err(error.unwrap()),
    }
}
