//! A file of kept logs in memory.
ghost use Rattle.std.specs.Prelude.{◌≡◌, Some, None, IsTrue, IfOk};
ghost use Rattle.dym_base.specs.Names.{is_name};
ghost use Rattle.dym_ckpt.specs.SavedFiles.{AreOf, file_of_logs};

use crate::file_writer::{save, saved_len};
use dym_base::{Name, Version};
use dym_chain::KeptLogs;
use dym_io::{Failed, Sink};
use std::alloc::{AllocError, Global};

/// A file while it is put together. A push fails only where there is no memory for its bytes, and the error of that is kept.
#[derive(Drop)]
struct GrowingFile {
    bytes: Vec<u8>,
    faults: u64,
    error: Option<AllocError>,
    ghost why: { error ≡ None → faults ≡ 0 },
}

impl Sink for GrowingFile {
    ghost output = { λ s. record { written = Some s.bytes.items; flushed = None; faults = s.faults } };

    fn push(&mut self, piece: &[u8]) -> Result<usize, Failed> {
        match self.bytes.extend_from_slice(piece) {
            Ok(()) => Ok(piece.len()),
            Err(error) => {
                self.error = Some(error);
                self.faults = self.faults.saturating_add(1);
                Err(Failed)
            }
        }
    }

    fn flush(&mut self) -> Result<(), Failed> {
        Ok(())
    }
}

/// The bytes of the file of these logs, whose records are of this version. The only error is that of an allocation, and the logs are
/// as they were. There is room for the whole file at once.
pub fn file_bytes<L: KeptLogs>(
    alloc: Global,
    logs: &mut L,
    name: &Name,
    quota: u32,
    version: Version,
) -> Result<Vec<u8>, AllocError>
    requires idle { (L.meaning logs.old).lifted ≡ None }
    requires named { IsTrue (is_name name.now) }
    requires records { AreOf version (L.meaning logs.old) }
    ensures file { IfOk result (λ file.
        file.items ≡ file_of_logs name.now quota version (L.meaning logs.old)) }
    ensures same { L.meaning logs.new ≡ L.meaning logs.old }
{
    let len = saved_len(logs, name);
    let mut file = GrowingFile {
        bytes: Vec::with_capacity(alloc, len as usize)?,
        faults: 0,
        error: None,
    };
    let saved = save(logs, name, quota, version, &mut file);
    let GrowingFile { bytes, error, .. } = file;
    match saved {
        Ok(()) => Ok(bytes),
        Err(_) => Err(error.unwrap()),
    }
}
