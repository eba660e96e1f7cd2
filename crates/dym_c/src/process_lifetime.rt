//! Opening and closing a process.
ghost use Rattle.std.specs.Prelude.{◌≡◌, None, IsSomeAnd};
ghost use Rattle.dym_c.specs.Openings.{IsOpening, version_of};
ghost use Rattle.dym_c.specs.ProcessCalls.{IsStart, IsClosingProcess};

use crate::lifetime::open;
use crate::process::DymProcess;
use crate::process_content::ProcessContent;
use crate::status::{BAD, DONE, MEMORY, STATE};
use std::alloc::Global;

/// What a process is opened with.
#[repr(C)]
#[derive(Clone, Copy)]
pub struct DymProcessConfig {
    pub number: u32,
    pub processes: u32,
    pub period: u64,
    pub quota: u32,
    pub version: u32,
    pub is_checked: u32,
}

/// Opens a closed process with an empty object: its start is open, in which C makes its state and sends its first events.
#[unsafe(no_mangle)]
pub extern "C" fn dym_process_open(
    alloc: Global,
    process: &mut DymProcess,
    config: &DymProcessConfig,
) -> u32
    ensures closed { result ≡ 0 → process.old.kept.value ≡ None }
    ensures opened { result ≡ 0
        → IsSomeAnd process.new.kept.value (IsStart config.now.number config.now.processes config.now.period) }
    ensures object { result ≡ 0
        → IsOpening process.old.object.value config.now.quota (version_of config.now.version) 0 process.new.object.value }
    ensures unchanged { (result ≡ 0 → ⊥)
        → (process.new.kept.value ≡ process.old.kept.value) × (process.new.object.value ≡ process.old.object.value) }
{
    if config.number >= config.processes || config.is_checked > 1 {
        return BAD;
    }
    if !process.kept.as_kept().is_closed() {
        return STATE;
    }
    let content = ProcessContent::starting(alloc, config.number, config.processes, config.period);
    let Ok(inside) = Box::new(alloc, content) else {
        return MEMORY;
    };
    let status = open(
        alloc,
        &mut process.object,
        config.quota,
        config.version,
        config.is_checked == 1,
    );
    if status == DONE {
        process.kept.as_kept().open(alloc, inside);
    }
    status
}

/// Closes a process and its object, and gives all their memory back.
#[unsafe(no_mangle)]
pub extern "C" fn dym_process_close(alloc: Global, process: &mut DymProcess) -> u32
    ensures { IsClosingProcess process.old.kept.value process.old.object.value result process.new.kept.value process.new.object.value }
{
    if process.kept.as_kept().is_closed() {
        return STATE;
    }
    process.kept.as_kept().close(alloc);
    if !process.object.as_kept().is_closed() {
        process.object.as_kept().close(alloc);
    }
    DONE
}
