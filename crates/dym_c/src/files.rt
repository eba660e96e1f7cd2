//! An object as a checkpoint file, and back.
ghost use Rattle.std.specs.Prelude.{◌≡◌, length, IfOk, IfErr, IsTrue};
ghost use Rattle.dym_base.specs.Names.{is_name};
ghost use Rattle.dym_ckpt.specs.FileRecords.{FailsAs};
ghost use Rattle.dym_c.specs.SavedFiles.{IsSaving, IsLoading, IsCopied, IsLoadedObject, file_of_object};

use crate::object::DymObject;
use crate::object_content::{ObjectContent, Process};
use crate::status::{BAD, DONE, FILE, MEMORY, STATE, refusal_number};
use dym_base::{Name, Refusal};
use dym_ckpt::{FileFail, read_file};
use dym_quota::FixedSupply;
use dym_undo_files::{file_of_undo, undo_of_file};
use dym_undo_object::UndoObject;
use std::alloc::{AllocError, Global};

/// Writes the checkpoint file of an object's kept logs taken again, under a name, to where the bytes begin. How long it is is told also where it
/// has no room there.
#[unsafe(no_mangle)]
pub extern "C" fn dym_save(
    alloc: Global,
    object: &mut DymObject,
    name: &[u8],
    bytes: &mut [u8],
    len: &mut u64,
) -> u32
    ensures saving { IsSaving object.old.value name.now result bytes.old bytes.new len.old len.new }
    ensures same { object.new.value ≡ object.old.value }
{
    let Some(name) = Name::new(name) else {
        return BAD;
    };
    let Some(inside) = object.inside() else {
        return STATE;
    };
    match file_of_process(alloc, &inside.object, &name) {
        Ok(file) => {
            *len = file.len() as u64;
            copy_to_front(&file, bytes)
        }
        Err(_) => MEMORY,
    }
}

/// Copies a file to where bytes begin, where it has room there.
fn copy_to_front(file: &[u8], bytes: &mut [u8]) -> u32
    ensures { IsCopied file.now result bytes.old bytes.new (length file.now) }
{
    if bytes.len() < file.len() {
        return refusal_number(Refusal::Range);
    }
    bytes[..file.len()].copy_from_slice(file);
    DONE
}

/// The checkpoint file of an object's kept logs.
fn file_of_process(alloc: Global, object: &Process, name: &Name) -> Result<Vec<u8>, AllocError>
    requires { IsTrue (is_name name.now) }
    ensures { IfOk result (λ file. file.items ≡ file_of_object name.now object.now) }
{
    file_of_undo(alloc, object.heap(), object.undo(), name)
}

/// Opens a closed object as the newest log of a checkpoint file has it, with all its logs. Where the bytes are no file, the first part
/// that fails is told.
#[unsafe(no_mangle)]
pub extern "C" fn dym_load(
    alloc: Global,
    object: &mut DymObject,
    bytes: &[u8],
    part: &mut u32,
) -> u32
    ensures { IsLoading object.old.value bytes.now result object.new.value part.old part.new }
{
    if !object.as_kept().is_closed() {
        return STATE;
    }
    match loaded(alloc, bytes) {
        Ok(inside) => {
            object.as_kept().open(alloc, inside);
            DONE
        }
        Err(FileFail::Bad { part: failing }) => {
            *part = failing;
            FILE
        }
        Err(FileFail::Memory) => MEMORY,
    }
}

/// The object of a file.
fn loaded(alloc: Global, bytes: &[u8]) -> Result<Box<ObjectContent>, FileFail>
    ensures loaded { IfOk result (λ inside. IsLoadedObject bytes.now inside.value) }
    ensures fails { IfErr result (FailsAs bytes.now) }
{
    let content = read_file(alloc, bytes)?;
    let Ok(supply) = FixedSupply::open(alloc, content.quota()) else {
        return Err(FileFail::Memory);
    };
    let (_name, heap, undo) = match undo_of_file(alloc, content, &(), supply) {
        Ok(loaded) => loaded,
        Err(supply) => {
            supply.close();
            return Err(FileFail::Memory);
        }
    };
    let object = UndoObject::of_parts(heap, undo, 0);
    match Box::new(alloc, ObjectContent { object, copy: None }) {
        Ok(inside) => Ok(inside),
        Err(_) => Err(FileFail::Memory),
    }
}
