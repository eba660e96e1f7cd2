//! A file of kept logs.
ghost use Rattle.std.specs.Prelude.{◌≡◌, ℕ, ◌<◌, length, None, IsTrue};
ghost use Rattle.dym_base.specs.BaseLogs.{oldest_depth};
ghost use Rattle.dym_base.specs.Files.{framed, head_bytes, head_of, version_number};
ghost use Rattle.dym_base.specs.Names.{is_name};
ghost use Rattle.dym_base.specs.declared.command.Version.{Version};
ghost use Rattle.dym_io.specs.Sink.{Writes};
ghost use Rattle.dym_slots.specs.Meanings.{record_at};
ghost use Rattle.dym_chain.specs.KeptRecords.{AreKeptRecords};
ghost use Rattle.dym_ckpt.specs.SavedFiles.{AreOf, file_of_logs, framed_from};

use crate::header::MAGIC;
use dym_base::{Name, Version};
use dym_chain::KeptLogs;
use dym_io::{Sink, SinkFault, push_parts};

/// The bytes of a header but for those of the name.
const HEAD_BYTES: u64 = 19;

/// The bytes of a record's length.
const LENGTH_BYTES: u64 = 4;

/// How many bytes the file of these logs has, whichever quota it names. It takes no memory.
pub fn saved_len<L: KeptLogs>(logs: &mut L, name: &Name) -> u64
    requires idle { (L.meaning logs.old).lifted ≡ None }
    ensures len { (v : Version) (quota : ℕ) → AreOf v (L.meaning logs.old)
        → result ≡ length (file_of_logs name.now quota v (L.meaning logs.old)) }
    ensures same { L.meaning logs.new ≡ L.meaning logs.old }
{
    let mut len = HEAD_BYTES + name.bytes().len() as u64;
    for place in 0..logs.slots() {
        len += LENGTH_BYTES + u64::from(record_len(logs, place));
    }
    len
}

/// Writes the file of these logs, whose records are of this version, or a prefix of it where the sink fails. The records are
/// written as they stand: it takes no memory, and the logs are as they were.
pub fn save<L: KeptLogs, W: Sink>(
    logs: &mut L,
    name: &Name,
    quota: u32,
    version: Version,
    sink: &mut W,
) -> Result<(), SinkFault>
    requires idle { (L.meaning logs.old).lifted ≡ None }
    requires named { IsTrue (is_name name.now) }
    requires records { AreOf version (L.meaning logs.old) }
    ensures written { Writes (W.output sink.old) (W.output sink.new)
        (file_of_logs name.now quota version (L.meaning logs.old)) result }
    ensures same { L.meaning logs.new ≡ L.meaning logs.old }
{
    write_head(logs, name, quota, version, sink)?;
    write_records(logs, sink)
}

/// Writes the header.
fn write_head<L: KeptLogs, W: Sink>(
    logs: &L,
    name: &Name,
    quota: u32,
    version: Version,
    sink: &mut W,
) -> Result<(), SinkFault>
    requires named { IsTrue (is_name name.now) }
    requires records { AreOf version (L.meaning logs.now) }
    ensures { Writes (W.output sink.old) (W.output sink.new)
        (head_bytes (head_of name.now quota version (L.meaning logs.now).base_logs
        (L.meaning logs.now).logs)) result }
{
    let name = name.bytes();
    push_parts(
        sink,
        &[
            MAGIC.as_slice(),
            &[name.len() as u8],
            name,
            &quota.to_le_bytes(),
            &[number_of(version)],
            &logs.slots().to_le_bytes(),
            &[depth_of_oldest(logs)],
        ],
    )
}

/// The number of a version.
fn number_of(version: Version) -> u8
    ensures { result ≡ version_number version }
{
    match version {
        Version::One => 1,
        Version::Two => 2,
    }
}

/// The depth of the oldest kept log, and 0 where none is kept.
fn depth_of_oldest<L: KeptLogs>(logs: &L) -> u8
    ensures { result ≡ oldest_depth (L.meaning logs.now).logs }
{
    if logs.kept() == 0 {
        0
    } else {
        logs.entry(0).depth
    }
}

/// Writes the records, each behind its length.
fn write_records<L: KeptLogs, W: Sink>(logs: &mut L, sink: &mut W) -> Result<(), SinkFault>
    requires idle { (L.meaning logs.old).lifted ≡ None }
    ensures written { Writes (W.output sink.old) (W.output sink.new)
        (framed_from 0 (L.meaning logs.old).records) result }
    ensures same { L.meaning logs.new ≡ L.meaning logs.old }
{
    for place in 0..logs.slots() {
        write_record(logs, place, sink)?;
    }
    Ok(())
}

/// The length of the record at a place.
fn record_len<L: KeptLogs>(logs: &mut L, place: u32) -> u32
    requires idle { (L.meaning logs.old).lifted ≡ None }
    requires kept { AreKeptRecords (L.meaning logs.old) }
    requires place { place < length (L.meaning logs.old).records }
    ensures len { result ≡ length (record_at (L.meaning logs.old).records place).bytes }
    ensures same { L.meaning logs.new ≡ L.meaning logs.old }
{
    let rec = logs.lift(place);
    let len = rec.bytes().len() as u32;
    logs.lower(place, rec);
    len
}

/// Writes the record at a place behind its length.
fn write_record<L: KeptLogs, W: Sink>(
    logs: &mut L,
    place: u32,
    sink: &mut W,
) -> Result<(), SinkFault>
    requires idle { (L.meaning logs.old).lifted ≡ None }
    requires kept { AreKeptRecords (L.meaning logs.old) }
    requires place { place < length (L.meaning logs.old).records }
    ensures written { Writes (W.output sink.old) (W.output sink.new)
        (framed (record_at (L.meaning logs.old).records place).bytes) result }
    ensures same { L.meaning logs.new ≡ L.meaning logs.old }
{
    let rec = logs.lift(place);
    let bytes = rec.bytes();
    let written = push_parts(sink, &[&(bytes.len() as u32).to_le_bytes(), bytes]);
    logs.lower(place, rec);
    written
}
