//! The order `load`: what a checkpoint file holds, restored to a time where one is named.
ghost use Rattle.std.specs.Prelude.{◌≡◌, ◌++◌, ℕ, List, None};
ghost use Rattle.dym_io.specs.Sink.{Writes as WritesText};
ghost use Rattle.dym_heap.specs.Meaning.{IsSound};
ghost use Rattle.dym_chain.specs.Answers.{restored_reply};
ghost use Rattle.dym_chain.specs.Chains.{Belongs, object_of};
ghost use Rattle.dym_ckpt.specs.FileReads.{IsLoaded};
ghost use Rattle.dym_report.specs.Orders.{end_text};
ghost use Rattle.dymelor_top.specs.Checkpoints.{restored_text, loaded_text};
ghost use Rattle.dymelor_top.specs.Answers.{IsLoadAnswer};
ghost use Rattle.dymelor_top.specs.Calls.{AnswersRead};

use crate::stop::Stop;
use dym_base::limits::MOST_INPUT_BYTES;
use dym_base::{BadKind, Name, Refusal, Reply};
use dym_chain::{Chain, VecKeep};
use dym_ckpt::{Loaded, load_file};
use dym_heap::Heap;
use dym_io::{Sink, SinkFault};
use dym_quota::OwnSupply;
use dym_report::{write_end, write_object};
use std::alloc::Global;

/// Answers with what a file holds.
pub fn answer_loaded<W: Sink>(
    alloc: Global,
    time: Option<u64>,
    file: &[u8],
    sink: &mut W,
) -> Result<(), Stop>
    ensures { AnswersRead (IsLoadAnswer time file.now) (W.output sink.old) (W.output sink.new) result }
{
    if file.len() > MOST_INPUT_BYTES {
        return Err(Stop::Bad {
            line: 0,
            kind: BadKind::TooLong,
        });
    }
    let loaded = load_file(alloc, file)?;
    Ok(write_loaded(loaded, time, sink)?)
}

/// Writes what was made of a file, restored to a time where one is named, and gives its segments back.
fn write_loaded<W: Sink>(loaded: Loaded, time: Option<u64>, sink: &mut W) -> Result<(), SinkFault>
    requires { (bytes : List ℕ) × IsLoaded bytes loaded }
    ensures { (bytes : List ℕ) → (is : IsLoaded bytes loaded)
        → WritesText (W.output sink.old) (W.output sink.new)
        (loaded_text time is.head loaded.chain.logs) result }
{
    let Loaded {
        name,
        mut heap,
        mut chain,
    } = loaded;
    let written = write_restored(&name, &mut heap, &mut chain, time, sink);
    heap.end(&());
    chain.into_keep();
    written
}

/// Restores a heap to a time, where one is named, and writes its part and the last line.
fn write_restored<W: Sink>(
    name: &Name,
    heap: &mut Heap<OwnSupply>,
    chain: &mut Chain<VecKeep>,
    time: Option<u64>,
    sink: &mut W,
) -> Result<(), SinkFault>
    requires belongs { Belongs heap.old.version heap.old.quota heap.old.state chain.old }
    requires sound { IsSound heap.old }
    requires idle { chain.old.lifted ≡ None }
    ensures written { WritesText (W.output sink.old) (W.output sink.new)
        (restored_text heap.old.version heap.old.quota name.now
        (object_of heap.old.state chain.old) time ++ end_text) result }
    ensures idle { chain.new.lifted ≡ None }
{
    write_part(name, heap, chain, time, sink)?;
    write_end(sink)
}

/// Restores a heap to a time, where one is named, and writes its part.
fn write_part<W: Sink>(
    name: &Name,
    heap: &mut Heap<OwnSupply>,
    chain: &mut Chain<VecKeep>,
    time: Option<u64>,
    sink: &mut W,
) -> Result<(), SinkFault>
    requires belongs { Belongs heap.old.version heap.old.quota heap.old.state chain.old }
    requires sound { IsSound heap.old }
    requires idle { chain.old.lifted ≡ None }
    ensures written { WritesText (W.output sink.old) (W.output sink.new)
        (restored_text heap.old.version heap.old.quota name.now
        (object_of heap.old.state chain.old) time) result }
    ensures idle { chain.new.lifted ≡ None }
{
    match time {
        None => write_object(sink, name, &[], heap, chain.kept(), chain.slots()),
        Some(time) => {
            let reply = reply_of(chain.restore(&(), heap, time));
            write_object(sink, name, &[reply], heap, chain.kept(), chain.slots())
        }
    }
}

/// The reply that tells which log was restored.
fn reply_of(answer: Result<u64, Refusal>) -> Reply
    ensures { result ≡ restored_reply answer }
{
    match answer {
        Ok(time) => Reply::At(time),
        Err(why) => Reply::Refused(why),
    }
}
