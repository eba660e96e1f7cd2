//! Where bytes come from and where they go: sources and sinks, and texts that are put together in a
//! buffer. Sources and sinks stand in memory, with calls that fail on demand, and over the standard
//! library's readers and writers.
//!
//! Below stand the standard library and crates of the toolchain alone; above stand the printers,
//! the generator, the checkpoint files and the top call. Its one contract: where bytes left or
//! written are told they are exact, and a count of faults never falls; a call that writes a text
//! appends all of it where it answers Ok, with no fault, and where it answers a fault it appended a
//! front of the text until a call on the sink failed, the one that did. A call that puts a text, or
//! the digits of a number, leaves what the buffer begins with up to `end`, puts its text behind,
//! and answers where that ends, within a bound.
#![tactic(auto)]

pub mod adapters;
pub mod faults;
pub mod memory;
pub mod sink;
pub mod source;
mod text;
pub mod whole_input;

pub use adapters::{StdSink, StdSource};
pub use faults::{Failed, SinkFault};
pub use memory::{MemSink, MemSource};
pub use sink::{Sink, push_all, push_parts};
pub use source::Source;
pub use text::{Word, put_named, put_number, put_short, put_text, put_word};
pub use whole_input::{ReadFail, read_whole};
