//! The limits of the product, each said once.

/// Bytes of one segment, and of the largest chunk.
pub const SEGMENT_BYTES: u32 = 65_536;

/// The least class exponent: the smallest chunks have `2^5` bytes.
pub const LEAST_EXPONENT: u8 = 5;

/// The greatest class exponent: the largest chunk is a whole segment of `2^16` bytes.
pub const GREATEST_EXPONENT: u8 = 16;

/// The size classes of chunks: one for each exponent from the least to the greatest.
pub const CLASSES: usize = 12;

/// The most chunks in one segment, which those of the least class are.
pub const MOST_CHUNKS: u32 = 2_048;

/// The greatest quota of an object, in segments; the least is 1.
pub const MOST_QUOTA: u32 = 1_024;

/// The most logs that an object keeps.
pub const MOST_KEPT_LOGS: u32 = 256;

/// The most incremental logs that follow one full log.
pub const MOST_DEPTH: u8 = 31;

/// The most records in an object's list: the kept logs and those that the oldest of them needs.
pub const MOST_RECORDS: u32 = 287;

/// The room of a list of records: one more than it ever holds.
pub const RECORD_ROOM: u32 = 288;

/// The slots of one log table.
pub const LOG_SLOTS: u32 = 320;

/// The words of one log table: the root, and one for each slot.
pub const LOG_WORDS: u32 = 321;

/// The bytes of the longest input.
pub const MOST_INPUT_BYTES: usize = 16_777_216;

/// The bytes of the longest line, without its end.
pub const MOST_LINE_BYTES: usize = 4_096;

/// The most objects that a script declares.
pub const MOST_OBJECTS: usize = 4_096;

/// The most commands of a script.
pub const MOST_COMMANDS: usize = 1_048_576;

/// The most commands of a script that is made.
pub const MOST_MADE_COMMANDS: u32 = 200_000;

/// The most bytes that one `read` line asks for.
pub const MOST_READ_BYTES: u32 = 256;

/// The most characters of an object's name.
pub const MOST_NAME_BYTES: usize = 32;

/// The most worker threads; the least is 1.
pub const MOST_WORKERS: u32 = 64;

/// The worker threads where no option says otherwise.
pub const DEFAULT_WORKERS: u32 = 4;

/// The most segments of a region; the least is 1.
pub const MOST_SEGMENTS: u32 = 16_384;

/// The segments of a region where no option says otherwise.
pub const DEFAULT_SEGMENTS: u32 = 1_024;

/// The greatest quantum: the commands of one turn; the least is 1.
pub const MOST_QUANTUM: u32 = 65_536;

/// The quantum where no option says otherwise.
pub const DEFAULT_QUANTUM: u32 = 64;

/// The counts of commands that ran, of records that were made, of commands that a heap applied and of commits are below
/// it wherever one more is counted. No run reaches it.
pub const COUNT_LIMIT: u64 = 1 << 60;

/// The most lines of a script of late events that aren't declarations.
pub const MOST_LATE_LINES: usize = 65_536;

/// The most late events that an object accepts, and the most lines of one object that have an event.
pub const MOST_LATE_EVENTS: u32 = 4_096;

/// A heap of late events is logged where so many events more are in it.
pub const EVENTS_PER_LATE_LOG: usize = 16;
