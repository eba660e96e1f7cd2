//! What the program prints: replies, heaps, logs, summaries and errors, as text in a sink.
//!
//! Below stand `dym_commands`, of whose replies its definitions speak, `dym_heap`, whose chunks are
//! printed, and `dym_io`; above stand the top call and what runs objects in waves. Its one contract:
//! each call writes the text that its definition says, or a front of it where the sink failed, and
//! then the count of its faults rose. No call takes memory. It knows of no script: what a script's
//! objects print (`report_text`) and come to (`totals_of`) is defined in `dym_wave`, for every order.
#![tactic(auto)]

pub mod hex_text;
pub mod late_lines;
pub mod object;
pub mod object_report;
pub mod order;
pub mod page;
pub mod reply;
pub mod reply_text;
pub mod tally;
pub mod totals;
pub mod write_fail;

pub use hex_text::write_hex_line;
pub use late_lines::{LateOut, ViewLine, write_late_end, write_late_line, write_view};
pub use object::{write_heading, write_image, write_logs};
pub use object_report::{live_chunks, write_object, write_state};
pub use order::{write_counts, write_end, write_error, write_events, write_usage};
pub use page::Page;
pub use reply::{write_replies, write_reply};
pub use tally::Tally;
pub use totals::{Totals, write_summary};
pub use write_fail::WriteFail;
