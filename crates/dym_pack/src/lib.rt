//! Packed records: a heap at a time, as bytes.
//!
//! Below stand `dym_base`, whose definition of a packed log the bytes meet, and `dym_bits`; above
//! stand the heap, which lends its areas to be packed (`Areas`) and is loaded from records, and the
//! chain of logs. Its one contract: packing gives exactly the bytes of the definition, and each
//! reader tells what the packed log has, whatever log has these bytes; bytes that anyone may have
//! made become a record exactly where they are one.
#![tactic(auto)]

mod area_bytes;
mod areas;
mod indexed_bytes;
mod laws;
mod layout;
mod packer;
mod parsed_area;
mod record;
mod record_parser;
mod walk;

pub use areas::Areas;
pub use laws::{records_stand_for_one, records_tell_logs};
pub use packer::{pack, packed_len};
pub use record::{AreaHead, Record};
pub use record_parser::RecordFail;
