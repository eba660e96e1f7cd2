//! Why no log was taken.

use dym_base::Refusal;

/// Why no log was taken. Nothing changed then.
#[derive(Clone, Copy, Debug, PartialEq, Eq)]
pub enum LogError {
    /// The log was refused.
    Refused(Refusal),
    /// Memory was wanting.
    Memory,
}
