//! How objects run in waves, and what is told of them.
use crate::report_options::ReportOptions;
use crate::shape::Shape;

/// How objects run in waves, and what is told of them.
#[derive(Clone, Copy, Debug, PartialEq, Eq)]
pub struct WaveOptions {
    pub report: ReportOptions,
    pub shape: Shape,
}
