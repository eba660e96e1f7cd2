//! What is told of objects that run.
use dym_base::Version;

/// What is told of objects that run: in which version they do, and whether the line of each object's view stands behind its part.
#[derive(Clone, Copy, Debug, PartialEq, Eq)]
pub struct ReportOptions {
    pub version: Version,
    pub views: bool,
}
