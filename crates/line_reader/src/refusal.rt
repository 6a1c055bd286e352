//! Why no line is read.

/// Why no line is read.
#[derive(Clone, Copy, Debug, PartialEq, Eq)]
pub enum NotRead {
    Memory,
    /// The source failed.
    SourceFault,
}
