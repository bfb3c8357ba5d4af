//! How a session ends.

/// How a session ended.
#[derive(Clone, Copy, Debug, PartialEq, Eq)]
pub enum SessionEnd {
    /// `quit` was answered.
    Quit,
    /// A read gave no bytes.
    InputEnd,
    /// A read failed.
    ReadFault,
    /// A write or a flush failed, or a write took no bytes.
    WriteFault,
    /// A line that is too long or isn't UTF-8 was answered.
    BadLine,
    /// Memory ran out while a line was read, and that was answered.
    Memory,
    /// As many reads as a session may make were made, and another was needed.
    TooManyReads,
}
