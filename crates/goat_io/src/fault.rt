//! Why a read, a write or a put was refused.

/// Why a folder gave no bytes.
#[derive(Clone, Copy, Debug, PartialEq, Eq)]
pub enum ReadFault {
    /// No file has the name.
    Missing,
    /// The file has more bytes than the caller's limit.
    TooLong,
    /// The device failed.
    Failed,
    /// Out of memory.
    NoMemory,
}

/// Why a folder didn't take a file whole.
#[derive(Clone, Copy, Debug, PartialEq, Eq)]
pub enum WriteFault {
    /// The device failed, and may hold a prefix of the bytes.
    Failed,
    /// Out of memory; the files are as before.
    NoMemory,
}

/// Why a sink didn't take a piece whole.
#[derive(Clone, Copy, Debug, PartialEq, Eq)]
pub enum SinkFault {
    /// The device failed, and may have taken a prefix of the piece.
    Failed,
    /// Out of memory; nothing was taken.
    NoMemory,
}
