//! How long the pieces of a pattern are.

/// The rows of each piece of a pattern but the last, which has the rest.
#[derive(Clone, Copy, Debug, PartialEq, Eq)]
pub enum PieceLength {
    /// All of them: the pattern isn't cut.
    Whole,
    /// 64.
    Rows64,
    /// 32.
    Rows32,
    /// 16.
    Rows16,
    /// 8.
    Rows8,
}
