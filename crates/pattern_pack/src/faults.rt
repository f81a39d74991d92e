//! What packing a pattern answers where its text is too long.

/// The packed text of a pattern is longer than a packed pattern may be.
#[derive(Clone, Copy, Debug, PartialEq, Eq)]
pub struct PatternTooLong {
    /// Its length in bytes, with the `$00` at its end. `pack_pattern` answers 257 to 513.
    pub length: u16,
}
