//! Ranges of the frequency table.

/// Numbers of the frequency table that follow each other. Those from 0 to 95 have a frequency, and those above stand for
/// none.
#[derive(Clone, Copy, Debug, PartialEq, Eq)]
pub struct NumberRange {
    /// The first of them, 0 to 128; 0 where there is none.
    pub first: u8,
    /// How many there are, 0 to 129.
    pub count: u8,
}
