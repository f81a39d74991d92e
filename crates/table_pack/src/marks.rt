//! Sets of row numbers.

/// A mark for each number from 0 to 255.
pub type ByteMarks = [bool; 256];
