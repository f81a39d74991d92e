//! The SID that a packed song is made for.

/// Which of the two SIDs a song is made for: a word in the header of a PSID file. No frame depends on it.
#[derive(Clone, Copy, Debug, PartialEq, Eq)]
pub enum Chip {
    /// The MOS 6581.
    Mos6581,
    /// The MOS 8580.
    Mos8580,
}
