//! Places of a song.

/// A place of a song, as messages about songs count them.
#[derive(Clone, Copy, Debug, PartialEq, Eq, PartialOrd, Ord)]
pub enum Place {
    /// A byte of an orderlist of a playable subtune.
    InOrder {
        /// The file's subtune, 1 to 32.
        subtune: u8,
        /// The channel, 1 to 3.
        channel: u8,
        /// The place in the orderlist, 0 to 253.
        place: u8,
    },
    /// A row of a used pattern.
    InPattern {
        /// The pattern's number, 0 to 207.
        pattern: u8,
        /// The row, 0 to 127.
        row: u8,
    },
    /// A used instrument.
    InInstrument {
        /// The instrument's number, 1 to 63.
        instrument: u8,
    },
    /// A row of the wave table that programs come to.
    InWaveTable {
        /// The row, 1 to 255.
        row: u8,
    },
}
