//! Why a song can't be played.

use song_model::TableName;

/// The first rule that a song breaks so that it can't be played, with the least place where it breaks it. The rules are
/// tried in the order of the variants; they are this project's profile of the GoatTracker 2 readme. A table is the
/// wave, pulse or filter table.
#[derive(Clone, Copy, Debug, PartialEq, Eq)]
pub enum Unplayable {
    /// No subtune is stored, or each one has an empty orderlist.
    NoSubtune,
    /// An orderlist of a playable subtune names a pattern that isn't stored.
    MissingPattern {
        /// The file's subtune, 1 to 32.
        subtune: u8,
        /// The channel, 1 to 3.
        channel: u8,
        /// The place in the orderlist, 0 to 253.
        place: u8,
        /// The pattern's number, 0 to 207.
        pattern: u8,
    },
    /// The restart position of an orderlist of a playable subtune isn't the place of an entry, or no pattern
    /// stands from there to the end.
    BadRestart {
        /// The file's subtune, 1 to 32.
        subtune: u8,
        /// The channel, 1 to 3.
        channel: u8,
    },
    /// A program of the wave, pulse or filter table comes to a row that isn't stored.
    TableOverflow {
        /// The table.
        table: TableName,
        /// The row, 1 to 256.
        row: u16,
    },
    /// A pointer or a jump names a jump row of the wave, pulse or filter table.
    PointerToJump {
        /// The table.
        table: TableName,
        /// The jump row that is named, 1 to 255.
        row: u8,
    },
}
