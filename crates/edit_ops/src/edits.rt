//! The nineteen edits, and why one can't be done.

use song_model::{Row, TableRow};

/// An edit of a song.
///
/// Patterns, rows of a pattern and places of an orderlist are counted from 0; subtunes (as the file has them),
/// channels, instruments and rows of a table from 1.
#[derive(Clone, Copy, Debug)]
pub enum Edit {
    /// Sets a row of a pattern.
    SetRow {
        pattern: u8,
        place: u8,
        row: Row,
    },
    /// Inserts a row before one of a pattern, or after its last.
    InsertRow {
        pattern: u8,
        place: u8,
        row: Row,
    },
    /// Deletes a row of a pattern; the last one that is left stays.
    DeleteRow {
        pattern: u8,
        place: u8,
    },
    /// Cuts a pattern to 1 to 128 rows, or adds rests.
    SetLength {
        pattern: u8,
        length: u8,
    },
    /// Makes one pattern equal to another.
    CopyPattern {
        from: u8,
        to: u8,
    },
    /// Adds half tones to each note of a pattern; a byte from `$80` on stands for itself less 256.
    TransposePattern {
        pattern: u8,
        by: u8,
    },
    /// Sets an entry of an orderlist.
    SetOrder {
        subtune: u8,
        channel: u8,
        place: u8,
        entry: u8,
    },
    /// Inserts an entry before one of an orderlist, or after its last.
    InsertOrder {
        subtune: u8,
        channel: u8,
        place: u8,
        entry: u8,
    },
    /// Deletes an entry of an orderlist.
    DeleteOrder {
        subtune: u8,
        channel: u8,
        place: u8,
    },
    /// Sets an orderlist's restart position, to any byte.
    SetRestart {
        subtune: u8,
        channel: u8,
        restart: u8,
    },
    /// Sets one of the nine bytes of an instrument, 1 to 63, that stand before its name. Zero instruments are stored
    /// up to that number first.
    SetInstrument {
        instrument: u8,
        field: u8,
        value: u8,
    },
    /// Sets the name of an instrument, 1 to 63. Zero instruments are stored up to that number first.
    SetInstrumentName {
        instrument: u8,
        name: [u8; 16],
    },
    /// Sets a row of a table: 0 wave, 1 pulse, 2 filter, 3 speed.
    SetTable {
        table: u8,
        number: u8,
        row: TableRow,
    },
    /// Inserts a row before one of a table, or after its last. The pointers into the table from that row on move
    /// with the rows; the new row's own sides stay as given.
    InsertTable {
        table: u8,
        number: u8,
        row: TableRow,
    },
    /// Deletes a row of a table. The pointers into the table above that row move with the rows.
    DeleteTable {
        table: u8,
        number: u8,
    },
    /// Sets a text: 0 name, 1 author, 2 copyright.
    SetText {
        which: u8,
        text: [u8; 32],
    },
    /// Adds a subtune of three empty orderlists.
    AddSubtune,
    /// Removes a subtune.
    RemoveSubtune {
        subtune: u8,
    },
    /// Cuts the patterns to 0 to 208, or adds patterns of 64 rests.
    SetPatternCount {
        count: u8,
    },
}

/// Why an edit wasn't done. The song is as before.
#[derive(Clone, Copy, Debug, PartialEq, Eq)]
pub enum EditFault {
    /// What the edit speaks of isn't there.
    NoSuchPlace,
    /// A list would leave its limits.
    OutOfLimit,
    /// A value is out of its range.
    BadValue,
    /// Out of memory.
    NoMemory,
}
