//! What `join` answers in place of a song.

/// A part of a song that has a limit of its own.
#[derive(Clone, Copy, Debug, PartialEq, Eq)]
pub enum JoinPart {
    /// The first song's stored subtunes, and the second's playable ones.
    Subtunes,
    /// Instruments.
    Instruments,
    /// Rows of the wave table.
    Wave,
    /// Rows of the pulse table.
    Pulse,
    /// Rows of the filter table.
    Filter,
    /// Rows of the speed table.
    Speed,
    /// Patterns.
    Patterns,
}

/// Why two songs can't be joined.
#[derive(Clone, Copy, Debug, PartialEq, Eq)]
pub enum JoinFault {
    /// The joined song would have more of a part than a song may have: how many.
    OverLimit { part: JoinPart, sum: u16 },
    /// An instrument that song 1 or 2 uses isn't stored; the joined song may have another one there.
    LooseInstrument { song: u8, instrument: u8 },
    /// A row of the speed table that song 1 or 2 uses isn't stored; the joined song may have another one there.
    LooseSpeed { song: u8, row: u8 },
    /// The gateoff timers of instrument 1 differ in their low six bits, which are these. Each voice begins with
    /// instrument 1, and that is the first song's.
    GateTimer { first: u8, second: u8 },
    /// In a channel, 1 to 3, of a playable subtune of the second song, counted from 1, a note is played before a row
    /// names an instrument: it would be played with the first song's instrument 1.
    NoteBeforeInstrument { subtune: u8, channel: u8 },
    /// Out of memory.
    NoMemory,
}
