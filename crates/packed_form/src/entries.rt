//! The entries of a packed pattern.

ghost use Rattle.std.specs.Prelude.{◌≡◌};
ghost use Rattle.packed_form.specs.Entries.{command_behind, entry_note, more_rests};

/// A command and its parameter, as a row has them.
#[derive(Clone, Copy, Debug, PartialEq, Eq)]
pub struct Command {
    /// `$00-$0F`.
    pub number: u8,
    /// Any byte; `$00` for command 0.
    pub param: u8,
}

/// What an entry has behind its instrument.
#[derive(Clone, Copy, Debug, PartialEq, Eq)]
pub enum EntryKind {
    /// `$40` plus the command's number, the parameter and a note: the running command becomes this one; a row.
    NamedNote { command: Command, note: u8 },
    /// `$50` plus the command's number and the parameter: the running command becomes this one; a rest.
    NamedRest { command: Command },
    /// `$60-$BF`: a row with this note and the running command.
    Note { note: u8 },
    /// `$C0` plus 0 to 63: a rest with the running command, and so many more.
    Rests { more: u8 },
}

/// An entry: one or more rows.
#[derive(Clone, Copy, Debug, PartialEq, Eq)]
pub struct Entry {
    /// The instrument of the first row: `$01-$3F`, a byte of its own, or `$00` where none is named.
    pub instrument: u8,
    /// The rest of the entry.
    pub kind: EntryKind,
}

impl EntryKind {
    /// The running command from this entry's first row on.
    pub fn command_behind(self, running: Command) -> Command
        ensures { result ≡ command_behind running self }
    {
        match self {
            EntryKind::NamedNote { command, .. } => command,
            EntryKind::NamedRest { command } => command,
            EntryKind::Note { .. } => running,
            EntryKind::Rests { .. } => running,
        }
    }

    /// The note of the first row.
    pub fn note(self) -> u8
        ensures { result ≡ entry_note self }
    {
        match self {
            EntryKind::NamedNote { note, .. } => note,
            EntryKind::NamedRest { .. } => 0xbd,
            EntryKind::Note { note } => note,
            EntryKind::Rests { .. } => 0xbd,
        }
    }

    /// How many rests follow the first row.
    pub fn more_rests(self) -> u8
        ensures { result ≡ more_rests self }
    {
        match self {
            EntryKind::Rests { more } => more,
            _ => 0,
        }
    }
}
