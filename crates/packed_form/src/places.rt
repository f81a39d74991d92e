//! Taking a packed pattern byte by byte.

ghost use Rattle.std.specs.Prelude.{◌≡◌, ◌≤◌};
ghost use Rattle.packed_form.specs.Faults.{taken};

use crate::{Command, Entry, EntryKind};

/// Where in an entry the next byte stands.
#[derive(Clone, Copy, Debug, PartialEq, Eq)]
pub enum Place {
    /// At the first byte of an entry, or behind this instrument where it isn't 0.
    AtEntry { instrument: u8 },
    /// At the parameter of a command before a note.
    AtNoteParam { instrument: u8, number: u8 },
    /// At the parameter of a command of a rest.
    AtRestParam { instrument: u8, number: u8 },
    /// At the note behind a command.
    AtNote { instrument: u8, command: Command },
}

/// What a byte does.
#[derive(Clone, Copy, Debug, PartialEq, Eq)]
pub enum Taken {
    /// The entry goes on.
    On(Place),
    /// The entry is complete.
    Made(Entry),
    /// The pattern is complete.
    End,
}

impl Place {
    /// What the byte does at this place, or none where no entry admits it there.
    pub fn take(self, byte: u8) -> Option<Taken>
        ensures { result ≡ taken self byte }
    {
        match self {
            Place::AtEntry { instrument } => take_first(instrument, byte),
            Place::AtNoteParam { instrument, number } => {
                if number == 0 && byte != 0 {
                    return None;
                }
                let command = Command {
                    number,
                    param: byte,
                };
                Some(Taken::On(Place::AtNote {
                    instrument,
                    command,
                }))
            }
            Place::AtRestParam { instrument, number } => {
                if number == 0 && byte != 0 {
                    return None;
                }
                let command = Command {
                    number,
                    param: byte,
                };
                let kind = EntryKind::NamedRest { command };
                Some(Taken::Made(Entry { instrument, kind }))
            }
            Place::AtNote {
                instrument,
                command,
            } => {
                if byte < 0x60 || byte >= 0xc0 {
                    return None;
                }
                let kind = EntryKind::NamedNote {
                    command,
                    note: byte,
                };
                Some(Taken::Made(Entry { instrument, kind }))
            }
        }
    }
}

/// What the first byte of an entry does, or the byte behind this instrument where it isn't 0.
fn take_first(instrument: u8, byte: u8) -> Option<Taken>
    ensures { result ≡ taken (Place.AtEntry instrument) byte }
{
    let kind = match byte {
        0x00 if instrument == 0 => return Some(Taken::End),
        0x01..=0x3f if instrument == 0 => {
            return Some(Taken::On(Place::AtEntry { instrument: byte }));
        }
        0x00..=0x3f => return None,
        0x40..=0x4f => {
            let number = byte - 0x40;
            return Some(Taken::On(Place::AtNoteParam { instrument, number }));
        }
        0x50..=0x5f => {
            let number = byte - 0x50;
            return Some(Taken::On(Place::AtRestParam { instrument, number }));
        }
        0x60..=0xbf => EntryKind::Note { note: byte },
        0xc0..=0xff => EntryKind::Rests { more: byte - 0xc0 },
    };
    Some(Taken::Made(Entry { instrument, kind }))
}
