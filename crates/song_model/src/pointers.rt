//! Which table a pointer points into.

ghost use Rattle.std.specs.Prelude.{◌≡◌};
ghost use Rattle.song_model.specs.Pointers.{instrument_pointer, command_table, wave_row_table};

use crate::{Instrument, TableName};

impl Instrument {
    /// The instrument's pointer into this table, 0 for none; that into the speed table is its vibrato.
    pub fn pointer(&self, name: TableName) -> u8
        ensures { result ≡ instrument_pointer name self.now }
    {
        match name {
            TableName::Wave => self.wave,
            TableName::Pulse => self.pulse,
            TableName::Filter => self.filter,
            TableName::Speed => self.vibrato,
        }
    }
}

/// The table that a command of a row of a pattern, 0 to `$F`, points into by its parameter, as the GoatTracker 2 readme
/// has it; none where the parameter is no pointer.
pub fn command_table(command: u8) -> Option<TableName>
    ensures { result ≡ command_table command }
{
    match command {
        1..=4 | 0xe => Some(TableName::Speed),
        8 => Some(TableName::Wave),
        9 => Some(TableName::Pulse),
        0xa => Some(TableName::Filter),
        _ => None,
    }
}

/// The table that a row of the wave table with this left side points into by its right side, as the GoatTracker 2
/// readme has it; none where the right side is no pointer.
pub fn wave_row_table(left: u8) -> Option<TableName>
    ensures { result ≡ wave_row_table left }
{
    match left {
        0xf1..=0xf4 => Some(TableName::Speed),
        0xf9 => Some(TableName::Pulse),
        0xfa => Some(TableName::Filter),
        _ => None,
    }
}
