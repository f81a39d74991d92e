//! The pointers into a table: of used instruments, and of commands in patterns and in the wave table.

ghost use Rattle.std.specs.Prelude.{◌≡◌, ◌<◌, ◌↔◌, IsTrue, Some};
ghost use Rattle.play_model.specs.Used.{IsUsedInstrument};
ghost use Rattle.play_model.specs.Reached.{IsPlayedPointer};
ghost use Rattle.usage.specs.Marks.{AreMarks};
ghost use Rattle.usage.specs.Building.{AreWhole, Adds};
ghost use Rattle.usage.specs.Rows.{AreRowsOf};
ghost use Rattle.usage.specs.Pointers.{table_at, PointsAt, IsInstrumentPointer, IsParameterAt, IsParameter};
ghost use Rattle.usage.specs.Pointers.{CommandPoints, IsCommandPointer};

use crate::marks::{ByteMarks, CommandMarks, mark};
use crate::rows::RowMarks;
use song_model::{Song, TableName, command_table, wave_row_table};

/// Where a command stands.
#[derive(Clone, Copy)]
pub(crate) enum CommandPlace {
    /// In a row of a pattern.
    Pattern,
    /// In a row of the wave table.
    WaveTable,
}

impl CommandPlace {
    /// Whether a command, 0 to 14 in the wave table and 0 to 15 in a pattern, points into this table there.
    fn points_into(self, command: u8, name: TableName) -> bool
        requires { command < 16 }
        ensures { IsTrue result ↔ (table_at self command ≡ Some name) }
    {
        let table = match self {
            CommandPlace::Pattern => command_table(command),
            CommandPlace::WaveTable => wave_row_table(0xf0 + command),
        };
        table == Some(name)
    }
}

/// Marks the pointer of an instrument, if it is used.
fn mark_instrument(
    song: &Song,
    name: TableName,
    instrument: u8,
    used: &[bool; 64],
    pointers: &mut ByteMarks,
)
    requires instrument { instrument < 64 }
    requires used { AreMarks (IsUsedInstrument song.now) used.now }
    ensures { Adds (PointsAt song.now name instrument) pointers.old pointers.new }
{
    if used[usize::from(instrument)] {
        let pointer = song.instrument(instrument).pointer(name);
        if pointer != 0 {
            mark(pointers, usize::from(pointer));
        }
    }
}

/// Marks the pointers of used instruments.
fn mark_instruments(song: &Song, name: TableName, used: &[bool; 64], pointers: &mut ByteMarks)
    requires { AreMarks (IsUsedInstrument song.now) used.now }
    ensures { Adds (IsInstrumentPointer song.now name) pointers.old pointers.new }
{
    for instrument in 0..64 {
        mark_instrument(song, name, instrument, used, pointers);
    }
}

/// Marks a parameter that is used, but for 0.
fn mark_parameter(parameters: &ByteMarks, parameter: usize, pointers: &mut ByteMarks)
    requires { parameter < 256 }
    ensures { Adds (IsParameterAt parameters.now parameter) pointers.old pointers.new }
{
    if parameters[parameter] && parameter != 0 {
        mark(pointers, parameter);
    }
}

/// Marks the parameters that are used, but for 0.
fn mark_parameters(parameters: &ByteMarks, pointers: &mut ByteMarks)
    ensures { Adds (IsParameter parameters.now) pointers.old pointers.new }
{
    for parameter in 0..256 {
        mark_parameter(parameters, parameter, pointers);
    }
}

/// Marks the parameters of a command, if it points into this table.
fn mark_if_pointing(
    place: CommandPlace,
    name: TableName,
    command: u8,
    commands: &CommandMarks,
    pointers: &mut ByteMarks,
)
    requires command { command < 16 }
    requires whole { AreWhole commands.now }
    ensures { Adds (CommandPoints place name commands.now command) pointers.old pointers.new }
{
    if place.points_into(command, name) {
        mark_parameters(&commands[usize::from(command)], pointers);
    }
}

/// Marks the parameters of the commands that point into this table.
pub(crate) fn mark_commands(
    place: CommandPlace,
    name: TableName,
    commands: &CommandMarks,
    pointers: &mut ByteMarks,
)
    requires { AreWhole commands.now }
    ensures { Adds (IsCommandPointer place name commands.now) pointers.old pointers.new }
{
    for command in 0..16 {
        mark_if_pointing(place, name, command, commands, pointers);
    }
}

/// A mark for each pointer of used instruments, and of rows of used patterns.
pub(crate) fn played_pointers(song: &Song, name: TableName, rows: &RowMarks) -> ByteMarks
    requires { AreRowsOf song.now rows.now }
    ensures { AreMarks (IsPlayedPointer song.now name) result }
{
    let mut pointers = [false; 256];
    mark_instruments(song, name, &rows.instruments, &mut pointers);
    mark_commands(CommandPlace::Pattern, name, &rows.commands, &mut pointers);
    pointers
}
