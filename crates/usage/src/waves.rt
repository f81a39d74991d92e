//! The commands in the rows of the wave table that programs come to.

ghost use Rattle.std.specs.Prelude.{◌≤◌, length};
ghost use Rattle.song_model.specs.declared.tables.TableName.TheVariants.{Wave};
ghost use Rattle.play_model.specs.Reached.{IsReached};
ghost use Rattle.usage.specs.Marks.{AreMarks};
ghost use Rattle.usage.specs.Building.{AreWhole, AddsAt, AreMarksAt};
ghost use Rattle.usage.specs.Waves.{RowCommands, IsWaveCommand};

use crate::marks::{CommandMarks, mark_command};
use crate::programs::RowNumbers;
use song_model::{Song, TableName};

/// Marks the command of a row of the wave table, if programs come to it: a left side from `$F0` to `$FE`.
fn mark_wave_row(song: &Song, p: u8, reached: &RowNumbers, commands: &mut CommandMarks)
    requires reached { AreMarks (IsReached song.now Wave) reached.now }
    requires whole { AreWhole commands.old }
    ensures { AddsAt (RowCommands song.now p) commands.old commands.new }
{
    let row = song.row_or_zero(TableName::Wave, p);
    if reached[usize::from(p)] && row.left >= 0xf0 && row.left < 0xff {
        mark_command(commands, row.left - 0xf0, row.right);
    }
}

/// A mark for each command with its right side in the rows that the programs of the wave table come to.
pub(crate) fn wave_commands(song: &Song, reached: &RowNumbers) -> CommandMarks
    requires few { length song.now.wave ≤ 255 }
    requires reached { AreMarks (IsReached song.now Wave) reached.now }
    ensures { AreMarksAt (IsWaveCommand song.now) result }
{
    let mut commands = [[false; 256]; 16];
    for p in 0..256u16 {
        mark_wave_row(song, p as u8, reached, &mut commands);
    }
    commands
}
