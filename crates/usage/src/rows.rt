//! The rows of used patterns: the instruments that they name, the commands with their parameters, and the notes.

ghost use Rattle.std.specs.Prelude.{◌≡◌, ◌≤◌, All, Some, length, slice_get};
ghost use Rattle.song_model.specs.PatternLimits.{IsRow};
ghost use Rattle.play_model.specs.Used.{IsPlayedByte, IsNamedInstrument};
ghost use Rattle.usage.specs.Marks.{AreMarks};
ghost use Rattle.usage.specs.Building.{AreWhole, Adds, AddsAt, SomeOf, SomeAt};
ghost use Rattle.usage.specs.Rows.{NamesInstrument, HasCommand, HasNote, PatternNames, PatternHas, PatternSounds};
ghost use Rattle.usage.specs.Rows.{IsUsedCommand, IsUsedNote, AreRowsOf};

use crate::marks::{ByteMarks, CommandMarks, mark, mark_command};
use song_model::{Pattern, Row, Song};

/// What the rows of used patterns have.
#[derive(Drop)]
pub(crate) struct RowMarks {
    /// A mark for each instrument that a row names, and for instrument 1.
    pub instruments: [bool; 64],
    /// A mark for each command with each parameter.
    pub commands: CommandMarks,
    /// A mark for each note, as rows have it.
    pub notes: ByteMarks,
}

/// Marks what a row has.
fn mark_row(row: Row, marks: &mut RowMarks)
    requires row { IsRow row }
    requires whole { AreWhole marks.old.commands }
    ensures instruments { Adds (NamesInstrument row) marks.old.instruments marks.new.instruments }
    ensures commands { AddsAt (HasCommand row) marks.old.commands marks.new.commands }
    ensures notes { Adds (HasNote row) marks.old.notes marks.new.notes }
{
    if row.instrument != 0 {
        mark(&mut marks.instruments, usize::from(row.instrument));
    }
    mark_command(&mut marks.commands, row.command, row.param);
    mark(&mut marks.notes, usize::from(row.note));
}

/// Marks what each row of a pattern has.
fn mark_pattern(rows: &[Row], marks: &mut RowMarks)
    requires rows { All IsRow rows.now }
    requires whole { AreWhole marks.old.commands }
    ensures instruments { Adds (SomeOf NamesInstrument rows.now)
        marks.old.instruments marks.new.instruments }
    ensures commands { AddsAt (SomeAt HasCommand rows.now) marks.old.commands marks.new.commands }
    ensures notes { Adds (SomeOf HasNote rows.now) marks.old.notes marks.new.notes }
{
    for row in rows {
        mark_row(*row, marks);
    }
}

/// Marks what the rows of a pattern have, if it is used.
fn mark_if_used(
    song: &Song,
    number: usize,
    pattern: &Pattern,
    bytes: &ByteMarks,
    marks: &mut RowMarks,
)
    requires bytes { AreMarks (IsPlayedByte song.now) bytes.now }
    requires pattern { slice_get song.now.patterns number ≡ Some pattern.now }
    requires few { length song.now.patterns ≤ 208 }
    requires whole { AreWhole marks.old.commands }
    ensures instruments { Adds (PatternNames song.now number)
        marks.old.instruments marks.new.instruments }
    ensures commands { AddsAt (PatternHas song.now number) marks.old.commands marks.new.commands }
    ensures notes { Adds (PatternSounds song.now number) marks.old.notes marks.new.notes }
{
    // Named in the contract alone.
    let _song = song;
    if bytes[number] {
        mark_pattern(pattern.as_slice(), marks);
    }
}

/// Marks what the rows of used patterns have.
fn mark_patterns(song: &Song, bytes: &ByteMarks, marks: &mut RowMarks)
    requires bytes { AreMarks (IsPlayedByte song.now) bytes.now }
    requires whole { AreWhole marks.old.commands }
    ensures instruments { Adds (IsNamedInstrument song.now)
        marks.old.instruments marks.new.instruments }
    ensures commands { AddsAt (IsUsedCommand song.now) marks.old.commands marks.new.commands }
    ensures notes { Adds (IsUsedNote song.now) marks.old.notes marks.new.notes }
{
    let patterns = song.patterns.as_slice();
    for (n, pattern) in patterns.iter().enumerate() {
        mark_if_used(song, n, pattern, bytes, marks);
    }
}

/// What the rows of used patterns have; each voice begins with instrument 1.
pub(crate) fn played_rows(song: &Song, bytes: &ByteMarks) -> RowMarks
    requires { AreMarks (IsPlayedByte song.now) bytes.now }
    ensures { AreRowsOf song.now result }
{
    let mut marks = RowMarks {
        instruments: [false; 64],
        commands: [[false; 256]; 16],
        notes: [false; 256],
    };
    mark(&mut marks.instruments, 1);
    mark_patterns(song, bytes, &mut marks);
    marks
}
