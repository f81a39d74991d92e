//! The notes of patterns.

ghost use Rattle.std.specs.Prelude.{◌≡◌, ◌-◌};
ghost use Rattle.number_range.specs.Sets.{IsSetOf};
ghost use Rattle.number_range.specs.Notes.{HasNote, HaveNote, ArePatternNotes};

use crate::sets::NumberSet;
use song_model::{Row, Song};

/// The notes of each pattern, counted from the lowest.
pub(crate) type PatternNotes = [NumberSet; 208];

/// The note of a row, if it has one.
fn row_note(row: Row) -> NumberSet
    ensures { IsSetOf (HasNote row) result }
{
    if row.note >= 0x60 && row.note <= 0xbc {
        NumberSet::only(row.note - 0x60)
    } else {
        NumberSet::none()
    }
}

/// The notes of these rows.
fn rows_notes(rows: &[Row]) -> NumberSet
    ensures { IsSetOf (HaveNote rows.now) result }
{
    let mut notes = NumberSet::none();
    for row in rows {
        notes = notes.union(row_note(*row));
    }
    notes
}

/// The notes of each pattern; of one that isn't stored none.
pub(crate) fn pattern_notes(song: &Song) -> PatternNotes
    ensures { ArePatternNotes song.now result }
{
    let mut notes = [NumberSet::none(); 208];
    let patterns = song.patterns.as_slice();
    for (n, pattern) in patterns.iter().enumerate() {
        notes[n] = rows_notes(pattern.as_slice());
    }
    notes
}
