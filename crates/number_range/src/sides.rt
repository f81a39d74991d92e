//! The right sides of the rows of the wave table that set numbers.

ghost use Rattle.std.specs.Prelude.{◌↔◌, IsTrue};
ghost use Rattle.song_model.specs.declared.tables.TableName.TheVariants.{Wave};
ghost use Rattle.play_model.specs.Reached.{IsReached};
ghost use Rattle.usage.specs.Marks.{AreMarks};
ghost use Rattle.number_range.specs.Sets.{IsSetOf};
ghost use Rattle.number_range.specs.Numbers.{MaySetNumber, IsSideAt, IsSide};

use crate::sets::NumberSet;
use song_model::{Song, TableName, TableRow};

/// Whether a row of the wave table is no jump and no command, and has another right side than `$80`.
fn may_set_number(row: TableRow) -> bool
    ensures { IsTrue result ↔ MaySetNumber row }
{
    row.left < 0xf0 && row.right != 0x80
}

/// The right side of row `p`, if it sets a number and is, or isn't, a number of its own.
fn side_at(song: &Song, wave: &[bool; 256], own: bool, p: u8) -> NumberSet
    requires { AreMarks (IsReached song.now Wave) wave.now }
    ensures { IsSetOf (IsSideAt song.now own p) result }
{
    let row = song.row_or_zero(TableName::Wave, p);
    if wave[usize::from(p)] && may_set_number(row) && (row.right >= 0x80) == own {
        NumberSet::only(row.right % 128)
    } else {
        NumberSet::none()
    }
}

/// The right sides of the rows that set a number, modulo 128: those that are numbers of their own, or those that are
/// added to the note.
pub(crate) fn sides(song: &Song, wave: &[bool; 256], own: bool) -> NumberSet
    requires { AreMarks (IsReached song.now Wave) wave.now }
    ensures { IsSetOf (IsSide song.now own) result }
{
    let mut sides = NumberSet::none();
    for p in 0..256u16 {
        sides = sides.union(side_at(song, wave, own, p as u8));
    }
    sides
}
