//! The rules on programs: none runs off its table, and no pointer names a jump row.

ghost use Rattle.std.specs.Prelude.{◌≡◌, ◌≤◌, length, IfErr, OnOk};
ghost use Rattle.play_model.specs.Playable.{IsFirst, HasPrograms};
ghost use Rattle.song_model.specs.LookUp.{table_of};
ghost use Rattle.play_model.specs.Reached.{is_jump, IsReached};
ghost use Rattle.usage.specs.Marks.{AreMarks};
ghost use Rattle.usage.specs.Building.{Adds};
ghost use Rattle.usage.specs.Search.{IsNowhere, RunsOffIn, PointsIn};
ghost use Rattle.usage.specs.Checks.{ArePrograms, IsTargetOf, IsNamed};

use crate::marks::{ByteMarks, mark};
use crate::programs::{RowNumbers, is_jump};
use play_model::Unplayable;
use song_model::{Song, TableName};

/// What the programs of a table begin with and come to.
#[derive(Drop)]
pub(crate) struct Programs {
    /// A mark for each row that a pointer names.
    pub pointers: ByteMarks,
    /// A mark for each row that a program comes to.
    pub reached: RowNumbers,
}

/// Looks whether the programs of a table stay on its rows.
///
/// # Errors
///
/// The least row that one of them comes to and that isn't stored.
pub(crate) fn check_rows(
    song: &Song,
    name: TableName,
    reached: &RowNumbers,
) -> Result<(), Unplayable>
    requires programs { HasPrograms name }
    requires reached { AreMarks (IsReached song.now name) reached.now }
    ensures found { IfErr result (IsFirst (RunsOffIn song.now name)) }
    ensures none { OnOk result (IsNowhere (RunsOffIn song.now name)) }
{
    let stored = song.table(name).as_slice().len();
    for row in stored + 1..257 {
        if reached[row] {
            return Err(Unplayable::TableOverflow {
                table: name,
                row: row as u16,
            });
        }
    }
    Ok(())
}

/// Marks the row that a row names by a jump, if programs come to it.
fn mark_target(song: &Song, name: TableName, p: u8, reached: &RowNumbers, named: &mut ByteMarks)
    requires { AreMarks (IsReached song.now name) reached.now }
    ensures { Adds (IsTargetOf song.now name p) named.old named.new }
{
    let row = song.row_or_zero(name, p);
    if reached[usize::from(p)] && is_jump(name, row) && row.right != 0 {
        mark(named, usize::from(row.right));
    }
}

/// A mark for each row that a pointer or a jump names.
fn named_rows(song: &Song, name: TableName, programs: &Programs) -> ByteMarks
    requires few { length (table_of song.now name) ≤ 255 }
    requires programs { ArePrograms song.now name programs.now }
    ensures { AreMarks (IsNamed song.now name) result }
{
    let mut named = programs.pointers;
    for p in 0..256u16 {
        mark_target(song, name, p as u8, &programs.reached, &mut named);
    }
    named
}

/// Looks whether no pointer and no jump of a table names a jump row.
///
/// # Errors
///
/// The least jump row that one of them names.
pub(crate) fn check_pointers(
    song: &Song,
    name: TableName,
    programs: &Programs,
) -> Result<(), Unplayable>
    requires few { length (table_of song.now name) ≤ 255 }
    requires named { HasPrograms name }
    requires programs { ArePrograms song.now name programs.now }
    ensures found { IfErr result (IsFirst (PointsIn song.now name)) }
    ensures none { OnOk result (IsNowhere (PointsIn song.now name)) }
{
    let named = named_rows(song, name, programs);
    for p in 0..256u16 {
        if named[usize::from(p)] && is_jump(name, song.row_or_zero(name, p as u8)) {
            return Err(Unplayable::PointerToJump {
                table: name,
                row: p as u8,
            });
        }
    }
    Ok(())
}
