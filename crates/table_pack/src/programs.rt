//! Which rows stand for those of equal programs.

ghost use Rattle.std.specs.Prelude.{◌≡◌, ℕ, ◌≤◌, ◌+◌, ◌-◌, ◌&&◌, ◌==◌, true};
ghost use Rattle.std.specs.Prelude.{if◌then◌else◌, length, slice_index};
ghost use Rattle.packing_rules.specs.Segments.{ProgramTable, IsWhole, keeps, stand_in};
ghost use Rattle.table_pack.specs.Marks.{is_marked};
ghost use Rattle.table_pack.specs.Programs.{programs_of, AreSegments, AreEquals, AreStaying, IsMapOf};

use crate::ByteMarks;
use crate::closed::closed_segments;
use crate::equal::first_equals;
use crate::segments::first_rows;
use song_model::{Table, TableRow};

/// What stands for the rows of a table.
#[derive(Drop)]
pub struct ProgramMap {
    /// The marked rows that stay.
    pub keep: ByteMarks,
    /// The row that stands for each marked one, 0 for a row that isn't marked.
    pub to: [u8; 256],
}

/// The rows that stay where equal programs of a table are stored once, and the rows that stand for the others. The marks
/// are those of the rows that programs come to, the entries those of the rows that pointers name; with `pulse` a left
/// side of 0 ends a program.
pub fn merge_programs(
    table: &Table,
    marks: &ByteMarks,
    entries: &ByteMarks,
    pulse: bool,
) -> ProgramMap
    requires { IsWhole (programs_of table.now marks.now entries.now pulse) }
    // Which rows stay, and what stands for each.
    ensures keep { (p : ℕ) → is_marked result.keep p ≡
        keeps (programs_of table.now marks.now entries.now pulse) p }
    ensures to { (p : ℕ) → slice_index result.to p ≡
        stand_in (programs_of table.now marks.now entries.now pulse) p }
{
    let rows = table.as_slice();
    let firsts = first_rows(rows, marks, pulse);
    let closed = closed_segments(rows, marks, entries, &firsts);
    let equals = first_equals(rows, marks, &firsts, &closed);
    map_of(rows, marks, &firsts, &equals)
}

/// What stands for each row, by the first row of its segment and the first row of the one that stays.
fn map_of(
    rows: &[TableRow],
    marks: &ByteMarks,
    firsts: &[u8; 256],
    equals: &[u8; 256],
) -> ProgramMap
    requires few { length rows.now ≤ 255 }
    requires segments { AreStaying rows.now marks.now firsts.now equals.now }
    ensures { (table : ProgramTable) → AreSegments table rows.now marks.now firsts.now →
        AreEquals table equals.now → IsMapOf table result.keep result.to }
{
    let mut keep = [false; 256];
    let mut to = [0; 256];
    for index in 0..rows.len() {
        let p = index + 1;
        let first = firsts[p];
        let stays = equals[usize::from(first)];
        keep[p] = is_kept(marks[p], first, stays);
        to[p] = stand_in(marks[p], first, stays, p as u8);
    }
    ProgramMap { keep, to }
}

/// Whether a row stays, by the first row of its segment and of the one that stays for it.
fn is_kept(marked: bool, first: u8, stays: u8) -> bool
    ensures { result ≡ (marked && (stays == first)) }
{
    marked && stays == first
}

/// What stands for a row, as far from the first row; 0 where it isn't marked.
fn stand_in(marked: bool, first: u8, stays: u8, p: u8) -> u8
    requires first { marked ≡ true → first ≤ p }
    requires stays { marked ≡ true → stays ≤ first }
    ensures { result ≡ (if marked then stays + (p - first) else 0) }
{
    if !marked {
        return 0;
    }
    stays + (p - first)
}
