//! The segments of a table: where each begins.

ghost use Rattle.std.specs.Prelude.{◌≡◌, ◌≤◌, not, ◌&&◌, if◌then◌else◌, length};
ghost use Rattle.packing_rules.specs.Segments.{ProgramTable, is_jump_row, is_end, is_in};
ghost use Rattle.packing_rules.specs.ProgramMaps.{row_at};
ghost use Rattle.table_pack.specs.Programs.{IsTableOf, AreSegments};

use crate::ByteMarks;
use song_model::TableRow;

/// The left side of a row that jumps.
pub(crate) const JUMP: u8 = 0xff;

/// Whether a row is a jump.
pub(crate) fn is_jump_row(row: TableRow) -> bool
    ensures { result ≡ is_jump_row row }
{
    row.left == JUMP
}

/// Whether a program goes no further after a row.
fn is_end(pulse: bool, row: TableRow) -> bool
    ensures { result ≡ is_end pulse row }
{
    is_jump_row(row) || (pulse && row.left == 0)
}

/// Row `p` of a table, counted from 1; (0, 0) where none is stored.
pub(crate) fn row_at(rows: &[TableRow], p: usize) -> TableRow
    ensures { result ≡ row_at rows.now p }
{
    if p == 0 || p > rows.len() {
        return TableRow { left: 0, right: 0 };
    }
    rows[p - 1]
}

/// The first row of the segment of row `p`, where the row before it is in the segment of this first row.
fn first_from(first: u8, p: u8, marked: bool, goes_on: bool) -> u8
    ensures { result ≡ (if marked && not goes_on then p else first) }
{
    if marked && !goes_on { p } else { first }
}

/// Whether a row is reached and its program goes on behind it.
fn goes_on_behind(marked: bool, pulse: bool, row: TableRow) -> bool
    ensures { result ≡ (marked && not (is_end pulse row)) }
{
    marked && !is_end(pulse, row)
}

/// For each row that is reached the first row of its segment.
pub(crate) fn first_rows(rows: &[TableRow], marks: &ByteMarks, pulse: bool) -> [u8; 256]
    requires { length rows.now ≤ 255 }
    ensures { (table : ProgramTable) → IsTableOf table rows.now marks.now pulse →
        AreSegments table rows.now marks.now result }
{
    let mut firsts = [0; 256];
    let mut first = 0;
    let mut goes_on = false;
    for index in 0..rows.len() {
        let p = index + 1;
        first = first_from(first, p as u8, marks[p], goes_on);
        firsts[p] = first;
        goes_on = goes_on_behind(marks[p], pulse, row_at(rows, p));
    }
    firsts
}

/// Whether row `p` is one of the segment that begins at row `s`. Any number may be asked for.
pub(crate) fn is_in(
    rows: &[TableRow],
    marks: &ByteMarks,
    firsts: &[u8; 256],
    s: usize,
    p: usize,
) -> bool
    requires { length rows.now ≤ 255 }
    ensures { (table : ProgramTable) → AreSegments table rows.now marks.now firsts.now →
        result ≡ is_in table s p }
{
    if p > rows.len() || !marks[p] {
        return false;
    }
    usize::from(firsts[p]) == s
}
