//! The rows of a table that its programs come to.

ghost use Rattle.std.specs.Prelude.{◌≡◌, ℕ, ◌≤◌, ◌<◌, length, IfSome};
ghost use Rattle.play_model.specs.Reached.{is_jump, is_last, led_to};
ghost use Rattle.usage.specs.Marks.{IsMarked, AreMarks};
ghost use Rattle.usage.specs.Building.{Adds};
ghost use Rattle.usage.specs.Programs.{IsClosed, IsReachedFrom, ComesFrom};

use crate::marks::ByteMarks;
use song_model::{TableName, TableRow};

/// A mark for each row of a table, counted from 1, and for row 256, which no table has.
pub(crate) type RowNumbers = [bool; 257];

/// Whether a row is a jump.
pub(crate) fn is_jump(name: TableName, row: TableRow) -> bool
    ensures { result ≡ is_jump name row }
{
    match name {
        TableName::Wave | TableName::Pulse | TableName::Filter => row.left == 0xff,
        TableName::Speed => false,
    }
}

/// Whether a program ends at a row that isn't a jump.
fn is_last(name: TableName, row: TableRow) -> bool
    ensures { result ≡ is_last name row }
{
    match name {
        TableName::Wave | TableName::Filter => false,
        TableName::Pulse => row.left == 0,
        TableName::Speed => true,
    }
}

/// The row that a program goes on to after row `p`, counted from 1, if it goes on.
fn led_to(name: TableName, rows: &[TableRow], p: usize) -> Option<usize>
    requires { length rows.now ≤ 255 }
    ensures row { result ≡ led_to name rows.now p }
    ensures small { IfSome result (λ q. q ≤ 256) }
{
    if p == 0 || p > rows.len() {
        return None;
    }
    let row = rows[p - 1];
    if is_jump(name, row) {
        if row.right == 0 {
            None
        } else {
            Some(usize::from(row.right))
        }
    } else if is_last(name, row) {
        None
    } else {
        Some(p + 1)
    }
}

/// Marks the rows that a program comes to from this row on, up to one that is marked already.
fn follow(name: TableName, rows: &[TableRow], from: usize, marks: &mut RowNumbers)
    requires few { length rows.now ≤ 255 }
    requires from { from ≤ 256 }
    requires closed { IsClosed name rows.now marks.old }
    ensures closed { IsClosed name rows.now marks.new }
    ensures marked { Adds (IsReachedFrom name rows.now (λ p. p ≡ from)) marks.old marks.new }
{
    let mut next = Some(from);
    while let Some(p) = next {
        if marks[p] {
            return;
        }
        marks[p] = true;
        next = led_to(name, rows, p);
    }
}

/// Marks the rows that a program comes to from this row on, if it is a pointer.
fn follow_if(
    name: TableName,
    rows: &[TableRow],
    from: usize,
    pointers: &ByteMarks,
    marks: &mut RowNumbers,
)
    requires few { length rows.now ≤ 255 }
    requires from { from < 256 }
    requires closed { IsClosed name rows.now marks.old }
    ensures closed { IsClosed name rows.now marks.new }
    ensures marked { Adds (ComesFrom name rows.now pointers.now from) marks.old marks.new }
{
    if pointers[from] {
        follow(name, rows, from, marks);
    }
}

/// A mark for each row that the programs of a table come to from these pointers. Each row is followed once.
pub(crate) fn reached(name: TableName, rows: &[TableRow], pointers: &ByteMarks) -> RowNumbers
    requires { length rows.now ≤ 255 }
    ensures { AreMarks (IsReachedFrom name rows.now (IsMarked pointers.now)) result }
{
    let mut marks = [false; 257];
    for from in 0..256 {
        follow_if(name, rows, from, pointers, &mut marks);
    }
    marks
}
