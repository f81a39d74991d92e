//! Which segments are closed.

ghost use Rattle.std.specs.Prelude.{◌≡◌, ◌≢◌, ℕ, ◌≤◌, ◌<◌, not, ◌&&◌, ◌||◌, true, length};
ghost use Rattle.packing_rules.specs.Segments.{ProgramTable, row_of, is_jump_row, enters, jumps, is_closed};
ghost use Rattle.table_pack.specs.Marks.{is_marked};
ghost use Rattle.table_pack.specs.Programs.{AreFirsts, AreSegments, AreEntries, Narrows};

use crate::ByteMarks;
use crate::segments::{is_jump_row, row_at};
use song_model::TableRow;

/// Whether each segment is closed, at the number of its first row.
pub(crate) fn closed_segments(
    rows: &[TableRow],
    marks: &ByteMarks,
    entries: &ByteMarks,
    firsts: &[u8; 256],
) -> ByteMarks
    requires { length rows.now ≤ 255 }
    ensures { (table : ProgramTable) (s : ℕ) → AreSegments table rows.now marks.now firsts.now →
        AreEntries table entries.now → s < 256 → is_marked result s ≡ is_closed table s }
{
    let mut closed = [true; 256];
    for index in 0..rows.len() {
        let p = index + 1;
        look_at_entry(&mut closed, entries, firsts, p);
        look_at_jump(&mut closed, marks, firsts, p, row_at(rows, p));
    }
    closed
}

/// Marks what a pointer to row `p` opens, if there is one.
fn look_at_entry(closed: &mut ByteMarks, entries: &ByteMarks, firsts: &[u8; 256], p: usize)
    requires { p < 256 }
    ensures { (table : ProgramTable) → AreFirsts table firsts.now → AreEntries table entries.now →
        Narrows (λ s. not (table.entries p) || enters table s p) closed.old closed.new }
{
    if entries[p] {
        enter(closed, firsts, p);
    }
}

/// Marks what row `p` opens, if it is a jump that is reached.
fn look_at_jump(
    closed: &mut ByteMarks,
    marks: &ByteMarks,
    firsts: &[u8; 256],
    p: usize,
    row: TableRow,
)
    requires { p < 256 }
    ensures { (table : ProgramTable) → AreFirsts table firsts.now →
        table.reached p ≡ is_marked marks.now p → row_of table p ≡ row →
        Narrows (λ s. not (table.reached p && is_jump_row row) || jumps table s p row.right)
        closed.old closed.new }
{
    if !marks[p] || !is_jump_row(row) || row.right == 0 {
        return;
    }
    jump(closed, firsts, p, usize::from(row.right));
}

/// Marks a segment as open where row `q` is one of its rows but not the first.
fn enter(closed: &mut ByteMarks, firsts: &[u8; 256], q: usize)
    requires { q < 256 }
    ensures { (table : ProgramTable) → AreFirsts table firsts.now → table.reached q ≡ true →
        Narrows (λ s. enters table s q) closed.old closed.new }
{
    let first = usize::from(firsts[q]);
    if first != q {
        closed[first] = false;
    }
}

/// Marks what a jump from row `p` to a row opens: its own segment where it leaves it, and the one that it leads into
/// behind the first row.
fn jump(closed: &mut ByteMarks, firsts: &[u8; 256], p: usize, target: usize)
    requires from { p < 256 }
    requires to { target < 256 }
    ensures { (table : ProgramTable) → AreFirsts table firsts.now → table.reached p ≡ true →
        table.reached target ≡ true → target ≢ 0 →
        Narrows (λ s. jumps table s p target) closed.old closed.new }
{
    let own = usize::from(firsts[p]);
    if usize::from(firsts[target]) != own {
        closed[own] = false;
        enter(closed, firsts, target);
    }
}
