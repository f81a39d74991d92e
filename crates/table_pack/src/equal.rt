//! Equal segments.

ghost use Rattle.std.specs.Prelude.{◌≡◌, ℕ, ◌+◌, ◌≤◌, ◌<◌, true, false, length, slice_index, All};
ghost use Rattle.std.specs.Prelude.{IfSome, IfNone, Contains};
ghost use Rattle.packing_rules.specs.Segments.{ProgramTable, is_as_far, are_alike, are_equal, begins, is_closed, first_equal};
ghost use Rattle.table_pack.specs.Marks.{is_marked};
ghost use Rattle.table_pack.specs.Programs.{AreSegments, AreDifferent, IsAsked};

use crate::ByteMarks;
use crate::segments::{is_in, is_jump_row, row_at};
use arrayvec::ArrayVec;
use song_model::TableRow;

/// For each row where a segment begins the first row of the first segment that is equal to it, where both are closed.
/// Each is compared with the different ones before it.
pub(crate) fn first_equals(
    rows: &[TableRow],
    marks: &ByteMarks,
    firsts: &[u8; 256],
    closed: &ByteMarks,
) -> [u8; 256]
    requires { length rows.now ≤ 255 }
    ensures { (table : ProgramTable) (s : ℕ) → AreSegments table rows.now marks.now firsts.now →
        ((k : ℕ) → k < 256 → is_marked closed.now k ≡ is_closed table k) → s ≤ length rows.now →
        begins table s ≡ true → slice_index result s ≡ first_equal table s }
{
    let mut equals = [0; 256];
    let mut different: ArrayVec<u8, 255> = ArrayVec::new();
    for index in 0..rows.len() {
        let s = index + 1;
        let begun = is_in(rows, marks, firsts, s, s);
        equals[s] = first_equal(
            rows,
            marks,
            firsts,
            begun,
            closed[s],
            &mut different,
            s as u8,
        );
    }
    equals
}

/// The first row of the first segment that is equal to the one that begins at row `s`, where these are the different
/// closed ones before it. It is added to them where it is closed and different. Where none begins there the answer is any.
fn first_equal(
    rows: &[TableRow],
    marks: &ByteMarks,
    firsts: &[u8; 256],
    begun: bool,
    closed: bool,
    different: &mut ArrayVec<u8, 255>,
    s: u8,
) -> u8
    requires few { length rows.now ≤ 255 }
    requires room { length different.old.items < 255 }
    ensures equal { (table : ProgramTable) →
        IsAsked table rows.now marks.now firsts.now begun closed s different.old.items →
        begins table s ≡ true → result ≡ first_equal table s }
    ensures different { (table : ProgramTable) →
        IsAsked table rows.now marks.now firsts.now begun closed s different.old.items →
        AreDifferent table (s + 1) different.new.items }
    ensures few { length different.new.items ≤ length different.old.items + 1 }
{
    if !begun || !closed {
        return s;
    }
    match equal_among(rows, marks, firsts, different.as_slice(), s) {
        Some(t) => t,
        None => {
            different.push(s);
            s
        }
    }
}

/// The first of these segments that is equal to segment `s`.
fn equal_among(
    rows: &[TableRow],
    marks: &ByteMarks,
    firsts: &[u8; 256],
    among: &[u8],
    s: u8,
) -> Option<u8>
    requires { length rows.now ≤ 255 }
    ensures among { IfSome result (Contains among.now) }
    ensures equal { (table : ProgramTable) → AreSegments table rows.now marks.now firsts.now →
        IfSome result (λ t. are_equal table s t ≡ true) }
    ensures none { (table : ProgramTable) → AreSegments table rows.now marks.now firsts.now →
        IfNone result (All (λ t. are_equal table s t ≡ false) among.now) }
{
    for t in among {
        if are_equal(rows, marks, firsts, usize::from(s), usize::from(*t)) {
            return Some(*t);
        }
    }
    None
}

/// Whether two segments are equal.
fn are_equal(rows: &[TableRow], marks: &ByteMarks, firsts: &[u8; 256], s: usize, t: usize) -> bool
    requires few { length rows.now ≤ 255 }
    requires one { s ≤ 255 }
    requires other { t ≤ 255 }
    ensures { (table : ProgramTable) → AreSegments table rows.now marks.now firsts.now →
        result ≡ are_equal table s t }
{
    for d in 0..rows.len() {
        let is_row = is_in(rows, marks, firsts, s, s + d);
        if is_row != is_in(rows, marks, firsts, t, t + d) {
            return false;
        }
        if !is_row {
            return true;
        }
        if !are_alike(s, t, row_at(rows, s + d), row_at(rows, t + d)) {
            return false;
        }
    }
    true
}

/// Whether two rows say the same in the segments that begin at rows `s` and `t`.
fn are_alike(s: usize, t: usize, one: TableRow, other: TableRow) -> bool
    requires first { s ≤ 255 }
    requires second { t ≤ 255 }
    ensures { result ≡ are_alike s t one other }
{
    if one.left != other.left {
        return false;
    }
    if is_jump_row(one) {
        is_as_far(s, t, usize::from(one.right), usize::from(other.right))
    } else {
        one.right == other.right
    }
}

/// Whether two jumps go as far from their first rows, or both stop.
fn is_as_far(s: usize, t: usize, one: usize, other: usize) -> bool
    requires first { s ≤ 255 }
    requires second { t ≤ 255 }
    requires right { one ≤ 255 }
    requires left { other ≤ 255 }
    ensures { result ≡ is_as_far s t one other }
{
    if one == 0 {
        other == 0
    } else {
        other != 0 && one + t == other + s
    }
}
