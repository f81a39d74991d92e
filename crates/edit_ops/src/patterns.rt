//! Edits of patterns.

ghost use Rattle.std.specs.Prelude.{◌≡◌, true, false, ◌<◌, ◌≤◌, length, map, slice_set, All, Some, IfOk};
ghost use Rattle.std.specs.List.{insert, remove, list_any};
ghost use Rattle.song_model.specs.PatternLimits.{IsPattern};
ghost use Rattle.song_model.specs.LookUp.{pattern_at};
ghost use Rattle.song_model.specs.Silence.{rest_row};
ghost use Rattle.edit_ops.specs.Lists.{resized};
ghost use Rattle.edit_ops.specs.Patterns.{lacks_pattern, lacks_row, lacks_row_gap, has_rows, is_no_length, is_row};
ghost use Rattle.edit_ops.specs.Patterns.{is_note, raised_by, leaves_range, some_leaves_range, transposed};
ghost use Rattle.edit_ops.specs.Patterns.{with_pattern};
ghost use Rattle.edit_ops.specs.Back.{back};
ghost use Rattle.edit_ops.specs.Does.{Does};

use crate::Inverse;
use crate::lists::{inserted, removed, resized, with_item};
use song_model::{MOST_ROWS, NoMemory, Pattern, Row, Song};
use std::alloc::Global;

/// A rest that names no instrument and no command.
pub(crate) const REST: Row = Row {
    note: 0xbd,
    instrument: 0,
    command: 0,
    param: 0,
};

/// The rows of a pattern; none where it isn't stored.
#[tactic(auto, unfolding(song_model::specs::LookUp::pattern_at))]
fn rows_at(song: &Song, pattern: u8) -> &[Row]
    ensures rows { result.now ≡ pattern_at song.now pattern }
    ensures limits { lacks_pattern song.now pattern ≡ false → IsPattern result.now }
{
    match song.pattern(pattern) {
        Some(pattern) => pattern.as_slice(),
        None => &[],
    }
}

/// Whether a pattern isn't stored.
pub(crate) fn lacks_pattern(song: &Song, pattern: u8) -> bool
    ensures { result ≡ lacks_pattern song.now pattern }
{
    usize::from(pattern) >= song.patterns.as_slice().len()
}

/// Whether no row stands at a place of a pattern.
pub(crate) fn lacks_row(song: &Song, pattern: u8, place: u8) -> bool
    ensures { result ≡ lacks_row song.now pattern place }
{
    lacks_pattern(song, pattern) || usize::from(place) >= rows_at(song, pattern).len()
}

/// Whether no row can be put before a place of a pattern.
pub(crate) fn lacks_row_gap(song: &Song, pattern: u8, place: u8) -> bool
    ensures { result ≡ lacks_row_gap song.now pattern place }
{
    lacks_pattern(song, pattern) || usize::from(place) > rows_at(song, pattern).len()
}

/// Whether a pattern has so many rows.
pub(crate) fn has_rows(song: &Song, pattern: u8, count: usize) -> bool
    ensures { result ≡ has_rows song.now pattern count }
{
    rows_at(song, pattern).len() == count
}

/// Whether a pattern can't have so many rows.
pub(crate) fn is_no_length(length: u8) -> bool
    ensures { result ≡ is_no_length length }
{
    length == 0 || usize::from(length) > MOST_ROWS
}

/// Whether a row is in its ranges.
pub(crate) fn is_row(row: Row) -> bool
    ensures { result ≡ is_row row }
{
    row.note >= 0x60 && row.note <= 0xbf && row.instrument <= 0x3f && row.command <= 0x0f
}

/// Whether a row's note is one from C-0 to G#7.
fn is_note(note: u16) -> bool
    ensures { result ≡ is_note note }
{
    note >= 0x60 && note <= 0xbc
}

/// A note with so many half tones added; a byte from `$80` on stands for itself less 256.
fn raised_by(byte: u8, note: u8) -> u16
    ensures { result ≡ raised_by byte note }
{
    let sum = u16::from(note) + u16::from(byte);
    if byte < 0x80 {
        sum
    } else {
        sum.saturating_sub(256)
    }
}

/// Whether a row's note is one, and would be none with so many half tones added.
fn leaves_range(byte: u8, row: Row) -> bool
    ensures { result ≡ leaves_range byte row }
{
    is_note(u16::from(row.note)) && !is_note(raised_by(byte, row.note))
}

/// Whether a note of a pattern would be none with so many half tones added.
pub(crate) fn some_leaves_range(song: &Song, pattern: u8, byte: u8) -> bool
    ensures { result ≡ some_leaves_range song.now pattern byte }
{
    rows_at(song, pattern)
        .iter()
        .any(|row| leaves_range(byte, *row))
}

/// Puts a pattern in place of one, and answers the way back. It takes no memory.
pub(crate) fn exchange_pattern(song: &mut Song, pattern: u8, rows: Pattern) -> Inverse
    requires { lacks_pattern song.old pattern ≡ false }
    ensures after { song.new ≡ with_pattern song.old pattern rows }
    ensures back { back song.new result ≡ Some song.old }
{
    Inverse::OnePattern {
        pattern,
        rows: song.patterns.exchange(usize::from(pattern), rows),
    }
}

/// Puts these rows in place of a pattern's. It takes no memory.
fn put_pattern(song: &mut Song, pattern: u8, rows: Vec<Row>) -> Inverse
    requires place { lacks_pattern song.old pattern ≡ false }
    requires limits { IsPattern rows.items }
    ensures after { song.new ≡ with_pattern song.old pattern rows.items }
    ensures back { back song.new result ≡ Some song.old }
{
    exchange_pattern(song, pattern, Pattern::from_vec(rows))
}

/// Sets a row.
///
/// # Errors
///
/// Out of memory. The song is as before.
pub(crate) fn set_row(
    alloc: Global,
    song: &mut Song,
    pattern: u8,
    place: u8,
    row: Row,
) -> Result<Inverse, NoMemory>
    requires place { lacks_row song.old pattern place ≡ false }
    requires value { is_row row ≡ true }
    ensures { Does result song.old song.new
        (with_pattern song.old pattern (slice_set (pattern_at song.old pattern) place row)) }
{
    let rows = with_item(alloc, rows_at(song, pattern), usize::from(place), row)?;
    Ok(put_pattern(song, pattern, rows))
}

/// Inserts a row before a place.
///
/// # Errors
///
/// Out of memory. The song is as before.
pub(crate) fn insert_row(
    alloc: Global,
    song: &mut Song,
    pattern: u8,
    place: u8,
    row: Row,
) -> Result<Inverse, NoMemory>
    requires place { lacks_row_gap song.old pattern place ≡ false }
    requires limit { has_rows song.old pattern 128 ≡ false }
    requires value { is_row row ≡ true }
    ensures { Does result song.old song.new
        (with_pattern song.old pattern (insert (pattern_at song.old pattern) place row)) }
{
    let rows = inserted(alloc, rows_at(song, pattern), usize::from(place), row)?;
    Ok(put_pattern(song, pattern, rows))
}

/// Deletes a row.
///
/// # Errors
///
/// Out of memory. The song is as before.
pub(crate) fn delete_row(
    alloc: Global,
    song: &mut Song,
    pattern: u8,
    place: u8,
) -> Result<Inverse, NoMemory>
    requires place { lacks_row song.old pattern place ≡ false }
    requires limit { has_rows song.old pattern 1 ≡ false }
    ensures { Does result song.old song.new
        (with_pattern song.old pattern (remove (pattern_at song.old pattern) place)) }
{
    let rows = removed(alloc, rows_at(song, pattern), usize::from(place))?;
    Ok(put_pattern(song, pattern, rows))
}

/// Cuts a pattern to so many rows, or adds rests.
///
/// # Errors
///
/// Out of memory. The song is as before.
pub(crate) fn set_length(
    alloc: Global,
    song: &mut Song,
    pattern: u8,
    length: u8,
) -> Result<Inverse, NoMemory>
    requires place { lacks_pattern song.old pattern ≡ false }
    requires limit { is_no_length length ≡ false }
    ensures { Does result song.old song.new
        (with_pattern song.old pattern (resized length rest_row (pattern_at song.old pattern))) }
{
    let rows = resized(alloc, rows_at(song, pattern), usize::from(length), REST)?;
    Ok(put_pattern(song, pattern, rows))
}

/// Makes one pattern equal to another.
///
/// # Errors
///
/// Out of memory. The song is as before.
pub(crate) fn copy_pattern(
    alloc: Global,
    song: &mut Song,
    from: u8,
    to: u8,
) -> Result<Inverse, NoMemory>
    requires from { lacks_pattern song.old from ≡ false }
    requires to { lacks_pattern song.old to ≡ false }
    ensures { Does result song.old song.new (with_pattern song.old to (pattern_at song.old from)) }
{
    let rows = Vec::from_slice(alloc, rows_at(song, from))?;
    Ok(put_pattern(song, to, rows))
}

/// A row with so many half tones added to its note, if it has one.
fn transposed(byte: u8, row: Row) -> Row
    requires { leaves_range byte row ≡ false }
    ensures { result ≡ transposed byte row }
{
    if is_note(u16::from(row.note)) {
        Row {
            note: raised_by(byte, row.note) as u8,
            ..row
        }
    } else {
        row
    }
}

/// The rows with so many half tones added to each note.
///
/// # Errors
///
/// Out of memory.
fn all_transposed(alloc: Global, rows: &[Row], byte: u8) -> Result<Vec<Row>, NoMemory>
    requires { All (λ row. leaves_range byte row ≡ false) rows.now }
    ensures { IfOk result (λ list. list.items ≡ map (transposed byte) rows.now) }
{
    let mut list = Vec::new(alloc);
    for row in rows {
        list.push(transposed(byte, *row))?;
    }
    Ok(list)
}

/// Adds half tones to each note of a pattern.
///
/// # Errors
///
/// Out of memory. The song is as before.
pub(crate) fn transpose_pattern(
    alloc: Global,
    song: &mut Song,
    pattern: u8,
    by: u8,
) -> Result<Inverse, NoMemory>
    requires place { lacks_pattern song.old pattern ≡ false }
    requires value { some_leaves_range song.old pattern by ≡ false }
    ensures { Does result song.old song.new
        (with_pattern song.old pattern (map (transposed by) (pattern_at song.old pattern))) }
{
    let rows = all_transposed(alloc, rows_at(song, pattern), by)?;
    Ok(put_pattern(song, pattern, rows))
}
