//! Patterns and their rows.

ghost use Rattle.std.specs.Prelude.{◌≡◌, ◌≤◌, ◌∷◌, ◌++◌, [], OnOk};
ghost use Rattle.song_script.specs.Statements.{Comment, text_of, each_from};
ghost use Rattle.song_script.specs.Parts.{is_rest, row_said, length_said, pattern_words, pattern_said};

use crate::digits::put_digits;
use crate::lines::put_line;
use crate::words::put_row_words;
use base::{ByteList, NoMemory};
use song_model::{Pattern, PatternList, Row};

/// Whether a row is a rest with nothing beside it.
fn is_rest(row: Row) -> bool
    ensures { result ≡ is_rest row }
{
    row.note == 0xbd && row.instrument == 0 && row.command == 0 && row.param == 0
}

/// Adds a row, unless it is a rest with nothing beside it.
///
/// # Errors
///
/// Out of memory.
fn put_row(out: &mut ByteList, pattern: u8, place: u8, row: Row) -> Result<(), NoMemory>
    requires { row.command ≤ 0x0F }
    ensures { OnOk result (out.new ≡ out.old ++ text_of (row_said pattern place row)) }
{
    if is_rest(row) {
        return Ok(());
    }
    out.extend(b"# ")?;
    put_row_words(out, place, row)?;
    out.push(b'\n')?;
    put_line(
        out,
        b"row",
        &[
            pattern,
            place,
            row.note,
            row.instrument,
            row.command,
            row.param,
        ],
    )
}

/// Adds the rows of a pattern.
///
/// # Errors
///
/// Out of memory.
fn put_rows(out: &mut ByteList, number: u8, pattern: &Pattern) -> Result<(), NoMemory>
    ensures { OnOk result (out.new ≡ out.old ++ text_of (each_from 0 (row_said number) pattern.now)) }
{
    let rows = pattern.as_slice();
    for (place, row) in rows.iter().enumerate() {
        put_row(out, number, place as u8, *row)?;
    }
    Ok(())
}

/// Adds how many rows a pattern has, unless it has 64.
///
/// # Errors
///
/// Out of memory.
fn put_length(out: &mut ByteList, number: u8, rows: u8) -> Result<(), NoMemory>
    ensures { OnOk result (out.new ≡ out.old ++ text_of (length_said number rows)) }
{
    if rows == 64 {
        return Ok(());
    }
    put_line(out, b"pattern-length", &[number, rows])
}

/// Adds the line over a pattern.
///
/// # Errors
///
/// Out of memory.
fn put_title(out: &mut ByteList, number: u8) -> Result<(), NoMemory>
    ensures { OnOk result (out.new ≡ out.old ++ text_of (Comment (pattern_words number) ∷ [])) }
{
    out.extend(b"# pattern ")?;
    put_digits(out, number)?;
    out.push(b'\n')
}

/// Adds a pattern.
///
/// # Errors
///
/// Out of memory.
fn put_pattern(out: &mut ByteList, number: u8, pattern: &Pattern) -> Result<(), NoMemory>
    ensures { OnOk result (out.new ≡ out.old ++ text_of (pattern_said number pattern.now)) }
{
    let rows = pattern.as_slice();
    put_title(out, number)?;
    put_length(out, number, rows.len() as u8)?;
    put_rows(out, number, pattern)
}

/// Adds all patterns.
///
/// # Errors
///
/// Out of memory.
pub(crate) fn put_patterns(out: &mut ByteList, patterns: &PatternList) -> Result<(), NoMemory>
    ensures { OnOk result (out.new ≡ out.old ++ text_of (each_from 0 pattern_said patterns.now)) }
{
    let patterns = patterns.as_slice();
    for (place, pattern) in patterns.iter().enumerate() {
        put_pattern(out, place as u8, pattern)?;
    }
    Ok(())
}
