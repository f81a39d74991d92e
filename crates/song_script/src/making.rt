//! As much of each part as a song has, with nothing in it.

ghost use Rattle.std.specs.Prelude.{◌≡◌, ◌++◌, OnOk};
ghost use Rattle.song_script.specs.Statements.{text_of};
ghost use Rattle.song_script.specs.Parts.{subtunes_made, instruments_made, table_made, patterns_made, parts_made};

use crate::lines::put_line;
use base::{ByteList, NoMemory};
use song_model::Song;

/// Adds a line for each of so many subtunes.
///
/// # Errors
///
/// Out of memory.
fn put_subtunes_made(out: &mut ByteList, count: usize) -> Result<(), NoMemory>
    ensures { OnOk result (out.new ≡ out.old ++ text_of (subtunes_made count)) }
{
    for _made in 0..count {
        put_line(out, b"subtune-add", &[])?;
    }
    Ok(())
}

/// Adds a line for the last of so many instruments, if there is one.
///
/// # Errors
///
/// Out of memory.
fn put_instruments_made(out: &mut ByteList, count: u8) -> Result<(), NoMemory>
    ensures { OnOk result (out.new ≡ out.old ++ text_of (instruments_made count)) }
{
    if count == 0 {
        return Ok(());
    }
    put_line(out, b"instrument", &[count, 0, 0])
}

/// Adds a line for each of so many rows of a table.
///
/// # Errors
///
/// Out of memory.
fn put_table_made(out: &mut ByteList, table: u8, count: usize) -> Result<(), NoMemory>
    ensures { OnOk result (out.new ≡ out.old ++ text_of (table_made table count)) }
{
    for _made in 0..count {
        put_line(out, b"table-insert", &[table, 1, 0, 0])?;
    }
    Ok(())
}

/// Adds a line for so many patterns, if there is one.
///
/// # Errors
///
/// Out of memory.
fn put_patterns_made(out: &mut ByteList, count: u8) -> Result<(), NoMemory>
    ensures { OnOk result (out.new ≡ out.old ++ text_of (patterns_made count)) }
{
    if count == 0 {
        return Ok(());
    }
    put_line(out, b"pattern-count", &[count])
}

/// Adds the lines of all parts.
///
/// # Errors
///
/// Out of memory.
pub(crate) fn put_parts_made(out: &mut ByteList, song: &Song) -> Result<(), NoMemory>
    ensures { OnOk result (out.new ≡ out.old ++ text_of (parts_made song.now)) }
{
    let subtunes = song.subtunes.as_slice();
    let instruments = song.instruments.as_slice();
    let wave = song.wave.as_slice();
    let pulse = song.pulse.as_slice();
    let filter = song.filter.as_slice();
    let speed = song.speed.as_slice();
    let patterns = song.patterns.as_slice();
    put_subtunes_made(out, subtunes.len())?;
    put_instruments_made(out, instruments.len() as u8)?;
    put_table_made(out, 0, wave.len())?;
    put_table_made(out, 1, pulse.len())?;
    put_table_made(out, 2, filter.len())?;
    put_table_made(out, 3, speed.len())?;
    put_patterns_made(out, patterns.len() as u8)
}
