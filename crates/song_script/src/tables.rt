//! Tables.

ghost use Rattle.std.specs.Prelude.{◌≡◌, ◌++◌, OnOk};
ghost use Rattle.song_script.specs.Statements.{text_of, each_from};
ghost use Rattle.song_script.specs.Parts.{table_row_said, table_said, tables_said};

use crate::lines::put_line;
use base::{ByteList, NoMemory};
use song_model::{Song, Table, TableRow};

/// Adds a row of a table, unless both sides are zero.
///
/// # Errors
///
/// Out of memory.
fn put_table_row(out: &mut ByteList, table: u8, number: u8, row: TableRow) -> Result<(), NoMemory>
    ensures { OnOk result (out.new ≡ out.old ++ text_of (table_row_said table number row)) }
{
    if row.left == 0 && row.right == 0 {
        return Ok(());
    }
    put_line(out, b"table", &[table, number, row.left, row.right])
}

/// Adds the rows of a table.
///
/// # Errors
///
/// Out of memory.
fn put_table_rows(out: &mut ByteList, table: u8, rows: &Table) -> Result<(), NoMemory>
    ensures { OnOk result (out.new ≡ out.old ++ text_of (each_from 1 (table_row_said table) rows.now)) }
{
    let rows = rows.as_slice();
    for (place, row) in rows.iter().enumerate() {
        put_table_row(out, table, place as u8 + 1, *row)?;
    }
    Ok(())
}

/// Adds a table under its title.
///
/// # Errors
///
/// Out of memory.
fn put_table(out: &mut ByteList, table: u8, title: &[u8], rows: &Table) -> Result<(), NoMemory>
    ensures { OnOk result (out.new ≡ out.old ++ text_of (table_said table title.now rows.now)) }
{
    out.extend(b"# ")?;
    out.extend(title)?;
    out.extend(b" table\n")?;
    put_table_rows(out, table, rows)
}

/// Adds the four tables.
///
/// # Errors
///
/// Out of memory.
pub(crate) fn put_tables(out: &mut ByteList, song: &Song) -> Result<(), NoMemory>
    ensures { OnOk result (out.new ≡ out.old ++ text_of (tables_said song.now)) }
{
    put_table(out, 0, b"wave", &song.wave)?;
    put_table(out, 1, b"pulse", &song.pulse)?;
    put_table(out, 2, b"filter", &song.filter)?;
    put_table(out, 3, b"speed", &song.speed)
}
