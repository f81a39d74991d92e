//! Edits of tables.

ghost use Rattle.std.specs.Prelude.{◌≡◌, true, false, ◌-◌, ◌<◌, ◌≤◌, length, slice_set, Some};
ghost use Rattle.std.specs.List.{insert, remove};
ghost use Rattle.song_model.specs.LookUp.{table_of, with_table};
ghost use Rattle.edit_ops.specs.Pointers.{shifted, moved_song};
ghost use Rattle.edit_ops.specs.Back.{back, with_parts, are_parts, table_in, with_table_in};
ghost use Rattle.edit_ops.specs.Tables.{table_named, lacks_table_row, lacks_table_gap, has_table_rows, with_table_row};
ghost use Rattle.edit_ops.specs.Tables.{with_row_inserted, with_row_deleted};
ghost use Rattle.edit_ops.specs.Does.{Does};

use crate::inverses::{exchange_parts, exchange_table};
use crate::lists::{inserted, removed, with_item};
use crate::pointers::moved_parts;
use crate::{Inverse, PointerParts, Shift};
use song_model::{NoMemory, Song, Table, TableName, TableRow};
use std::alloc::Global;

/// The table with this number: 0 wave, 1 pulse, 2 filter, else speed.
pub(crate) fn table_named(table: u8) -> TableName
    ensures { result ≡ table_named table }
{
    match table {
        0 => TableName::Wave,
        1 => TableName::Pulse,
        2 => TableName::Filter,
        _ => TableName::Speed,
    }
}

/// Whether no row of a table has this number.
pub(crate) fn lacks_table_row(song: &Song, table: u8, number: u8) -> bool
    ensures { result ≡ lacks_table_row song.now table number }
{
    let rows = song.table(table_named(table)).as_slice();
    table > 3 || number == 0 || usize::from(number) > rows.len()
}

/// Whether no row can be put before one of a table.
pub(crate) fn lacks_table_gap(song: &Song, table: u8, number: u8) -> bool
    ensures { result ≡ lacks_table_gap song.now table number }
{
    let rows = song.table(table_named(table)).as_slice();
    table > 3 || number == 0 || usize::from(number) > rows.len() + 1
}

/// Whether a table has so many rows.
pub(crate) fn has_table_rows(song: &Song, table: u8, count: usize) -> bool
    ensures { result ≡ has_table_rows song.now table count }
{
    song.table(table_named(table)).as_slice().len() == count
}

impl PointerParts {
    /// The table of this name.
    fn table(&self, name: TableName) -> &Table
        ensures { result.now ≡ table_in self.now name }
    {
        match name {
            TableName::Wave => &self.wave,
            TableName::Pulse => &self.pulse,
            TableName::Filter => &self.filter,
            TableName::Speed => &self.speed,
        }
    }

    /// Puts a table in place of the one of that name.
    fn set_table(&mut self, name: TableName, table: Table)
        ensures { self.new ≡ with_table_in self.old name table }
    {
        match name {
            TableName::Wave => self.wave = table,
            TableName::Pulse => self.pulse = table,
            TableName::Filter => self.filter = table,
            TableName::Speed => self.speed = table,
        }
    }
}

/// Sets a row of a table.
///
/// # Errors
///
/// Out of memory. The song is as before.
#[tactic(auto, unfolding(crate::specs::Back::back))]
pub(crate) fn set_table(
    alloc: Global,
    song: &mut Song,
    table: u8,
    number: u8,
    row: TableRow,
) -> Result<Inverse, NoMemory>
    requires { lacks_table_row song.old table number ≡ false }
    ensures { Does result song.old song.new
        (with_table_row song.old (table_named table) number row) }
{
    let name = table_named(table);
    let stored = song.table(name).as_slice();
    let rows = with_item(alloc, stored, usize::from(number) - 1, row)?;
    let table = exchange_table(song, name, Table::from_vec(rows));
    Ok(Inverse::OneTable { name, table })
}

/// Puts parts with a table of this name in place of a song's. It takes no memory.
fn put_parts(song: &mut Song, name: TableName, parts: PointerParts, rows: Vec<TableRow>) -> Inverse
    requires parts { are_parts song.old parts ≡ true }
    requires limit { length rows.items ≤ 255 }
    ensures after { song.new ≡ with_table (with_parts song.old parts) name rows.items }
    ensures back { back song.new result ≡ Some song.old }
{
    let mut parts = parts;
    parts.set_table(name, Table::from_vec(rows));
    Inverse::Pointers(exchange_parts(song, parts))
}

/// Inserts a row before one of a table, and moves the pointers into that table.
///
/// # Errors
///
/// Out of memory. The song is as before.
#[tactic(auto, unfolding(crate::specs::Tables::with_row_inserted))]
pub(crate) fn insert_table(
    alloc: Global,
    song: &mut Song,
    table: u8,
    number: u8,
    row: TableRow,
) -> Result<Inverse, NoMemory>
    requires place { lacks_table_gap song.old table number ≡ false }
    requires limit { has_table_rows song.old table 255 ≡ false }
    ensures { Does result song.old song.new
        (with_row_inserted song.old (table_named table) number row) }
{
    let name = table_named(table);
    let parts = moved_parts(alloc, song, name, Shift::Up(number))?;
    let stored = parts.table(name).as_slice();
    let rows = inserted(alloc, stored, usize::from(number) - 1, row)?;
    Ok(put_parts(song, name, parts, rows))
}

/// Deletes a row of a table, and moves the pointers into that table.
///
/// # Errors
///
/// Out of memory. The song is as before.
#[tactic(auto, unfolding(crate::specs::Tables::with_row_deleted))]
pub(crate) fn delete_table(
    alloc: Global,
    song: &mut Song,
    table: u8,
    number: u8,
) -> Result<Inverse, NoMemory>
    requires { lacks_table_row song.old table number ≡ false }
    ensures { Does result song.old song.new (with_row_deleted song.old (table_named table) number) }
{
    let name = table_named(table);
    let parts = moved_parts(alloc, song, name, Shift::Down(number))?;
    let stored = parts.table(name).as_slice();
    let rows = removed(alloc, stored, usize::from(number) - 1)?;
    Ok(put_parts(song, name, parts, rows))
}
