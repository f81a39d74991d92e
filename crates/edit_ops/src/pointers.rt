//! The pointers into a table, wherever they stand in a song, moved.

ghost use Rattle.std.specs.Prelude.{◌≡◌, true, length, map, IfOk};
ghost use Rattle.std.specs.List.{list_any};
ghost use Rattle.edit_ops.specs.Pointers.{shifted, is_into, right_table, moved_instrument, is_moved, moved_row};
ghost use Rattle.edit_ops.specs.Pointers.{moved_table_row, moved_table, moved_song};
ghost use Rattle.edit_ops.specs.Numbered.{are_stored, with_all};
ghost use Rattle.edit_ops.specs.Back.{with_parts, are_parts};

use crate::{NumberedPattern, PointerParts, Shift};
use base::Items;
use song_model::{
    Instrument, InstrumentList, NoMemory, Pattern, PatternList, Row, Song, Table, TableName,
    TableRow, command_table, wave_row_table,
};
use std::alloc::Global;

/// Whether this is the table that is pointed into.
fn is_into(name: TableName, found: Option<TableName>) -> bool
    ensures { result ≡ is_into name found }
{
    match (name, found) {
        (TableName::Wave, Some(TableName::Wave)) => true,
        (TableName::Pulse, Some(TableName::Pulse)) => true,
        (TableName::Filter, Some(TableName::Filter)) => true,
        (TableName::Speed, Some(TableName::Speed)) => true,
        _ => false,
    }
}

/// The table that a row of a table points into by its right side, where its left side is this one.
fn right_table(holder: TableName, left: u8) -> Option<TableName>
    ensures { result ≡ right_table holder left }
{
    match holder {
        TableName::Wave if left != 0xff => wave_row_table(left),
        TableName::Speed => None,
        name if left == 0xff => Some(name),
        _ => None,
    }
}

/// An instrument with its pointer into a table moved.
fn moved_instrument(name: TableName, shift: Shift, instrument: Instrument) -> Instrument
    ensures { result ≡ moved_instrument name (shifted shift) instrument }
{
    let mut moved = instrument;
    match name {
        TableName::Wave => moved.wave = shift.of(instrument.wave),
        TableName::Pulse => moved.pulse = shift.of(instrument.pulse),
        TableName::Filter => moved.filter = shift.of(instrument.filter),
        TableName::Speed => moved.vibrato = shift.of(instrument.vibrato),
    }
    moved
}

/// A row of a pattern with its parameter moved, if that points into a table.
fn moved_row(name: TableName, shift: Shift, row: Row) -> Row
    ensures { result ≡ moved_row name (shifted shift) row }
{
    if is_into(name, command_table(row.command)) {
        Row {
            param: shift.of(row.param),
            ..row
        }
    } else {
        row
    }
}

/// A row of the table `holder` with its right side moved, if that points into the table `name`.
fn moved_table_row(name: TableName, holder: TableName, shift: Shift, row: TableRow) -> TableRow
    ensures { result ≡ moved_table_row name holder (shifted shift) row }
{
    if is_into(name, right_table(holder, row.left)) {
        TableRow {
            right: shift.of(row.right),
            ..row
        }
    } else {
        row
    }
}

/// Instruments with their pointers into a table moved.
///
/// # Errors
///
/// Out of memory.
fn moved_instruments(
    alloc: Global,
    name: TableName,
    shift: Shift,
    instruments: &InstrumentList,
) -> Result<InstrumentList, NoMemory>
    ensures { IfOk result (λ list. list ≡ map (moved_instrument name (shifted shift)) instruments.now) }
{
    let stored = instruments.as_slice();
    let mut list = Vec::new(alloc);
    for instrument in stored {
        list.push(moved_instrument(name, shift, *instrument))?;
    }
    Ok(InstrumentList::from_vec(list))
}

/// The table `holder` with its pointers into the table `name` moved.
///
/// # Errors
///
/// Out of memory.
fn moved_table(
    alloc: Global,
    name: TableName,
    holder: TableName,
    shift: Shift,
    table: &Table,
) -> Result<Table, NoMemory>
    ensures { IfOk result (λ made. made ≡ moved_table name holder (shifted shift) table.now) }
{
    let stored = table.as_slice();
    let mut list = Vec::new(alloc);
    for row in stored {
        list.push(moved_table_row(name, holder, shift, *row))?;
    }
    Ok(Table::from_vec(list))
}

/// A pattern with its pointers into a table moved.
///
/// # Errors
///
/// Out of memory.
fn moved_pattern(
    alloc: Global,
    name: TableName,
    shift: Shift,
    pattern: &Pattern,
) -> Result<Pattern, NoMemory>
    ensures { IfOk result (λ made. made ≡ map (moved_row name (shifted shift)) pattern.now) }
{
    let stored = pattern.as_slice();
    let mut list = Vec::new(alloc);
    for row in stored {
        list.push(moved_row(name, shift, *row))?;
    }
    Ok(Pattern::from_vec(list))
}

/// Whether a row has a pointer into a table that becomes another.
fn is_moved(name: TableName, shift: Shift, row: Row) -> bool
    ensures { result ≡ is_moved name (shifted shift) row }
{
    is_into(name, command_table(row.command)) && shift.of(row.param) != row.param
}

/// Whether a pattern has a pointer into a table that becomes another.
fn has_moved(name: TableName, shift: Shift, pattern: &Pattern) -> bool
    ensures { result ≡ list_any (is_moved name (shifted shift)) pattern.now }
{
    let rows = pattern.as_slice();
    rows.iter().any(|row| is_moved(name, shift, *row))
}

/// Of these patterns those with a pointer into a table that becomes another, with their numbers and moved.
///
/// # Errors
///
/// Out of memory.
fn moved_patterns(
    alloc: Global,
    name: TableName,
    shift: Shift,
    patterns: &PatternList,
) -> Result<Items<NumberedPattern>, NoMemory>
    ensures stored { IfOk result (λ parts. are_stored (length patterns.now) parts ≡ true) }
    ensures moved { IfOk result (λ parts. with_all patterns.now parts
        ≡ map (map (moved_row name (shifted shift))) patterns.now) }
{
    let stored = patterns.as_slice();
    let mut parts = Vec::new(alloc);
    for number in 0..stored.len() {
        if has_moved(name, shift, &stored[number]) {
            parts.push(NumberedPattern {
                number: number as u8,
                rows: moved_pattern(alloc, name, shift, &stored[number])?,
            })?;
        }
    }
    Ok(Items::from_vec(parts))
}

/// The parts of a song that have pointers into a table, with these moved.
///
/// # Errors
///
/// Out of memory.
#[tactic(auto, unfolding(crate::specs::Pointers::moved_song))]
pub(crate) fn moved_parts(
    alloc: Global,
    song: &Song,
    name: TableName,
    shift: Shift,
) -> Result<PointerParts, NoMemory>
    ensures parts { IfOk result (λ parts. are_parts song.now parts ≡ true) }
    ensures moved { IfOk result (λ parts. with_parts song.now parts ≡
        moved_song name (shifted shift) song.now) }
{
    Ok(PointerParts {
        instruments: moved_instruments(alloc, name, shift, &song.instruments)?,
        wave: moved_table(alloc, name, TableName::Wave, shift, &song.wave)?,
        pulse: moved_table(alloc, name, TableName::Pulse, shift, &song.pulse)?,
        filter: moved_table(alloc, name, TableName::Filter, shift, &song.filter)?,
        speed: moved_table(alloc, name, TableName::Speed, shift, &song.speed)?,
        patterns: moved_patterns(alloc, name, shift, &song.patterns)?,
    })
}
