//! The numbers that the parts of the second song get, and parts of it under these numbers.

ghost use Rattle.std.specs.Prelude.{◌≡◌, ◌+◌, ◌≤◌, ◌<◌, length};
ghost use Rattle.same_frames.specs.Maps.{moved_pointer, right_table, moved_row, moved_instrument};
ghost use Rattle.same_frames.specs.OrderLaws.{moved_byte};
ghost use Rattle.song_model.specs.Endless.{IsPatternByte};
ghost use Rattle.song_join.specs.Numbers.{raised, new_numbers};
ghost use Rattle.song_join.specs.Joined.{moved_pattern_row};
ghost use Rattle.song_join.specs.Limits.{AreWithin};

use song_model::{Instrument, Row, Song, TableName, TableRow, command_table, wave_row_table};

/// The first byte of an orderlist that is no pattern's number.
const FIRST_REPEAT: u8 = 0xd0;

/// The left side of a jump.
const JUMP: u8 = 0xff;

/// What the number of one of these stored parts becomes behind as many others; 0 where it isn't stored.
fn raised(stored: usize, by: usize, number: u8) -> u8
    requires { stored + by ≤ 255 }
    ensures { result ≡ raised stored by number }
{
    if number >= 1 && usize::from(number) <= stored {
        number + by as u8
    } else {
        0
    }
}

/// The new number of a row of a table of the second song.
#[tactic(auto, unfolding(crate::specs::Numbers::new_numbers))]
fn moved_number(first: &Song, second: &Song, name: TableName, p: u8) -> u8
    requires { AreWithin first.now second.now }
    ensures { result ≡ (new_numbers first.now second.now).row name p }
{
    raised(
        second.table(name).as_slice().len(),
        first.table(name).as_slice().len(),
        p,
    )
}

/// The new number of an instrument of the second song.
#[tactic(auto, unfolding(crate::specs::Numbers::new_numbers))]
fn moved_instrument_number(first: &Song, second: &Song, instrument: u8) -> u8
    requires { AreWithin first.now second.now }
    ensures { result ≡ (new_numbers first.now second.now).instrument instrument }
{
    raised(
        second.instruments.as_slice().len(),
        first.instruments.as_slice().len(),
        instrument,
    )
}

/// What points into this table of the second song, if any, under its new number.
fn moved_pointer(first: &Song, second: &Song, table: Option<TableName>, p: u8) -> u8
    requires { AreWithin first.now second.now }
    ensures { result ≡ moved_pointer (new_numbers first.now second.now) table p }
{
    match table {
        Some(name) => moved_number(first, second, name, p),
        None => p,
    }
}

/// The table that a row of a table points into by its right side, where its left side is this one.
fn right_table(name: TableName, row: TableRow) -> Option<TableName>
    ensures { result ≡ right_table name row }
{
    match name {
        TableName::Speed => None,
        name if row.left == JUMP => Some(name),
        TableName::Wave => wave_row_table(row.left),
        _ => None,
    }
}

/// A row of a table of the second song with its right side moved, if that points.
pub(crate) fn moved_table_row(
    first: &Song,
    second: &Song,
    name: TableName,
    row: TableRow,
) -> TableRow
    requires { AreWithin first.now second.now }
    ensures { result ≡ moved_row (new_numbers first.now second.now) name row }
{
    TableRow {
        right: moved_pointer(first, second, right_table(name, row), row.right),
        ..row
    }
}

/// An instrument of the second song with its pointers moved.
pub(crate) fn moved_instrument(first: &Song, second: &Song, instrument: Instrument) -> Instrument
    requires { AreWithin first.now second.now }
    ensures { result ≡ moved_instrument (new_numbers first.now second.now) instrument }
{
    Instrument {
        wave: moved_number(first, second, TableName::Wave, instrument.wave),
        pulse: moved_number(first, second, TableName::Pulse, instrument.pulse),
        filter: moved_number(first, second, TableName::Filter, instrument.filter),
        vibrato: moved_number(first, second, TableName::Speed, instrument.vibrato),
        ..instrument
    }
}

/// A row of a pattern of the second song with its instrument moved, and its parameter, if that points.
pub(crate) fn moved_pattern_row(first: &Song, second: &Song, row: Row) -> Row
    requires { AreWithin first.now second.now }
    ensures { result ≡ moved_pattern_row (new_numbers first.now second.now) row }
{
    Row {
        instrument: moved_instrument_number(first, second, row.instrument),
        param: moved_pointer(first, second, command_table(row.command), row.param),
        ..row
    }
}

/// A byte of an orderlist of the second song, moved if it is a pattern's number, which is one of a stored pattern.
#[tactic(auto, unfolding(crate::specs::Numbers::new_numbers))]
pub(crate) fn moved_byte(first: &Song, second: &Song, byte: u8) -> u8
    requires within { AreWithin first.now second.now }
    requires stored { IsPatternByte byte → byte < length second.now.patterns }
    ensures { result ≡ moved_byte (new_numbers first.now second.now) byte }
{
    // Named in the contract alone.
    let _second = second;
    if byte < FIRST_REPEAT {
        byte + first.patterns.as_slice().len() as u8
    } else {
        byte
    }
}
