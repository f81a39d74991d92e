//! Writing a song in its canonical spelling.

ghost use Rattle.std.specs.Prelude.{◌≡◌, ◌∷◌, ◌++◌, [], length, map, OnOk, IfOk};
ghost use Rattle.std.specs.List.{flat_map};
ghost use Rattle.song_model.specs.Canonical.{canonical, order_text, subtune_text, subtunes_text, instrument_text};
ghost use Rattle.song_model.specs.Canonical.{instruments_text, table_text, row_text, end_row_text, pattern_text};
ghost use Rattle.song_model.specs.Canonical.{patterns_text};

use song_model::{
    Instrument, InstrumentList, NoMemory, Order, Pattern, PatternList, Row, Song, Subtune,
    SubtuneList, Table, TableRow,
};
use std::alloc::Global;

/// The canonical spelling of a song: no byte that a reader ignores, and each end row is `FF 00 00 00`.
///
/// # Errors
///
/// Out of memory.
#[tactic(auto, unfolding(song_model::specs::Canonical::canonical))]
pub fn write(alloc: Global, song: &Song) -> Result<Vec<u8>, NoMemory>
    ensures { IfOk result (λ bytes. bytes.items ≡ canonical song.now) }
{
    let mut out = Vec::new(alloc);
    out.extend_from_slice(b"GTS5")?;
    out.extend_from_slice(&song.name)?;
    out.extend_from_slice(&song.author)?;
    out.extend_from_slice(&song.copyright)?;
    put_subtunes(&mut out, &song.subtunes)?;
    put_instruments(&mut out, &song.instruments)?;
    put_table(&mut out, &song.wave)?;
    put_table(&mut out, &song.pulse)?;
    put_table(&mut out, &song.filter)?;
    put_table(&mut out, &song.speed)?;
    put_patterns(&mut out, &song.patterns)?;
    Ok(out)
}

/// An orderlist: its count, its entries, the endmark and the restart position.
///
/// # Errors
///
/// Out of memory.
fn put_order(out: &mut Vec<u8>, order: &Order) -> Result<(), NoMemory>
    ensures { OnOk result (out.new.items ≡ out.old.items ++ order_text order.now) }
{
    let entries = order.entries.as_slice();
    out.push(entries.len() as u8 + 1)?;
    out.extend_from_slice(entries)?;
    out.push(0xff)?;
    out.push(order.restart)?;
    Ok(())
}

/// The three orderlists of a subtune.
///
/// # Errors
///
/// Out of memory.
fn put_subtune(out: &mut Vec<u8>, subtune: &Subtune) -> Result<(), NoMemory>
    ensures { OnOk result (out.new.items ≡ out.old.items ++ subtune_text subtune.now) }
{
    put_order(out, &subtune.one)?;
    put_order(out, &subtune.two)?;
    put_order(out, &subtune.three)
}

/// The count of the subtunes and the subtunes.
///
/// # Errors
///
/// Out of memory.
fn put_subtunes(out: &mut Vec<u8>, subtunes: &SubtuneList) -> Result<(), NoMemory>
    ensures { OnOk result (out.new.items ≡ out.old.items ++ subtunes_text subtunes.now) }
{
    let subtunes = subtunes.as_slice();
    out.push(subtunes.len() as u8)?;
    for subtune in subtunes {
        put_subtune(out, subtune)?;
    }
    Ok(())
}

/// An instrument: nine numbers and its name.
///
/// # Errors
///
/// Out of memory.
fn put_instrument(out: &mut Vec<u8>, instrument: &Instrument) -> Result<(), NoMemory>
    ensures { OnOk result (out.new.items ≡ out.old.items ++ instrument_text instrument.now) }
{
    out.extend_from_slice(&[
        instrument.ad,
        instrument.sr,
        instrument.wave,
        instrument.pulse,
        instrument.filter,
        instrument.vibrato,
        instrument.vibrato_delay,
        instrument.gate_timer,
        instrument.first_wave,
    ])?;
    out.extend_from_slice(&instrument.name)?;
    Ok(())
}

/// The count of the instruments and the instruments.
///
/// # Errors
///
/// Out of memory.
fn put_instruments(out: &mut Vec<u8>, instruments: &InstrumentList) -> Result<(), NoMemory>
    ensures { OnOk result (out.new.items ≡ out.old.items ++ instruments_text instruments.now) }
{
    let instruments = instruments.as_slice();
    out.push(instruments.len() as u8)?;
    for instrument in instruments {
        put_instrument(out, instrument)?;
    }
    Ok(())
}

/// The left sides of a table.
///
/// # Errors
///
/// Out of memory.
fn put_lefts(out: &mut Vec<u8>, rows: &[TableRow]) -> Result<(), NoMemory>
    ensures { OnOk result (out.new.items ≡ out.old.items ++ map (λ row. row.left) rows.now) }
{
    for row in rows {
        out.push(row.left)?;
    }
    Ok(())
}

/// The right sides of a table.
///
/// # Errors
///
/// Out of memory.
fn put_rights(out: &mut Vec<u8>, rows: &[TableRow]) -> Result<(), NoMemory>
    ensures { OnOk result (out.new.items ≡ out.old.items ++ map (λ row. row.right) rows.now) }
{
    for row in rows {
        out.push(row.right)?;
    }
    Ok(())
}

/// The count of a table's rows, its left sides and its right sides.
///
/// # Errors
///
/// Out of memory.
fn put_table(out: &mut Vec<u8>, table: &Table) -> Result<(), NoMemory>
    ensures { OnOk result (out.new.items ≡ out.old.items ++ table_text table.now) }
{
    let rows = table.as_slice();
    out.push(rows.len() as u8)?;
    put_lefts(out, rows)?;
    put_rights(out, rows)
}

/// Rows of four bytes.
///
/// # Errors
///
/// Out of memory.
fn put_rows(out: &mut Vec<u8>, rows: &[Row]) -> Result<(), NoMemory>
    ensures { OnOk result (out.new.items ≡ out.old.items ++ flat_map row_text rows.now) }
{
    for row in rows {
        out.extend_from_slice(&[row.note, row.instrument, row.command, row.param])?;
    }
    Ok(())
}

/// A pattern: the count of its rows and the end row, its rows and the end row.
///
/// # Errors
///
/// Out of memory.
fn put_pattern(out: &mut Vec<u8>, pattern: &Pattern) -> Result<(), NoMemory>
    ensures { OnOk result (out.new.items ≡ out.old.items ++ pattern_text pattern.now) }
{
    let rows = pattern.as_slice();
    out.push(rows.len() as u8 + 1)?;
    put_rows(out, rows)?;
    out.extend_from_slice(&[0xff, 0, 0, 0])?;
    Ok(())
}

/// The count of the patterns and the patterns.
///
/// # Errors
///
/// Out of memory.
fn put_patterns(out: &mut Vec<u8>, patterns: &PatternList) -> Result<(), NoMemory>
    ensures { OnOk result (out.new.items ≡ out.old.items ++ patterns_text patterns.now) }
{
    let patterns = patterns.as_slice();
    out.push(patterns.len() as u8)?;
    for pattern in patterns {
        put_pattern(out, pattern)?;
    }
    Ok(())
}
