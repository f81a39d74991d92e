//! The tables under new numbers, with equal programs and equal speeds stored once.

ghost use Rattle.std.specs.Prelude.{◌≡◌, ℕ, ◌<◌, ◌≤◌, false, IfOk, length, map, slice_index};
ghost use Rattle.packing_rules.specs.Segments.{IsWhole};
ghost use Rattle.packing_rules.specs.ProgramMaps.{retargeted};
ghost use Rattle.table_pack.specs.Marks.{is_marked};
ghost use Rattle.table_pack.specs.Programs.{programs_of};
ghost use Rattle.song_pack.specs.Numbers.{foreign_of, foreign_row};
ghost use Rattle.song_pack.specs.Programs.{IsPackedTable, AreMadeSpeeds};

use crate::numbers::ForeignNumbers;
use base::NoMemory;
use song_model::{Song, Table, TableRow, wave_row_table};
use std::alloc::Global;
use table_pack::{ByteMarks, merge_programs, merge_speed, renumber};

/// The left side of a row that jumps.
const JUMP: u8 = 0xff;

/// A table under new numbers.
#[derive(Drop)]
pub(crate) struct PackedTable {
    /// The rows that stay, in order, numbered from 1.
    pub rows: Table,
    /// The new number of each old one, 0 for a row that isn't used.
    pub to: [u8; 256],
}

/// The rows of the programs that stay where equal ones are stored once, each jump to the new number of its target. The
/// marks are those of the rows that programs come to, the entries those of the rows that pointers name; with `pulse` a
/// left side of 0 ends a program.
///
/// # Errors
///
/// Out of memory.
pub(crate) fn packed_programs(
    alloc: Global,
    table: &Table,
    marks: &ByteMarks,
    entries: &ByteMarks,
    pulse: bool,
) -> Result<PackedTable, NoMemory>
    requires { IsWhole (programs_of table.now marks.now entries.now pulse) }
    ensures { IfOk result (λ packed.
        IsPackedTable (programs_of table.now marks.now entries.now pulse) packed.rows packed.to) }
{
    let merged = merge_programs(table, marks, entries, pulse);
    let kept = renumber(alloc, table, &merged.keep)?;
    let to = one_after_other(&merged.to, &kept.to);
    let rows = retargeted_rows(alloc, &kept.rows, &to)?;
    Ok(PackedTable { rows, to })
}

/// The used rows of the speed table, each once.
///
/// # Errors
///
/// Out of memory.
pub(crate) fn packed_speeds(
    alloc: Global,
    song: &Song,
    marks: &ByteMarks,
) -> Result<PackedTable, NoMemory>
    requires { is_marked marks.now 0 ≡ false }
    ensures { IfOk result (λ packed.
        AreMadeSpeeds song.now (is_marked marks.now) packed.rows packed.to) }
{
    let map = merge_speed(alloc, song, marks)?;
    let to = map.to;
    Ok(PackedTable { rows: map.rows, to })
}

/// The list that looks up in one list and then in another one what stands there.
fn one_after_other(first: &[u8; 256], second: &[u8; 256]) -> [u8; 256]
    ensures both { (p : ℕ) → p < 256 → slice_index result p ≡
        slice_index second.now (slice_index first.now p) }
    ensures long { length result ≡ 256 }
{
    let mut both = [0; 256];
    for p in 0..256 {
        both[p] = second[usize::from(first[p])];
    }
    both
}

/// The rows with each jump to the new number of its target.
///
/// # Errors
///
/// Out of memory.
fn retargeted_rows(alloc: Global, rows: &Table, to: &[u8; 256]) -> Result<Table, NoMemory>
    ensures { IfOk result (λ list. list ≡ map (retargeted (slice_index to.now)) rows.now) }
{
    let stored = rows.as_slice();
    let mut list = Vec::new(alloc);
    for row in stored {
        list.push(retargeted(*row, to))?;
    }
    Ok(Table::from_vec(list))
}

/// A row, where it is a jump to the new number of its target.
fn retargeted(row: TableRow, to: &[u8; 256]) -> TableRow
    ensures { result ≡ retargeted (slice_index to.now) row }
{
    if row.left == JUMP {
        return TableRow {
            left: row.left,
            right: to[usize::from(row.right)],
        };
    }
    row
}

/// The rows of the wave table, where those that point into another table have its new number.
///
/// # Errors
///
/// Out of memory.
pub(crate) fn wave_rows(
    alloc: Global,
    wave: &Table,
    numbers: &ForeignNumbers,
) -> Result<Table, NoMemory>
    ensures { IfOk result (λ rows. rows ≡ map (foreign_row (foreign_of numbers.now)) wave.now) }
{
    let stored = wave.as_slice();
    let mut list = Vec::new(alloc);
    for row in stored {
        list.push(wave_row(*row, numbers))?;
    }
    Ok(Table::from_vec(list))
}

/// A row of the wave table, where it points into another table with the new number there.
fn wave_row(row: TableRow, numbers: &ForeignNumbers) -> TableRow
    ensures { result ≡ foreign_row (foreign_of numbers.now) row }
{
    TableRow {
        left: row.left,
        right: numbers.pointer(wave_row_table(row.left), row.right),
    }
}
