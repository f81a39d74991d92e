//! The speed table with each row once.

ghost use Rattle.std.specs.Prelude.{◌≡◌, ◌≤◌, ◌+◌, false, length, map, slice_index, IfOk, OnOk};
ghost use Rattle.std.specs.List.{position_or_len};
ghost use Rattle.packing_rules.specs.Renumbering.{same_row};
ghost use Rattle.table_pack.specs.Marks.{is_marked};
ghost use Rattle.table_pack.specs.Speeds.{IsSpeedMerge, sides_of, with_row};

use crate::{ByteMarks, TableMap};
use base::NoMemory;
use indexmap::IndexSet;
use song_model::{Bounded, Song, TableRow};
use std::alloc::Global;

/// The marked rows of the speed table, each row once, in the order in which they are first seen, under the numbers from
/// 1 on. A row past the table is (0, 0). The new number of a row that isn't marked is 0.
///
/// # Errors
///
/// Out of memory.
pub fn merge_speed(alloc: Global, song: &Song, marks: &ByteMarks) -> Result<TableMap, NoMemory>
    requires { is_marked marks.now 0 ≡ false }
    ensures { IfOk result (λ map. IsSpeedMerge song.now (is_marked marks.now) map.rows
        (slice_index map.to)) }
{
    let mut seen = IndexSet::new(alloc);
    let mut rows = Vec::new(alloc);
    let mut to = [0; 256];
    for index in 0..255 {
        let p = index + 1;
        if marks[p] {
            to[p] = number_of(&mut seen, &mut rows, song.speed(p as u8))?;
        }
    }
    Ok(TableMap {
        rows: Bounded::from_vec(rows),
        to,
    })
}

/// The number of a row among these, counted from 1. It is added at the end where it isn't there.
///
/// # Errors
///
/// Out of memory.
fn number_of(
    seen: &mut IndexSet<(u8, u8)>,
    rows: &mut Vec<TableRow>,
    row: TableRow,
) -> Result<u8, NoMemory>
    requires together { seen.old.keys ≡ map sides_of rows.old.items }
    requires few { length rows.old.items ≤ 254 }
    ensures number { IfOk result (λ n. n ≡
        position_or_len (same_row row) rows.old.items + 1) }
    ensures rows { OnOk result (rows.new.items ≡ with_row rows.old.items row) }
    ensures together { OnOk result (seen.new.keys ≡ map sides_of rows.new.items) }
{
    let (index, is_new) = seen.insert_full((row.left, row.right))?;
    if is_new {
        rows.push(row)?;
    }
    Ok(index as u8 + 1)
}
