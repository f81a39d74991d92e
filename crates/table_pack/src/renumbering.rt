//! New numbers for the rows that are marked.

ghost use Rattle.std.specs.Prelude.{◌≡◌, ℕ, true, IfOk, slice_index};
ghost use Rattle.song_model.specs.LookUp.{IsNumbered};
ghost use Rattle.table_pack.specs.Marks.{is_marked};
ghost use Rattle.table_pack.specs.TableMaps.{IsRenumbering};

use crate::ByteMarks;
use base::NoMemory;
use song_model::{Bounded, Table};
use std::alloc::Global;

/// A table under new numbers.
#[derive(Drop)]
pub struct TableMap {
    /// The rows that stay, in order, numbered from 1.
    pub rows: Table,
    /// The new number of each old one, 0 for a row that isn't marked.
    pub to: [u8; 256],
}

/// The marked rows of a table, in order, under the numbers from 1 on. Their right sides stay as they are.
///
/// # Errors
///
/// Out of memory.
pub fn renumber(alloc: Global, table: &Table, marks: &ByteMarks) -> Result<TableMap, NoMemory>
    requires { (p : ℕ) → is_marked marks.now p ≡ true → IsNumbered table.now p }
    ensures { IfOk result (λ map. IsRenumbering (is_marked marks.now) table.now map.rows
        (slice_index map.to)) }
{
    let mut rows = Vec::new(alloc);
    let mut to = [0; 256];
    for (index, row) in table.as_slice().iter().enumerate() {
        if marks[index + 1] {
            rows.push(*row)?;
            to[index + 1] = rows.as_slice().len() as u8;
        }
    }
    Ok(TableMap {
        rows: Bounded::from_vec(rows),
        to,
    })
}
