//! The wave, pulse, filter and speed table.

ghost use Rattle.std.specs.Prelude.{◌≡◌, ◌≤◌, length};
ghost use Rattle.gts5.specs.Reading.{table_rows, table_at, tables_at};
ghost use Rattle.gts5.specs.Gives.{Gives};

use crate::SongFault;
use crate::reader::Reader;
use song_model::{Table, TableRow};
use std::alloc::Global;

/// The four tables of a song.
#[derive(Drop)]
pub struct Tables {
    pub wave: Table,
    pub pulse: Table,
    pub filter: Table,
    pub speed: Table,
}

impl Reader {
    /// A table: all left sides stand before all right sides.
    ///
    /// # Errors
    ///
    /// The file ends before the table does; or out of memory.
    #[tactic(auto, unfolding(crate::specs::Reading::table_at))]
    fn table<'a>(self, alloc: Global, left: &'a [u8]) -> Result<(Table, &'a [u8]), SongFault>
        ensures { Gives (λ x. (x.0, x.1.now)) result (table_at self.length left.now) }
    {
        let (count, left) = self.byte(left)?;
        let (lefts, left) = self.bytes(usize::from(count), left)?;
        let (rights, left) = self.bytes(usize::from(count), left)?;
        let rows = joined_sides(alloc, lefts, rights)?;
        Ok((rows, left))
    }

    /// The four tables.
    ///
    /// # Errors
    ///
    /// The file ends before they do; or out of memory.
    #[tactic(auto, unfolding(crate::specs::Reading::tables_at))]
    pub fn tables<'a>(self, alloc: Global, left: &'a [u8]) -> Result<(Tables, &'a [u8]), SongFault>
        ensures { Gives (λ x. (x.0, x.1.now)) result (tables_at self.length left.now) }
    {
        let (wave, left) = self.table(alloc, left)?;
        let (pulse, left) = self.table(alloc, left)?;
        let (filter, left) = self.table(alloc, left)?;
        let (speed, left) = self.table(alloc, left)?;
        Ok((
            Tables {
                wave,
                pulse,
                filter,
                speed,
            },
            left,
        ))
    }
}

/// Rows of these left and right sides.
///
/// # Errors
///
/// Out of memory.
fn joined_sides(alloc: Global, lefts: &[u8], rights: &[u8]) -> Result<Table, SongFault>
    requires count { length lefts.now ≤ 255 }
    requires same { length lefts.now ≡ length rights.now }
    ensures { Gives (λ rows. rows) result (Ok (table_rows lefts.now rights.now)) }
{
    let mut rows = Table::new(alloc);
    for (i, left) in lefts.iter().enumerate() {
        let row = TableRow {
            left: *left,
            right: rights[i],
        };
        if let Err(fault) = rows.push(row) {
            return Err(SongFault::of_push(fault));
        }
    }
    Ok(rows)
}
