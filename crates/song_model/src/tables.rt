//! The wave, pulse, filter and speed table.

ghost use Rattle.std.specs.Prelude.{◌≡◌, ◌<◌, ◌↔◌, ◌⊎◌, length, IfOk, IfErr, IsErrOf};

use crate::{Bounded, LimitFault};
use std::alloc::Global;

/// The most rows of a table.
pub const MOST_TABLE_ROWS: usize = 255;

/// One row of a table, as the GoatTracker 2 readme's format has it.
#[derive(Clone, Copy, Debug, PartialEq, Eq)]
pub struct TableRow {
    /// Its left side: what it does, or for how long.
    pub left: u8,
    /// Its right side: what that is given.
    pub right: u8,
}

/// A table of at most 255 rows, numbered from 1.
pub type Table = Bounded<TableRow, MOST_TABLE_ROWS>;

/// Which table is meant.
#[derive(Clone, Copy, Debug, PartialEq, Eq)]
pub enum TableName {
    /// Waveforms, notes and commands.
    Wave,
    /// Pulse widths.
    Pulse,
    /// The filter's settings and cutoffs.
    Filter,
    /// Speeds of slides, vibratos and funk tempos.
    Speed,
}

impl Table {
    /// A table of these rows.
    ///
    /// # Errors
    ///
    /// `BadLength` where they are more than 255; out of memory.
    pub fn from_rows(alloc: Global, rows: &[TableRow]) -> Result<Table, LimitFault>
        ensures kept { IfOk result (λ table. table ≡ rows.now) }
        ensures bad_length { IsErrOf result LimitFault.BadLength ↔
            MOST_TABLE_ROWS < length rows.now }
        ensures no_other { IfErr result (λ fault. (fault ≡ LimitFault.BadLength) ⊎
            (fault ≡ LimitFault.NoMemory)) }
    {
        Self::from_slice(alloc, rows)
    }
}
