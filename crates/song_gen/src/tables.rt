//! The tables of a generated song: the same for each number.

ghost use Rattle.std.specs.Prelude.{◌≡◌, ◌≤◌, length, IfOk};
ghost use Rattle.song_gen.specs.GeneratedSong.{wave_rows, pulse_rows, filter_rows, speed_rows};

use base::NoMemory;
use song_model::{Bounded, Table, TableRow};
use std::alloc::Global;

/// A row of a table.
fn row(left: u8, right: u8) -> TableRow
    ensures { result ≡ record { left = left; right = right } }
{
    TableRow { left, right }
}

/// A table of these rows.
fn table(alloc: Global, rows: &[TableRow]) -> Result<Table, NoMemory>
    requires { length rows.now ≤ 255 }
    ensures { IfOk result (λ table. table ≡ rows.now) }
{
    let rows = Vec::from_slice(alloc, rows)?;
    Ok(Bounded::from_vec(rows))
}

/// A chord, and a drum that sets attack and decay.
pub(crate) fn wave_table(alloc: Global) -> Result<Table, NoMemory>
    ensures { IfOk result (λ table. table ≡ wave_rows) }
{
    let rows = [
        row(0x21, 0x00),
        row(0x41, 0x00),
        row(0x41, 0x04),
        row(0x41, 0x07),
        row(0xff, 0x02),
        row(0x81, 0xc0),
        row(0x11, 0x80),
        row(0xf5, 0x29),
        row(0xff, 0x00),
    ];
    table(alloc, &rows)
}

/// A pulse width that goes up and down.
pub(crate) fn pulse_table(alloc: Global) -> Result<Table, NoMemory>
    ensures { IfOk result (λ table. table ≡ pulse_rows) }
{
    let rows = [
        row(0x88, 0x00),
        row(0x20, 0x10),
        row(0x20, 0xf0),
        row(0xff, 0x02),
    ];
    table(alloc, &rows)
}

/// A cutoff of the low pass filter that goes up and down.
pub(crate) fn filter_table(alloc: Global) -> Result<Table, NoMemory>
    ensures { IfOk result (λ table. table ≡ filter_rows) }
{
    let rows = [
        row(0x90, 0xf1),
        row(0x00, 0x40),
        row(0x30, 0x02),
        row(0x30, 0xfe),
        row(0xff, 0x03),
    ];
    table(alloc, &rows)
}

/// A slide, a vibrato, and a vibrato whose depth depends on the note.
pub(crate) fn speed_table(alloc: Global) -> Result<Table, NoMemory>
    ensures { IfOk result (λ table. table ≡ speed_rows) }
{
    let rows = [row(0x00, 0x40), row(0x03, 0x20), row(0x83, 0x03)];
    table(alloc, &rows)
}
