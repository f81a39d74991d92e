//! The tables of a packed song.

ghost use Rattle.std.specs.Prelude.{◌≡◌, IfOk};
ghost use Rattle.play_model.specs.Playable.{IsPlayable};
ghost use Rattle.usage.specs.Parts.{AreUsedParts};
ghost use Rattle.song_pack.specs.Numbers.{sets_of};
ghost use Rattle.song_pack.specs.Tables.{AreTables};

use crate::numbers::{ForeignNumbers, RowNumbers};
use crate::programs::{packed_programs, packed_speeds, wave_rows};
use base::NoMemory;
use song_model::{Song, Table};
use std::alloc::Global;
use usage::UsedParts;

/// The tables of a packed song, each numbered from 1.
#[derive(Drop)]
pub(crate) struct PackedTables {
    /// The wave table.
    pub wave: Table,
    /// The pulse table.
    pub pulse: Table,
    /// The filter table.
    pub filter: Table,
    /// The speed table.
    pub speed: Table,
    /// The new numbers of all rows.
    pub numbers: RowNumbers,
}

/// The tables of a song with what it uses of them. The wave table comes last, since it points into the others.
///
/// # Errors
///
/// Out of memory.
pub(crate) fn packed_tables(
    alloc: Global,
    song: &Song,
    usage: &UsedParts,
) -> Result<PackedTables, NoMemory>
    requires playable { IsPlayable song.now }
    requires parts { AreUsedParts song.now usage.now }
    ensures { IfOk result (AreTables song.now (sets_of usage.now)) }
{
    let speed = packed_speeds(alloc, song, &usage.speed)?;
    let filter = packed_programs(
        alloc,
        &song.filter,
        &usage.filter,
        &usage.filter_pointers,
        false,
    )?;
    let pulse = packed_programs(
        alloc,
        &song.pulse,
        &usage.pulse,
        &usage.pulse_pointers,
        true,
    )?;
    let (pulses, filters, speeds) = (pulse.to, filter.to, speed.to);
    let others = ForeignNumbers {
        pulse: pulses,
        filter: filters,
        speed: speeds,
    };
    let rows = wave_rows(alloc, &song.wave, &others)?;
    let wave = packed_programs(alloc, &rows, &usage.wave, &usage.wave_pointers, false)?;
    let waves = wave.to;
    Ok(PackedTables {
        wave: wave.rows,
        pulse: pulse.rows,
        filter: filter.rows,
        speed: speed.rows,
        numbers: RowNumbers {
            wave: waves,
            others,
        },
    })
}
