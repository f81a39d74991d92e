//! The instruments of a packed song.

ghost use Rattle.std.specs.Prelude.{◌≡◌, ◌≤◌, IfOk, length, map};
ghost use Rattle.song_model.specs.LookUp.{instrument_at};
ghost use Rattle.song_pack.specs.Numbers.{row_of};
ghost use Rattle.song_pack.specs.Packed.{packed_instrument};

use crate::numbers::RowNumbers;
use base::NoMemory;
use packed_form::{PackedInstrument, PackedInstrumentList};
use song_model::{Bounded, Instrument, Song, TableName};
use std::alloc::Global;

/// The instruments of a song with these numbers, in their order.
///
/// # Errors
///
/// Out of memory.
pub(crate) fn packed_instruments(
    alloc: Global,
    song: &Song,
    order: &[u8],
    numbers: &RowNumbers,
) -> Result<PackedInstrumentList, NoMemory>
    requires few { length order.now ≤ 63 }
    ensures { IfOk result (λ list. list ≡
        map (λ n. packed_instrument (row_of numbers.now) (instrument_at song.now n)) order.now) }
{
    let mut list = Vec::new(alloc);
    for n in order {
        list.push(packed_instrument(song.instrument(*n), numbers))?;
    }
    Ok(Bounded::from_vec(list))
}

/// The nine bytes of an instrument, with its pointers under new numbers.
fn packed_instrument(instrument: Instrument, numbers: &RowNumbers) -> PackedInstrument
    ensures { result ≡ packed_instrument (row_of numbers.now) instrument }
{
    PackedInstrument {
        bytes: [
            instrument.ad,
            instrument.sr,
            numbers.of(TableName::Wave, instrument.wave),
            numbers.of(TableName::Pulse, instrument.pulse),
            numbers.of(TableName::Filter, instrument.filter),
            numbers.of(TableName::Speed, instrument.vibrato),
            instrument.vibrato_delay,
            instrument.gate_timer,
            instrument.first_wave,
        ],
    }
}
