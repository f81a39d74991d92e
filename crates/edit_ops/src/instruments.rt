//! Edits of instruments.

ghost use Rattle.std.specs.Prelude.{◌≡◌, true, false, ◌-◌, ◌≤◌, length, slice_set, Some, IfOk};
ghost use Rattle.song_model.specs.LookUp.{zero_instrument, instrument_at};
ghost use Rattle.edit_ops.specs.Instruments.{is_no_instrument, lacks_instrument, is_no_field, with_field, stored_up_to};
ghost use Rattle.edit_ops.specs.Instruments.{with_instrument};
ghost use Rattle.edit_ops.specs.Back.{back};
ghost use Rattle.edit_ops.specs.Does.{Does};

use crate::Inverse;
use song_model::{Instrument, InstrumentList, MOST_INSTRUMENTS, NoMemory, Song};
use std::alloc::Global;
use std::mem;

/// What is stored below an instrument that is edited, where nothing was.
const ZERO: Instrument = Instrument {
    ad: 0,
    sr: 0,
    wave: 0,
    pulse: 0,
    filter: 0,
    vibrato: 0,
    vibrato_delay: 0,
    gate_timer: 0,
    first_wave: 0,
    name: [0; 16],
};

/// Whether no song can have an instrument with this number.
pub(crate) fn is_no_instrument(instrument: u8) -> bool
    ensures { result ≡ is_no_instrument instrument }
{
    instrument == 0 || usize::from(instrument) > MOST_INSTRUMENTS
}

/// Whether an instrument has no such byte before its name.
pub(crate) fn is_no_field(field: u8) -> bool
    ensures { result ≡ is_no_field field }
{
    field > 8
}

/// The instrument with this value in one of its nine bytes, counted from 0.
fn with_field(field: u8, value: u8, instrument: Instrument) -> Instrument
    ensures { result ≡ with_field field value instrument }
{
    let mut changed = instrument;
    match field {
        0 => changed.ad = value,
        1 => changed.sr = value,
        2 => changed.wave = value,
        3 => changed.pulse = value,
        4 => changed.filter = value,
        5 => changed.vibrato = value,
        6 => changed.vibrato_delay = value,
        7 => changed.gate_timer = value,
        _ => changed.first_wave = value,
    }
    changed
}

/// The instruments, and zero ones up to number `n`.
///
/// # Errors
///
/// Out of memory.
fn stored_up_to(
    alloc: Global,
    instruments: &[Instrument],
    n: usize,
) -> Result<Vec<Instrument>, NoMemory>
    ensures { IfOk result (λ list. list.items ≡ stored_up_to n instruments.now) }
{
    let mut list = Vec::from_slice(alloc, instruments)?;
    if list.len() < n {
        list.resize(n, ZERO)?;
    }
    Ok(list)
}

/// Puts an instrument in place of a stored one, counted from 1, and answers the way back. It takes no memory.
pub(crate) fn exchange_instrument(song: &mut Song, number: u8, instrument: Instrument) -> Inverse
    requires { lacks_instrument song.old number ≡ false }
    ensures after { song.new ≡ record song.old {
      instruments = slice_set song.old.instruments (number - 1) instrument;
    } }
    ensures back { back song.new result ≡ Some song.old }
{
    Inverse::OneInstrument {
        number,
        instrument: song
            .instruments
            .exchange(usize::from(number) - 1, instrument),
    }
}

/// Puts an instrument under its number, after zero ones where fewer are stored.
///
/// # Errors
///
/// Out of memory. The song is as before.
#[tactic(auto, unfolding(crate::specs::Back::back))]
fn add_instrument(
    alloc: Global,
    song: &mut Song,
    n: u8,
    instrument: Instrument,
) -> Result<Inverse, NoMemory>
    requires { is_no_instrument n ≡ false }
    ensures { Does result song.old song.new (with_instrument song.old n instrument) }
{
    let n = usize::from(n);
    let mut list = stored_up_to(alloc, song.instruments.as_slice(), n)?;
    list[n - 1] = instrument;
    let instruments = InstrumentList::from_vec(list);
    Ok(Inverse::Instruments(mem::replace(&mut song.instruments, instruments)))
}

/// Puts an instrument under its number.
///
/// # Errors
///
/// Out of memory. The song is as before.
fn put_instrument(
    alloc: Global,
    song: &mut Song,
    n: u8,
    instrument: Instrument,
) -> Result<Inverse, NoMemory>
    requires { is_no_instrument n ≡ false }
    ensures { Does result song.old song.new (with_instrument song.old n instrument) }
{
    if usize::from(n) > song.instruments.as_slice().len() {
        return add_instrument(alloc, song, n, instrument);
    }
    Ok(exchange_instrument(song, n, instrument))
}

/// Sets a byte of an instrument.
///
/// # Errors
///
/// Out of memory. The song is as before.
pub(crate) fn set_instrument(
    alloc: Global,
    song: &mut Song,
    n: u8,
    field: u8,
    value: u8,
) -> Result<Inverse, NoMemory>
    requires place { is_no_instrument n ≡ false }
    requires value { is_no_field field ≡ false }
    ensures { Does result song.old song.new
        (with_instrument song.old n (with_field field value (instrument_at song.old n))) }
{
    let instrument = with_field(field, value, song.instrument(n));
    put_instrument(alloc, song, n, instrument)
}

/// Sets the name of an instrument.
///
/// # Errors
///
/// Out of memory. The song is as before.
pub(crate) fn set_instrument_name(
    alloc: Global,
    song: &mut Song,
    n: u8,
    name: [u8; 16],
) -> Result<Inverse, NoMemory>
    requires { is_no_instrument n ≡ false }
    ensures { Does result song.old song.new
        (with_instrument song.old n (record (instrument_at song.old n) { name = name })) }
{
    let instrument = Instrument {
        name,
        ..song.instrument(n)
    };
    put_instrument(alloc, song, n, instrument)
}
