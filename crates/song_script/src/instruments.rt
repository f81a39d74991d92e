//! Instruments.

ghost use Rattle.std.specs.Prelude.{◌≡◌, ◌≤◌, ◌∷◌, ◌++◌, [], length, OnOk};
ghost use Rattle.song_script.specs.Statements.{Comment, text_of, each_from};
ghost use Rattle.song_script.specs.Parts.{field_said, name_said, name_words, instrument_words, instrument_said};

use crate::digits::put_digits;
use crate::lines::{put_line, put_text_line};
use crate::words::{is_zero_text, put_readable_text};
use base::{ByteList, NoMemory};
use song_model::{Instrument, InstrumentList};

/// Adds a field of an instrument, unless it is zero.
///
/// # Errors
///
/// Out of memory.
fn put_field(out: &mut ByteList, number: u8, field: u8, value: u8) -> Result<(), NoMemory>
    ensures { OnOk result (out.new ≡ out.old ++ text_of (field_said number field value)) }
{
    if value == 0 {
        return Ok(());
    }
    put_line(out, b"instrument", &[number, field, value])
}

/// Adds the fields of an instrument that have these values.
///
/// # Errors
///
/// Out of memory.
fn put_fields(out: &mut ByteList, number: u8, values: &[u8]) -> Result<(), NoMemory>
    requires { length values.now ≤ 9 }
    ensures { OnOk result (out.new ≡ out.old ++ text_of (each_from 0 (field_said number) values.now)) }
{
    for (field, value) in values.iter().enumerate() {
        put_field(out, number, field as u8, *value)?;
    }
    Ok(())
}

/// Adds the name of an instrument, unless it is zero.
///
/// # Errors
///
/// Out of memory.
fn put_name(out: &mut ByteList, number: u8, name: &[u8; 16]) -> Result<(), NoMemory>
    ensures { OnOk result (out.new ≡ out.old ++ text_of (name_said number name.now)) }
{
    if is_zero_text(name) {
        return Ok(());
    }
    put_text_line(out, b"instrument-name", number, name)
}

/// Adds the words of an instrument's name behind a blank, unless it is zero.
///
/// # Errors
///
/// Out of memory.
#[tactic(auto, unfolding(crate::specs::Parts::name_words))]
fn put_name_words(out: &mut ByteList, name: &[u8; 16]) -> Result<(), NoMemory>
    ensures { OnOk result (out.new ≡ out.old ++ name_words name.now) }
{
    if is_zero_text(name) {
        return Ok(());
    }
    out.push(b' ')?;
    put_readable_text(out, name)
}

/// Adds the line over an instrument.
///
/// # Errors
///
/// Out of memory.
fn put_title(out: &mut ByteList, number: u8, name: &[u8; 16]) -> Result<(), NoMemory>
    ensures { OnOk result (out.new ≡
        out.old ++ text_of (Comment (instrument_words number name.now) ∷ [])) }
{
    out.extend(b"# instrument ")?;
    put_digits(out, number)?;
    put_name_words(out, name)?;
    out.push(b'\n')
}

/// Adds an instrument.
///
/// # Errors
///
/// Out of memory.
fn put_instrument(out: &mut ByteList, number: u8, instrument: &Instrument) -> Result<(), NoMemory>
    ensures { OnOk result (out.new ≡ out.old ++ text_of (instrument_said number instrument.now)) }
{
    let i = instrument;
    let values = [
        i.ad,
        i.sr,
        i.wave,
        i.pulse,
        i.filter,
        i.vibrato,
        i.vibrato_delay,
        i.gate_timer,
        i.first_wave,
    ];
    put_title(out, number, &i.name)?;
    put_fields(out, number, &values)?;
    put_name(out, number, &i.name)
}

/// Adds all instruments.
///
/// # Errors
///
/// Out of memory.
pub(crate) fn put_instruments(
    out: &mut ByteList,
    instruments: &InstrumentList,
) -> Result<(), NoMemory>
    ensures { OnOk result (out.new ≡ out.old ++ text_of (each_from 1 instrument_said instruments.now)) }
{
    let instruments = instruments.as_slice();
    for (place, instrument) in instruments.iter().enumerate() {
        put_instrument(out, place as u8 + 1, instrument)?;
    }
    Ok(())
}
