//! The bytes of the lists.

ghost use Rattle.std.specs.Prelude.{◌≡◌, ◌<◌, ◌≤◌, ◌+◌, ◌∷◌, ◌++◌, map, true, All, IfOk, OnOk, if◌then◌else◌, []};
ghost use Rattle.std.specs.List.{concat, flat_map};
ghost use Rattle.song_model.specs.LookUp.{instrument_at};
ghost use Rattle.packed_form.specs.Unpacked.{unpacked_instrument, unpacked_song};
ghost use Rattle.player_memory.specs.Forms.{stored_left, stored_right};
ghost use Rattle.player_memory.specs.SongLists.{instrument_byte};
ghost use Rattle.song_lists.specs.DataLists.{gap_bytes, frequency_lows, frequency_highs, lefts, rights, stored_rows};
ghost use Rattle.song_lists.specs.DataLists.{periods};
ghost use Rattle.song_lists.specs.DataLists.{kept_list, lows, highs, orders_of, instrument_bytes};
ghost use Rattle.song_lists.specs.DataLists.{one_timer_bytes, one_wave_bytes, gate_from_bytes, envelope_from_bytes};
ghost use Rattle.song_lists.specs.DataLists.{speed_lists, kept_lists, table_lists, instrument_lists, shared_lists};
ghost use Rattle.song_lists.specs.DataLists.{order_places, pattern_places, frequency_lists, data_bytes};

use base::{ByteList, NoMemory};
use packed_form::{PackedInstrument, PackedPattern, PackedSong, PackedSubtune};
use play_model::freq;
use player_memory::{
    DELAY_BYTE, FIRST_WAVE_BYTE, TIMER_BYTE, gap_size, has_envelope_from, has_gate_from, is_read,
};
use song_facts::Hold;
use song_model::TableRow;
use std::alloc::Global;

/// The zeros in front of the frequencies, appended.
fn push_gap(bytes: &mut ByteList, packed: &PackedSong) -> Result<(), NoMemory>
    ensures { OnOk result (bytes.new ≡ bytes.old ++ gap_bytes packed.now) }
{
    for _zero in 0..gap_size(packed) {
        bytes.push(0)?;
    }
    Ok(())
}

/// The low bytes of the frequencies that the song asks for.
fn push_frequency_lows(bytes: &mut ByteList, packed: &PackedSong) -> Result<(), NoMemory>
    ensures { OnOk result (bytes.new ≡ bytes.old ++ frequency_lows packed.now) }
{
    let listed = packed.numbers;
    for n in listed.first..listed.first + listed.count {
        bytes.push((freq(n) % 256) as u8)?;
    }
    Ok(())
}

/// Their high bytes.
fn push_frequency_highs(bytes: &mut ByteList, packed: &PackedSong) -> Result<(), NoMemory>
    ensures { OnOk result (bytes.new ≡ bytes.old ++ frequency_highs packed.now) }
{
    let listed = packed.numbers;
    for n in listed.first..listed.first + listed.count {
        bytes.push((freq(n) / 256) as u8)?;
    }
    Ok(())
}

/// The left sides of a table's rows.
fn push_lefts(bytes: &mut ByteList, rows: &[TableRow]) -> Result<(), NoMemory>
    ensures { OnOk result (bytes.new ≡ bytes.old ++ lefts rows.now) }
{
    for row in rows {
        bytes.push(row.left)?;
    }
    Ok(())
}

/// The right sides.
fn push_rights(bytes: &mut ByteList, rows: &[TableRow]) -> Result<(), NoMemory>
    ensures { OnOk result (bytes.new ≡ bytes.old ++ rights rows.now) }
{
    for row in rows {
        bytes.push(row.right)?;
    }
    Ok(())
}

/// A left side of the wave table in the form in which it is stored.
fn stored_left(left: u8) -> u8
    ensures { result ≡ stored_left left }
{
    if left < 0x10 {
        left + 0xE0
    } else if (0xE0..=0xEF).contains(&left) {
        left - 0xE0
    } else {
        left
    }
}

/// The right side of a row of the wave table in this form.
fn stored_right(row: TableRow) -> u8
    ensures { result ≡ stored_right row }
{
    if row.left >= 0xF0 {
        row.right
    } else if row.right < 0x80 {
        row.right + 0x80
    } else {
        row.right - 0x80
    }
}

/// The left sides of the wave table's rows.
fn push_stored_lefts(bytes: &mut ByteList, rows: &[TableRow]) -> Result<(), NoMemory>
    ensures { OnOk result (bytes.new ≡ bytes.old ++ lefts (stored_rows rows.now)) }
{
    for row in rows {
        bytes.push(stored_left(row.left))?;
    }
    Ok(())
}

/// The right sides.
fn push_stored_rights(bytes: &mut ByteList, rows: &[TableRow]) -> Result<(), NoMemory>
    ensures { OnOk result (bytes.new ≡ bytes.old ++ rights (stored_rows rows.now)) }
{
    for row in rows {
        bytes.push(stored_right(*row))?;
    }
    Ok(())
}

/// The periods of the speed table's rows.
fn push_periods(bytes: &mut ByteList, rows: &[TableRow]) -> Result<(), NoMemory>
    ensures { OnOk result (bytes.new ≡ bytes.old ++ periods rows.now) }
{
    for row in rows {
        bytes.push(row.left % 128)?;
    }
    Ok(())
}

/// The sides of the speed table, each with a byte for row 0.
fn push_speed_lists(bytes: &mut ByteList, packed: &PackedSong) -> Result<(), NoMemory>
    ensures { OnOk result (bytes.new ≡ bytes.old ++ concat (speed_lists packed.now)) }
{
    bytes.push(0)?;
    push_rights(bytes, packed.speed.as_slice())?;
    bytes.push(0)?;
    push_lefts(bytes, packed.speed.as_slice())
}

/// The slides as they begin, and the periods, each with a byte for row 0.
fn push_calculated_lists(bytes: &mut ByteList, packed: &PackedSong) -> Result<(), NoMemory>
    ensures { OnOk result (bytes.new ≡ bytes.old ++ concat (kept_lists true packed.now)) }
{
    push_speed_lists(bytes, packed)?;
    bytes.push(0)?;
    push_periods(bytes, packed.speed.as_slice())
}

/// These lists, where calculated speeds are kept.
fn push_kept_lists(
    bytes: &mut ByteList,
    packed: &PackedSong,
    dependent: bool,
) -> Result<(), NoMemory>
    ensures { OnOk result (bytes.new ≡ bytes.old ++ concat (kept_lists dependent packed.now)) }
{
    if dependent {
        push_calculated_lists(bytes, packed)
    } else {
        Ok(())
    }
}

/// The sides of the other tables.
fn push_table_lists(bytes: &mut ByteList, packed: &PackedSong) -> Result<(), NoMemory>
    ensures { OnOk result (bytes.new ≡ bytes.old ++ concat (table_lists packed.now)) }
{
    push_stored_lefts(bytes, packed.wave.as_slice())?;
    push_stored_rights(bytes, packed.wave.as_slice())?;
    push_lefts(bytes, packed.pulse.as_slice())?;
    push_rights(bytes, packed.pulse.as_slice())?;
    push_lefts(bytes, packed.filter.as_slice())?;
    push_rights(bytes, packed.filter.as_slice())
}

/// The byte with this number of an instrument, as the player reads it: the vibrato's delay is less one, 255 for none.
fn field_byte(instrument: &PackedInstrument, field: usize) -> u8
    requires { field < 9 }
    ensures { result ≡ instrument_byte field (unpacked_instrument instrument.now) }
{
    let byte = instrument.bytes[field];
    if field == DELAY_BYTE {
        byte.wrapping_sub(1)
    } else {
        byte
    }
}

/// This byte of each instrument.
fn push_field(
    bytes: &mut ByteList,
    instruments: &[PackedInstrument],
    field: usize,
) -> Result<(), NoMemory>
    requires { field < 9 }
    ensures { OnOk result (bytes.new ≡ bytes.old
        ++ map (λ instrument. instrument_byte field (unpacked_instrument instrument)) instruments.now) }
{
    for instrument in instruments {
        bytes.push(field_byte(instrument, field))?;
    }
    Ok(())
}

/// The same, where it is read.
fn push_read_field(bytes: &mut ByteList, packed: &PackedSong, field: usize) -> Result<(), NoMemory>
    requires { field < 9 }
    ensures { OnOk result (bytes.new ≡ bytes.old ++ instrument_bytes packed.now field) }
{
    if is_read(packed, field) {
        push_field(bytes, packed.instruments.as_slice(), field)
    } else {
        Ok(())
    }
}

/// The lists over the instruments.
fn push_instrument_lists(bytes: &mut ByteList, packed: &PackedSong) -> Result<(), NoMemory>
    ensures { OnOk result (bytes.new ≡ bytes.old ++ concat (instrument_lists packed.now)) }
{
    for field in 0..9 {
        push_read_field(bytes, packed, field)?;
    }
    Ok(())
}

/// The first instrument, or one of zeros where there is none.
fn first_instrument(packed: &PackedSong) -> PackedInstrument
    ensures { unpacked_instrument result ≡ instrument_at (unpacked_song packed.now) 1 }
{
    match packed.instruments.as_slice().first() {
        Some(instrument) => *instrument,
        None => PackedInstrument { bytes: [0; 9] },
    }
}

/// The gateoff timer that stands for all instruments, where no two that the song uses differ in it.
fn push_one_timer(bytes: &mut ByteList, packed: &PackedSong) -> Result<(), NoMemory>
    ensures { OnOk result (bytes.new ≡ bytes.old ++ one_timer_bytes packed.now) }
{
    if packed.facts.own_timer {
        Ok(())
    } else {
        bytes.push(first_instrument(packed).bytes[TIMER_BYTE] % 64)
    }
}

/// The first waveform that stands for all of them, where no two differ in that.
fn push_one_wave(bytes: &mut ByteList, packed: &PackedSong) -> Result<(), NoMemory>
    ensures { OnOk result (bytes.new ≡ bytes.old ++ one_wave_bytes packed.now) }
{
    if packed.facts.own_wave {
        Ok(())
    } else {
        bytes.push(first_instrument(packed).bytes[FIRST_WAVE_BYTE])
    }
}

/// The number of the first instrument that holds its gate before a note, where it is told by that.
fn push_gate_from(bytes: &mut ByteList, packed: &PackedSong) -> Result<(), NoMemory>
    ensures { OnOk result (bytes.new ≡ bytes.old ++ gate_from_bytes packed.now) }
{
    if has_gate_from(packed) {
        bytes.push(packed.first_holder(Hold::Gate))
    } else {
        Ok(())
    }
}

/// The number of the first that holds its envelope, or its gate as well, where it is told by that.
fn push_envelope_from(bytes: &mut ByteList, packed: &PackedSong) -> Result<(), NoMemory>
    ensures { OnOk result (bytes.new ≡ bytes.old ++ envelope_from_bytes packed.now) }
{
    if has_envelope_from(packed) {
        bytes.push(packed.first_holder(Hold::Envelope))
    } else {
        Ok(())
    }
}

/// What stands alone for all instruments.
fn push_shared_lists(bytes: &mut ByteList, packed: &PackedSong) -> Result<(), NoMemory>
    ensures { OnOk result (bytes.new ≡ bytes.old ++ concat (shared_lists packed.now)) }
{
    push_one_timer(bytes, packed)?;
    push_one_wave(bytes, packed)?;
    push_gate_from(bytes, packed)?;
    push_envelope_from(bytes, packed)
}

/// The low bytes of the addresses of places, each less so many bytes.
fn push_lows(bytes: &mut ByteList, start: u16, back: u16, places: &[u16]) -> Result<(), NoMemory>
    requires from { All (λ place. back ≤ place) places.now }
    requires to { All (λ place. start + place ≤ 65535) places.now }
    ensures { OnOk result (bytes.new ≡ bytes.old ++ lows start back places.now) }
{
    for place in places {
        bytes.push(((start + *place - back) % 256) as u8)?;
    }
    Ok(())
}

/// The high bytes.
fn push_highs(bytes: &mut ByteList, start: u16, back: u16, places: &[u16]) -> Result<(), NoMemory>
    requires from { All (λ place. back ≤ place) places.now }
    requires to { All (λ place. start + place ≤ 65535) places.now }
    ensures { OnOk result (bytes.new ≡ bytes.old ++ highs start back places.now) }
{
    for place in places {
        bytes.push(((start + *place - back) / 256) as u8)?;
    }
    Ok(())
}

/// The orderlists, three of each subtune.
fn push_orders(bytes: &mut ByteList, subtunes: &[PackedSubtune]) -> Result<(), NoMemory>
    ensures { OnOk result (bytes.new
        ≡ bytes.old ++ concat (flat_map orders_of subtunes.now)) }
{
    for subtune in subtunes {
        bytes.extend(subtune.one.as_slice())?;
        bytes.extend(subtune.two.as_slice())?;
        bytes.extend(subtune.three.as_slice())?;
    }
    Ok(())
}

/// The patterns.
fn push_patterns(bytes: &mut ByteList, patterns: &[PackedPattern]) -> Result<(), NoMemory>
    ensures { OnOk result (bytes.new ≡ bytes.old ++ concat patterns.now) }
{
    for pattern in patterns {
        bytes.extend(pattern.as_slice())?;
    }
    Ok(())
}

/// The frequencies, behind their gap.
fn push_frequency_lists(bytes: &mut ByteList, packed: &PackedSong) -> Result<(), NoMemory>
    ensures { OnOk result (bytes.new ≡ bytes.old ++ concat (frequency_lists packed.now)) }
{
    push_gap(bytes, packed)?;
    push_frequency_lows(bytes, packed)?;
    push_frequency_highs(bytes, packed)
}

/// The addresses of the orderlists and the places before the patterns, which stand at these places.
fn push_address_lists(
    bytes: &mut ByteList,
    start: u16,
    orders: &[u16],
    patterns: &[u16],
) -> Result<(), NoMemory>
    requires orders { All (λ place. 0 ≤ place) orders.now }
    requires patterns { All (λ place. 1 ≤ place) patterns.now }
    requires order_addresses { All (λ place. start + place ≤ 65535) orders.now }
    requires pattern_addresses { All (λ place. start + place ≤ 65535) patterns.now }
    ensures { OnOk result (bytes.new ≡ bytes.old ++ (lows start 0 orders.now
        ++ (highs start 0 orders.now ++ (lows start 1 patterns.now ++ highs start 1 patterns.now)))) }
{
    push_lows(bytes, start, 0, orders)?;
    push_highs(bytes, start, 0, orders)?;
    push_lows(bytes, start, 1, patterns)?;
    push_highs(bytes, start, 1, patterns)
}

/// The places of the orderlists whose addresses stand in lists, of all: none where there is one subtune alone.
fn listed<'a>(packed: &PackedSong, orders: &'a [u16]) -> &'a [u16]
    ensures { result.now ≡ (if packed.now.facts.subtunes then orders.now else []) }
{
    if packed.facts.subtunes { orders } else { &[] }
}

/// The bytes of a packed song's lists, the first of which is to stand at `start`.
pub(crate) fn data_bytes(
    alloc: Global,
    packed: &PackedSong,
    start: u16,
    dependent: bool,
    places: (&[u16], &[u16]),
) -> Result<ByteList, NoMemory>
    requires orders { places.0.now ≡ order_places dependent packed.now }
    requires patterns { places.1.now ≡ pattern_places dependent packed.now }
    requires order_places { All (λ place. 0 ≤ place) places.0.now }
    requires pattern_places { All (λ place. 1 ≤ place) places.1.now }
    requires order_addresses { All (λ place. start + place ≤ 65535) places.0.now }
    requires pattern_addresses { All (λ place. start + place ≤ 65535) places.1.now }
    ensures { IfOk result (λ bytes. bytes ≡ data_bytes dependent packed.now start) }
{
    let mut bytes = ByteList::new(alloc);
    push_speed_lists(&mut bytes, packed)?;
    push_kept_lists(&mut bytes, packed, dependent)?;
    push_table_lists(&mut bytes, packed)?;
    push_instrument_lists(&mut bytes, packed)?;
    push_shared_lists(&mut bytes, packed)?;
    push_address_lists(&mut bytes, start, listed(packed, places.0), places.1)?;
    push_orders(&mut bytes, packed.subtunes.as_slice())?;
    push_patterns(&mut bytes, packed.patterns.as_slice())?;
    push_frequency_lists(&mut bytes, packed)?;
    Ok(bytes)
}
