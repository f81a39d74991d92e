//! Where the lists of a packed song stand, counted from the first byte on.

ghost use Rattle.std.specs.Prelude.{◌≡◌, ◌+◌, ◌<◌, ◌≤◌, length, IfOk};
ghost use Rattle.std.specs.List.{concat, flat_map};
ghost use Rattle.player_memory.specs.SongLists.{FrequencyLows, FrequencyHighs};
ghost use Rattle.song_lists.specs.DataLists.{kept_rows, speed_lefts_place, slides_low_place, slides_high_place};
ghost use Rattle.song_lists.specs.DataLists.{periods_place, wave_place, pulse_place, filter_place, instruments_place};
ghost use Rattle.song_lists.specs.DataLists.{field_size, one_timer_place, one_wave_place, gate_from_place};
ghost use Rattle.song_lists.specs.DataLists.{envelope_from_place, addresses_place};
ghost use Rattle.song_lists.specs.DataLists.{orders_place, orders_of, places_from};
ghost use Rattle.song_lists.specs.DataLists.{listed_orders, order_places};
ghost use Rattle.song_lists.specs.DataLists.{pattern_places, frequencies_place, bytes_back, label_place};
ghost use Rattle.song_lists.specs.ListLaws.{lists_size};

use base::{Items, NoMemory};
use packed_form::{PackedOrder, PackedPattern, PackedSong, PackedSubtune};
use player_memory::{bytes_read, gap_size, has_gate_from, is_read, shared_size, unread_size};
use song_model::Table;
use std::alloc::Global;

/// A list of places.
pub(crate) type PlaceList = Items<u16>;

/// How many rows a table has.
pub(crate) fn rows(table: &Table) -> u16
    ensures count { result ≡ length table.now }
    ensures most { result ≤ 255 }
{
    table.as_slice().len() as u16
}

/// How many patterns there are.
pub(crate) fn patterns(packed: &PackedSong) -> u16
    ensures count { result ≡ length packed.now.patterns }
    ensures most { result ≤ 208 }
{
    packed.patterns.as_slice().len() as u16
}

/// How many instruments there are.
pub(crate) fn instruments(packed: &PackedSong) -> u16
    ensures count { result ≡ length packed.now.instruments }
    ensures most { result ≤ 63 }
{
    packed.instruments.as_slice().len() as u16
}

/// How many bytes a list of calculated speeds has: one for each row of the speed table and row 0, or none.
fn kept_rows(packed: &PackedSong, dependent: bool) -> u16
    ensures count { result ≡ kept_rows dependent packed.now }
    ensures most { result ≤ 256 }
{
    if dependent {
        rows(&packed.speed) + 1
    } else {
        0
    }
}

/// Where the label of the speed table's left sides is.
pub(crate) fn speed_lefts_place(packed: &PackedSong) -> u16
    ensures place { result ≡ speed_lefts_place packed.now }
    ensures most { result ≤ 256 }
{
    1 + rows(&packed.speed)
}

/// Where that of the slides' low bytes is.
pub(crate) fn slides_low_place(packed: &PackedSong, dependent: bool) -> u16
    ensures { result ≡ slides_low_place dependent packed.now }
{
    if dependent {
        2 + 2 * rows(&packed.speed)
    } else {
        0
    }
}

/// Where that of the slides' high bytes is.
pub(crate) fn slides_high_place(packed: &PackedSong, dependent: bool) -> u16
    ensures { result ≡ slides_high_place dependent packed.now }
{
    if dependent {
        3 + 3 * rows(&packed.speed)
    } else {
        speed_lefts_place(packed)
    }
}

/// Where that of the periods is.
pub(crate) fn periods_place(packed: &PackedSong, dependent: bool) -> u16
    ensures { result ≡ periods_place dependent packed.now }
{
    if dependent {
        4 + 4 * rows(&packed.speed)
    } else {
        speed_lefts_place(packed)
    }
}

/// Where those of the wave table's left sides are.
pub(crate) fn wave_place(packed: &PackedSong, dependent: bool) -> u16
    ensures place { result ≡ wave_place dependent packed.now }
    ensures most { result ≤ 1279 }
{
    1 + 2 * rows(&packed.speed) + 3 * kept_rows(packed, dependent)
}

/// Where those of the pulse table's are.
pub(crate) fn pulse_place(packed: &PackedSong, dependent: bool) -> u16
    ensures place { result ≡ pulse_place dependent packed.now }
    ensures most { result ≤ 1789 }
{
    wave_place(packed, dependent) + 2 * rows(&packed.wave)
}

/// Where those of the filter table's are.
pub(crate) fn filter_place(packed: &PackedSong, dependent: bool) -> u16
    ensures place { result ≡ filter_place dependent packed.now }
    ensures most { result ≤ 2299 }
{
    pulse_place(packed, dependent) + 2 * rows(&packed.pulse)
}

/// Where the label of the instruments' first bytes is.
pub(crate) fn instruments_place(packed: &PackedSong, dependent: bool) -> u16
    ensures place { result ≡ instruments_place dependent packed.now }
    ensures most { result ≤ 2809 }
{
    filter_place(packed, dependent) + 2 * rows(&packed.filter)
}

/// How many bytes the list of a field of the instruments has: one of each, or none.
pub(crate) fn field_size(packed: &PackedSong, field: u16) -> u16
    requires { field < 9 }
    ensures size { result ≡ field_size packed.now field }
    ensures most { result ≤ 63 }
{
    if is_read(packed, usize::from(field)) {
        instruments(packed)
    } else {
        0
    }
}

/// Where that of the gateoff timer for all instruments is, behind their fields.
pub(crate) fn one_timer_place(packed: &PackedSong, dependent: bool) -> u16
    ensures place { result ≡ one_timer_place dependent packed.now }
    ensures most { result ≤ 3377 }
{
    let fields = 9 * instruments(packed) - unread_size(packed) as u16;
    instruments_place(packed, dependent) + fields + 1
}

/// Where that of their first waveform is.
pub(crate) fn one_wave_place(packed: &PackedSong, dependent: bool) -> u16
    ensures place { result ≡ one_wave_place dependent packed.now }
    ensures most { result ≤ 3378 }
{
    one_timer_place(packed, dependent) + u16::from(!packed.facts.own_timer)
}

/// Where that of the number is from which on they hold the gate.
pub(crate) fn gate_from_place(packed: &PackedSong, dependent: bool) -> u16
    ensures place { result ≡ gate_from_place dependent packed.now }
    ensures most { result ≤ 3379 }
{
    one_wave_place(packed, dependent) + u16::from(!packed.facts.own_wave)
}

/// Where that of the number is from which on they hold the envelope.
pub(crate) fn envelope_from_place(packed: &PackedSong, dependent: bool) -> u16
    ensures { result ≡ envelope_from_place dependent packed.now }
{
    gate_from_place(packed, dependent) + u16::from(has_gate_from(packed))
}

/// Where the addresses begin.
pub(crate) fn addresses_place(packed: &PackedSong, dependent: bool) -> u16
    ensures place { result ≡ addresses_place dependent packed.now }
    ensures most { result ≤ 3381 }
{
    one_timer_place(packed, dependent) + shared_size(packed) as u16
}

/// How many addresses of orderlists stand in lists: none where there is one subtune alone.
pub(crate) fn listed_orders(packed: &PackedSong) -> u16
    ensures count { result ≡ listed_orders packed.now }
    ensures most { result ≤ 96 }
{
    if packed.facts.subtunes {
        3 * packed.subtunes.as_slice().len() as u16
    } else {
        0
    }
}

/// Where the orderlists begin.
fn orders_place(packed: &PackedSong, dependent: bool) -> u16
    ensures place { result ≡ orders_place dependent packed.now }
    ensures most { result ≤ 3989 }
{
    addresses_place(packed, dependent) + 2 * listed_orders(packed) + 2 * patterns(packed)
}

/// Where the frequencies begin.
fn frequencies_place(packed: &PackedSong, dependent: bool) -> u16
    requires { lists_size dependent packed.now ≤ 65535 }
    ensures { result ≡ frequencies_place dependent packed.now }
{
    2 + bytes_read(packed) as u16 + 3 * kept_rows(packed, dependent) + gap_size(packed) as u16
}

/// How many bytes in front of them the label of the first list is.
fn bytes_back(packed: &PackedSong) -> u16
    ensures { result ≡ bytes_back packed.now }
{
    let listed = packed.numbers;
    if listed.first == 0 && listed.count == 0 {
        1
    } else {
        u16::from(listed.first)
    }
}

/// Where the label of the frequencies' low bytes is.
pub(crate) fn lows_place(packed: &PackedSong, dependent: bool) -> u16
    requires { lists_size dependent packed.now ≤ 65535 }
    ensures place { result ≡ label_place dependent packed.now FrequencyLows }
    ensures most { result < 65535 }
{
    frequencies_place(packed, dependent) - bytes_back(packed)
}

/// Where that of their high bytes is.
pub(crate) fn highs_place(packed: &PackedSong, dependent: bool) -> u16
    requires { lists_size dependent packed.now ≤ 65535 }
    ensures place { result ≡ label_place dependent packed.now FrequencyHighs }
    ensures most { result < 65535 }
{
    frequencies_place(packed, dependent) + u16::from(packed.numbers.count) - bytes_back(packed)
}

/// How many bytes an orderlist has.
fn order_length(order: &PackedOrder) -> u16
    ensures { result ≡ length order.now }
{
    order.as_slice().len() as u16
}

/// How many bytes a pattern has.
fn pattern_length(pattern: &PackedPattern) -> u16
    ensures { result ≡ length pattern.now }
{
    pattern.as_slice().len() as u16
}

/// The places of orderlists, the first of which stands at `from`, and the place behind the last one.
fn places_of_orders(
    alloc: Global,
    subtunes: &[PackedSubtune],
    from: u16,
) -> Result<(PlaceList, u16), NoMemory>
    requires { from + length (concat (flat_map orders_of subtunes.now)) ≤ 65535 }
    ensures places { IfOk result (λ found. found.0 ≡ places_from from (flat_map orders_of subtunes.now)) }
    ensures end { IfOk result (λ found. found.1
        ≡ from + length (concat (flat_map orders_of subtunes.now))) }
{
    let mut places = PlaceList::new(alloc);
    let mut place = from;
    for subtune in subtunes {
        let second = place + order_length(&subtune.one);
        let third = second + order_length(&subtune.two);
        places.extend(&[place, second, third])?;
        place = third + order_length(&subtune.three);
    }
    Ok((places, place))
}

/// The places of patterns, the first of which stands at `from`.
fn places_of_patterns(
    alloc: Global,
    patterns: &[PackedPattern],
    from: u16,
) -> Result<PlaceList, NoMemory>
    requires { from + length (concat patterns.now) ≤ 65535 }
    ensures { IfOk result (λ places. places ≡ places_from from patterns.now) }
{
    let mut places = PlaceList::new(alloc);
    let mut place = from;
    for pattern in patterns {
        places.push(place)?;
        place += pattern_length(pattern);
    }
    Ok(places)
}

/// The places of the orderlists and of the patterns of a packed song.
pub(crate) fn text_places(
    alloc: Global,
    packed: &PackedSong,
    dependent: bool,
) -> Result<(PlaceList, PlaceList), NoMemory>
    requires { lists_size dependent packed.now ≤ 65535 }
    ensures orders { IfOk result (λ places. places.0 ≡ order_places dependent packed.now) }
    ensures patterns { IfOk result (λ places. places.1 ≡ pattern_places dependent packed.now) }
    ensures few { IfOk result (λ places. (length places.0 ≤ 96) × (length places.1 ≤ 208)) }
{
    let from = orders_place(packed, dependent);
    let (orders, end) = places_of_orders(alloc, packed.subtunes.as_slice(), from)?;
    let patterns = places_of_patterns(alloc, packed.patterns.as_slice(), end)?;
    Ok((orders, patterns))
}
