//! The labels of the lists.

ghost use Rattle.std.specs.Prelude.{◌≡◌, ◌≤◌, ◌+◌, [], ◌∷◌, ◌++◌, length, IfOk, OnOk};
ghost use Rattle.player_memory.specs.declared.labels.TheConstants.{ORDERS, PATTERNS};
ghost use Rattle.song_lists.specs.Marks.{mark_at};
ghost use Rattle.song_lists.specs.DataLists.{frequency_marks, speed_marks, wave_marks, pulse_marks, filter_marks};
ghost use Rattle.song_lists.specs.DataLists.{instrument_marks, address_marks, shared_marks, slide_marks, holder_marks};
ghost use Rattle.song_lists.specs.DataLists.{list_marks, marks_from, data_marks, order_places, pattern_places};
ghost use Rattle.song_lists.specs.ListLaws.{lists_size};

use crate::marks::{Mark, MarkList};
use crate::places::{
    addresses_place, envelope_from_place, field_size, filter_place, gate_from_place, highs_place,
    instruments_place, listed_orders, lows_place, one_timer_place, one_wave_place, patterns,
    periods_place, pulse_place, rows, slides_high_place, slides_low_place, speed_lefts_place,
    wave_place,
};
use base::NoMemory;
use packed_form::PackedSong;
use player_memory::labels::{
    ADS, ENVELOPE_FROM, FILTER_LEFTS, FILTER_RIGHTS, FREQUENCY_HIGHS, FREQUENCY_LOWS, GATE_FROM,
    NEXT_FILTER_LEFTS, NEXT_FREQUENCY_HIGHS, NEXT_FREQUENCY_LOWS, NEXT_PULSE_LEFTS,
    NEXT_WAVE_LEFTS, NEXT_WAVE_RIGHTS, ONE_TIMER, ONE_WAVE, ORDERS, ORDERS_HIGH, ORDERS_LOW,
    PATTERNS, PATTERNS_HIGH, PATTERNS_LOW, PERIODS, PULSE_LEFTS, PULSE_RIGHTS, SLIDES_HIGH,
    SLIDES_LOW, SPEED_LEFTS, SPEED_RIGHTS, WAVE_LEFTS, WAVE_RIGHTS,
};
use std::alloc::Global;

/// A label in front of the byte with this place.
fn mark_at(label: u16, place: u16) -> Mark
    ensures { result ≡ mark_at label place }
{
    Mark { label, place }
}

/// The labels of the frequencies, appended.
fn push_frequency_marks(
    marks: &mut MarkList,
    packed: &PackedSong,
    dependent: bool,
) -> Result<(), NoMemory>
    requires { lists_size dependent packed.now ≤ 65535 }
    ensures { OnOk result (marks.new ≡ marks.old ++ frequency_marks dependent packed.now) }
{
    let lows = lows_place(packed, dependent);
    let highs = highs_place(packed, dependent);
    marks.extend(&[
        mark_at(FREQUENCY_LOWS, lows),
        mark_at(NEXT_FREQUENCY_LOWS, lows + 1),
        mark_at(FREQUENCY_HIGHS, highs),
        mark_at(NEXT_FREQUENCY_HIGHS, highs + 1),
    ])
}

/// The labels of the speed table's sides and periods.
fn push_speed_marks(
    marks: &mut MarkList,
    packed: &PackedSong,
    dependent: bool,
) -> Result<(), NoMemory>
    ensures { OnOk result (marks.new ≡ marks.old ++ speed_marks dependent packed.now) }
{
    marks.extend(&[
        mark_at(SPEED_RIGHTS, 0),
        mark_at(SPEED_LEFTS, speed_lefts_place(packed)),
        mark_at(PERIODS, periods_place(packed, dependent)),
    ])
}

/// The labels of the wave table's sides, and of the bytes behind these.
fn push_wave_marks(
    marks: &mut MarkList,
    packed: &PackedSong,
    dependent: bool,
) -> Result<(), NoMemory>
    ensures { OnOk result (marks.new ≡ marks.old ++ wave_marks dependent packed.now) }
{
    let place = wave_place(packed, dependent);
    let rows = rows(&packed.wave);
    marks.extend(&[
        mark_at(WAVE_LEFTS, place),
        mark_at(NEXT_WAVE_LEFTS, place + 1),
        mark_at(WAVE_RIGHTS, place + rows),
        mark_at(NEXT_WAVE_RIGHTS, place + rows + 1),
    ])
}

/// The labels of the pulse table's sides.
fn push_pulse_marks(
    marks: &mut MarkList,
    packed: &PackedSong,
    dependent: bool,
) -> Result<(), NoMemory>
    ensures { OnOk result (marks.new ≡ marks.old ++ pulse_marks dependent packed.now) }
{
    let place = pulse_place(packed, dependent);
    marks.extend(&[
        mark_at(PULSE_LEFTS, place),
        mark_at(NEXT_PULSE_LEFTS, place + 1),
        mark_at(PULSE_RIGHTS, place + rows(&packed.pulse)),
    ])
}

/// The labels of the filter table's sides.
fn push_filter_marks(
    marks: &mut MarkList,
    packed: &PackedSong,
    dependent: bool,
) -> Result<(), NoMemory>
    ensures { OnOk result (marks.new ≡ marks.old ++ filter_marks dependent packed.now) }
{
    let place = filter_place(packed, dependent);
    marks.extend(&[
        mark_at(FILTER_LEFTS, place),
        mark_at(NEXT_FILTER_LEFTS, place + 1),
        mark_at(FILTER_RIGHTS, place + rows(&packed.filter)),
    ])
}

/// The labels of the nine lists over the instruments.
fn push_instrument_marks(
    marks: &mut MarkList,
    packed: &PackedSong,
    dependent: bool,
) -> Result<(), NoMemory>
    ensures { OnOk result (marks.new ≡ marks.old ++ instrument_marks dependent packed.now) }
{
    let mut place = instruments_place(packed, dependent);
    for field in 0..9 {
        marks.push(mark_at(ADS + field, place))?;
        place += field_size(packed, field);
    }
    Ok(())
}

/// The labels of the addresses of orderlists and patterns.
fn push_address_marks(
    marks: &mut MarkList,
    packed: &PackedSong,
    dependent: bool,
) -> Result<(), NoMemory>
    ensures { OnOk result (marks.new ≡ marks.old ++ address_marks dependent packed.now) }
{
    let place = addresses_place(packed, dependent);
    let orders = listed_orders(packed);
    marks.extend(&[
        mark_at(ORDERS_LOW, place),
        mark_at(ORDERS_HIGH, place + orders),
        mark_at(PATTERNS_LOW, place + 2 * orders),
        mark_at(PATTERNS_HIGH, place + 2 * orders + patterns(packed)),
    ])
}

/// The labels of what stands alone for all instruments.
fn push_shared_marks(
    marks: &mut MarkList,
    packed: &PackedSong,
    dependent: bool,
) -> Result<(), NoMemory>
    ensures { OnOk result (marks.new ≡ marks.old ++ shared_marks dependent packed.now) }
{
    marks.extend(&[
        mark_at(ONE_TIMER, one_timer_place(packed, dependent)),
        mark_at(ONE_WAVE, one_wave_place(packed, dependent)),
    ])
}

/// The labels of the slides.
fn push_slide_marks(
    marks: &mut MarkList,
    packed: &PackedSong,
    dependent: bool,
) -> Result<(), NoMemory>
    ensures { OnOk result (marks.new ≡ marks.old ++ slide_marks dependent packed.now) }
{
    marks.extend(&[
        mark_at(SLIDES_LOW, slides_low_place(packed, dependent)),
        mark_at(SLIDES_HIGH, slides_high_place(packed, dependent)),
    ])
}

/// The labels of the numbers from which on instruments hold the gate and the envelope before a note.
fn push_holder_marks(
    marks: &mut MarkList,
    packed: &PackedSong,
    dependent: bool,
) -> Result<(), NoMemory>
    ensures { OnOk result (marks.new ≡ marks.old ++ holder_marks dependent packed.now) }
{
    marks.extend(&[
        mark_at(GATE_FROM, gate_from_place(packed, dependent)),
        mark_at(ENVELOPE_FROM, envelope_from_place(packed, dependent)),
    ])
}

/// The labels that each song's lists have.
fn list_marks(alloc: Global, packed: &PackedSong, dependent: bool) -> Result<MarkList, NoMemory>
    requires { lists_size dependent packed.now ≤ 65535 }
    ensures { IfOk result (λ marks. marks ≡ list_marks dependent packed.now) }
{
    let mut marks = MarkList::new(alloc);
    push_frequency_marks(&mut marks, packed, dependent)?;
    push_speed_marks(&mut marks, packed, dependent)?;
    push_wave_marks(&mut marks, packed, dependent)?;
    push_pulse_marks(&mut marks, packed, dependent)?;
    push_filter_marks(&mut marks, packed, dependent)?;
    push_instrument_marks(&mut marks, packed, dependent)?;
    push_address_marks(&mut marks, packed, dependent)?;
    push_shared_marks(&mut marks, packed, dependent)?;
    push_slide_marks(&mut marks, packed, dependent)?;
    push_holder_marks(&mut marks, packed, dependent)?;
    Ok(marks)
}

/// Labels one after the other, at these places.
fn push_marks_from(marks: &mut MarkList, label: u16, places: &[u16]) -> Result<(), NoMemory>
    requires { label + length places.now ≤ 65535 }
    ensures { OnOk result (marks.new ≡ marks.old ++ marks_from label places.now) }
{
    let mut next = label;
    for place in places {
        marks.push(mark_at(next, *place))?;
        next += 1;
    }
    Ok(())
}

/// The labels of a packed song's lists, the orderlists and the patterns of which stand at these places.
pub(crate) fn data_marks(
    alloc: Global,
    packed: &PackedSong,
    dependent: bool,
    places: (&[u16], &[u16]),
) -> Result<MarkList, NoMemory>
    requires orders { places.0.now ≡ order_places dependent packed.now }
    requires patterns { places.1.now ≡ pattern_places dependent packed.now }
    requires order_labels { ORDERS + length places.0.now ≤ 65535 }
    requires pattern_labels { PATTERNS + length places.1.now ≤ 65535 }
    requires size { lists_size dependent packed.now ≤ 65535 }
    ensures { IfOk result (λ marks. marks ≡ data_marks dependent packed.now) }
{
    let mut marks = list_marks(alloc, packed, dependent)?;
    push_marks_from(&mut marks, ORDERS, places.0)?;
    push_marks_from(&mut marks, PATTERNS, places.1)?;
    Ok(marks)
}
