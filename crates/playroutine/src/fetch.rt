//! Fetching a row: what it says waits for tick 0, but keyoff, keyon and a note's gate are seen at once.

ghost use Rattle.std.specs.Prelude.{◌≡◌, ℕ, ◌+◌};
ghost use Rattle.song_model.specs.declared.orders.Order.{Order};
ghost use Rattle.song_model.specs.Endless.{IsEndless};
ghost use Rattle.song_model.specs.LookUp.{pattern_row, pattern_at};
ghost use Rattle.song_model.specs.Places.{place_of};
ghost use Rattle.play_model.specs.LookUps.{look_ups_of};
ghost use Rattle.play_model.specs.State.{Voice};
ghost use Rattle.play_model.specs.StandsFor.{voice_after, VoiceStandsFor};
ghost use Rattle.play_model.specs.FetchRow.{row_taken, gate_keyed, transposed, gate_shut, note_waits, row_done};
ghost use Rattle.play_model.specs.FetchRow.{row_moved, fetch_row};

use play_model::VoiceState;
use song_model::{Order, OrderPlace, Row, Song};

/// What is found past the last row of a pattern.
const ZERO_ROW: Row = Row {
    note: 0,
    instrument: 0,
    command: 0,
    param: 0,
};

/// Fetches the next row of the voice's orderlist; after the last row of a pattern the voice goes to its next play. The
/// orderlist has to go on for ever, and the voice's place to be that of one of its plays. A pattern that isn't stored
/// has rows of zeros.
pub fn fetch_row(voice: &mut VoiceState, order: &Order, song: &Song)
    requires endless { IsEndless order.now }
    requires place { (i : ℕ) × (voice.old.place ≡ place_of order.now i) }
    ensures { (v : Voice) → VoiceStandsFor order.now voice.old v →
        VoiceStandsFor order.now voice.new (fetch_row (look_ups_of song.now) order.now v) }
{
    let (play, next) = order.step(voice.place);
    let rows = rows_of(song, play.pattern);
    let row = row_at(rows, voice.row);
    row_done(voice, song, row, play.transpose);
    row_moved(voice, rows.len(), next);
}

/// The rows of a pattern; none where it isn't stored.
#[tactic(auto, unfolding(song_model::specs::LookUp::pattern_at))]
fn rows_of(song: &Song, pattern: u8) -> &[Row]
    ensures { result.now ≡ pattern_at song.now pattern }
{
    match song.pattern(pattern) {
        Some(pattern) => pattern.as_slice(),
        None => &[],
    }
}

/// The row at a place, counted from 0; zeros past the last one.
fn row_at(rows: &[Row], place: u8) -> Row
    ensures { result ≡ pattern_row rows.now place }
{
    match rows.get(usize::from(place)) {
        Some(row) => *row,
        None => ZERO_ROW,
    }
}

/// What the row says.
fn row_done(voice: &mut VoiceState, song: &Song, row: Row, transpose: i8)
    ensures rule { (plays : ℕ) → voice_after plays voice.new ≡
        row_done (look_ups_of song.now) row transpose (voice_after plays voice.old) }
    ensures place { voice.new.place ≡ voice.old.place }
{
    row_taken(voice, row);
    gate_keyed(voice, row.note);
    note_waits(voice, song, row.note, transpose);
}

/// Takes the instrument, unless it is 0, and what waits for tick 0.
fn row_taken(voice: &mut VoiceState, row: Row)
    ensures rule { (plays : ℕ) → voice_after plays voice.new ≡
        row_taken row (voice_after plays voice.old) }
    ensures place { voice.new.place ≡ voice.old.place }
{
    if row.instrument != 0 {
        voice.instrument = row.instrument;
    }
    voice.new_command = row.command;
    voice.new_param = row.param;
}

/// `$BE` is keyoff, `$BF` keyon.
fn gate_keyed(voice: &mut VoiceState, note: u8)
    ensures rule { (plays : ℕ) → voice_after plays voice.new ≡
        gate_keyed note (voice_after plays voice.old) }
    ensures place { voice.new.place ≡ voice.old.place }
{
    match note {
        0xbe => voice.gate = 0xfe,
        0xbf => voice.gate = 0xff,
        _ => {}
    }
}

/// A note waits, with the transpose added.
fn note_waits(voice: &mut VoiceState, song: &Song, note: u8, transpose: i8)
    ensures rule { (plays : ℕ) → voice_after plays voice.new ≡
        note_waits (look_ups_of song.now) note transpose (voice_after plays voice.old) }
    ensures place { voice.new.place ≡ voice.old.place }
{
    if note >= 0x60 && note <= 0xbc {
        let instrument = song.instrument(voice.instrument);
        voice.new_note = transposed(note, transpose);
        gate_shut(voice, instrument.gate_timer);
    }
}

/// A note with the transpose added, as a byte.
fn transposed(note: u8, transpose: i8) -> u8
    ensures { result ≡ transposed note transpose }
{
    note.wrapping_add_signed(transpose)
}

/// The gate before a note: bit `$40` of the gateoff timer keeps it, and so does command 3. Where it goes off the
/// envelope is shut too, a hard restart, but for bit `$80`, which keeps it.
fn gate_shut(voice: &mut VoiceState, timer: u8)
    ensures rule { (plays : ℕ) → voice_after plays voice.new ≡
        gate_shut timer (voice_after plays voice.old) }
    ensures place { voice.new.place ≡ voice.old.place }
{
    if voice.new_command == 3 || timer & 0x40 != 0 {
        return;
    }
    voice.gate = 0xfe;
    if timer & 0x80 == 0 {
        voice.ad = 0x0f;
        voice.sr = 0;
    }
}

/// The row rises by 1, and after the last of these rows the orderlist goes to its next play.
fn row_moved(voice: &mut VoiceState, rows: usize, next: OrderPlace)
    ensures { (order : Order) (v : Voice) → VoiceStandsFor order voice.old v →
        next ≡ place_of order (v.plays + 1) → VoiceStandsFor order voice.new (row_moved rows v) }
{
    let row = voice.row.wrapping_add(1);
    if usize::from(row) == rows {
        voice.row = 0;
        voice.place = next;
    } else {
        voice.row = row;
    }
}
