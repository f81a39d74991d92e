//! The wave step: one row of the wave program, which sets the waveform, does a command, and sets the note.

ghost use Rattle.std.specs.Prelude.{◌≡◌, ℕ, ◌<◌, not, ◌&&◌, ◌==◌, nat_lt};
ghost use Rattle.play_model.specs.LookUps.{look_ups_of};
ghost use Rattle.play_model.specs.StandsFor.{voice_after};
ghost use Rattle.play_model.specs.WaveStep.{wave_command, is_wave_command, left_done, program_moved, wave_note};
ghost use Rattle.play_model.specs.WaveStep.{with_note, right_done, wave_row, wave_step};
ghost use Rattle.playroutine.specs.PlayingAfter.{playing_after, waved_after};

use crate::commands::do_command;
use crate::slides::{porta_down, porta_up, tone, vibrato};
use crate::tables::next_row;
use play_model::{CommonState, LastNote, VoiceState, freq};
use song_model::{Song, TableName, TableRow};

/// The wave step: the wave program's row is done, or waits. Answers whether the effect runs in this frame.
#[tactic(auto, unfolding(play_model::specs::WaveStep::wave_step))]
pub fn wave_step(voice: &mut VoiceState, common: &mut CommonState, song: &Song) -> bool
    ensures rule { (plays : ℕ) → waved_after plays voice.new common.new result ≡
        wave_step (look_ups_of song.now) (playing_after plays voice.old common.old) }
    ensures place { voice.new.place ≡ voice.old.place }
{
    if voice.wave_ptr == 0 {
        return true;
    }
    let row = song.row_or_zero(TableName::Wave, voice.wave_ptr);
    wave_row(voice, common, song, row)
}

/// Whether the program stays at its row, where it has waited for this long.
fn is_waiting(row: TableRow, time: u8) -> bool
    ensures { result ≡ (nat_lt row.left 0x10 && not (time == row.left)) }
{
    row.left < 0x10 && time != row.left
}

/// What the program's row does in this frame: a left side below `$10` waits for as many frames.
fn wave_row(voice: &mut VoiceState, common: &mut CommonState, song: &Song, row: TableRow) -> bool
    ensures rule { (plays : ℕ) → waved_after plays voice.new common.new result ≡
        wave_row (look_ups_of song.now) row (playing_after plays voice.old common.old) }
    ensures place { voice.new.place ≡ voice.old.place }
{
    let time = voice.wave_time;
    if is_waiting(row, time) {
        voice.wave_time = time.wrapping_add(1);
        return true;
    }
    let here = voice.wave_ptr;
    left_done(voice, common, song, row);
    program_moved(voice, song, here);
    right_done(voice, row)
}

/// Whether a left side is a command: `$F0-$FE`.
fn is_wave_command(row: TableRow) -> bool
    ensures { result ≡ is_wave_command row }
{
    row.left >= 0xf0 && row.left <= 0xfe
}

/// The left side: a waveform, a waveform below `$10` written as `$E0-$EF`, or a command.
fn left_done(voice: &mut VoiceState, common: &mut CommonState, song: &Song, row: TableRow)
    ensures rule { (plays : ℕ) → playing_after plays voice.new common.new ≡
        left_done (look_ups_of song.now) row (playing_after plays voice.old common.old) }
    ensures place { voice.new.place ≡ voice.old.place }
{
    match row.left {
        0x10..=0xdf => voice.wave = row.left,
        0xe0..=0xef => voice.wave = row.left - 0xe0,
        0xf0..=0xfe => wave_command(voice, common, song, row.left - 0xf0, row.right),
        _ => {}
    }
}

/// A command of the wave table: 0, 8 and `$E` do nothing.
#[tactic(auto, unfolding(play_model::specs::WaveStep::wave_command))]
fn wave_command(
    voice: &mut VoiceState,
    common: &mut CommonState,
    song: &Song,
    command: u8,
    parameter: u8,
)
    ensures rule { (plays : ℕ) → playing_after plays voice.new common.new ≡
        wave_command (look_ups_of song.now) command parameter
        (playing_after plays voice.old common.old) }
    ensures place { voice.new.place ≡ voice.old.place }
{
    match command {
        0 | 8 | 0xe => {}
        1 => porta_up(voice, parameter, song),
        2 => porta_down(voice, parameter, song),
        3 => tone(voice, parameter, song),
        4 => vibrato(voice, parameter, song),
        _ => do_command(voice, common, command, parameter),
    }
}

/// The program goes on after row `p`.
fn program_moved(voice: &mut VoiceState, song: &Song, p: u8)
    ensures rule { (plays : ℕ) (common : CommonState) → playing_after plays voice.new common ≡
        program_moved (look_ups_of song.now) p (playing_after plays voice.old common) }
    ensures place { voice.new.place ≡ voice.old.place }
{
    voice.wave_time = 0;
    voice.wave_ptr = next_row(song, TableName::Wave, u16::from(p));
}

/// The right side: after a command the effect rests; `$80` keeps the note and lets the effect run; others set the
/// note.
fn right_done(voice: &mut VoiceState, row: TableRow) -> bool
    ensures rule { (plays : ℕ) (common : CommonState) →
        waved_after plays voice.new common result ≡
        right_done row (playing_after plays voice.old common) }
    ensures place { voice.new.place ≡ voice.old.place }
{
    if is_wave_command(row) {
        return false;
    }
    if row.right == 0x80 {
        return true;
    }
    let note = wave_note(row.right, voice.note);
    set_note(voice, note);
    false
}

/// The note of a right side: below `$80` relative to the voice's note, above it a note of its own.
fn wave_note(right: u8, note: u8) -> u8
    ensures note { result ≡ wave_note right note }
    ensures range { result < 128 }
{
    if right < 0x80 {
        ((u16::from(right) + u16::from(note)) % 128) as u8
    } else {
        right % 128
    }
}

/// Sounds this note.
fn set_note(voice: &mut VoiceState, note: u8)
    requires { note < 128 }
    ensures rule { (plays : ℕ) → voice_after plays voice.new ≡
        with_note note (voice_after plays voice.old) }
    ensures place { voice.new.place ≡ voice.old.place }
{
    voice.freq = freq(note);
    voice.last_note = LastNote::of(note);
    voice.vib_time = 0;
}
