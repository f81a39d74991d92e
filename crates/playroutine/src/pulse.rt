//! The pulse step: one row of the pulse program, or one frame of it.

ghost use Rattle.std.specs.Prelude.{◌≡◌, ℕ, ◌==◌, if◌then◌else◌};
ghost use Rattle.play_model.specs.LookUps.{look_ups_of};
ghost use Rattle.play_model.specs.StandsFor.{voice_after};
ghost use Rattle.play_model.specs.PulseStep.{pulse_set, pulse_moved, pulse_slide, pulse_row, pulse_step};

use crate::tables::next_row;
use play_model::{PulseWidth, VoiceState};
use song_model::{Song, TableName, TableRow};

/// The pulse step: the pulse program's row begins, or goes on for a frame.
#[tactic(auto, unfolding(play_model::specs::PulseStep::pulse_step))]
pub fn pulse_step(voice: &mut VoiceState, song: &Song)
    ensures rule { (plays : ℕ) → voice_after plays voice.new ≡
        pulse_step (look_ups_of song.now) (voice_after plays voice.old) }
    ensures place { voice.new.place ≡ voice.old.place }
{
    if voice.pulse_ptr != 0 {
        let row = song.row_or_zero(TableName::Pulse, voice.pulse_ptr);
        pulse_row(voice, song, row);
    }
}

/// What the program's row does in this frame; a row `$00` stops the program.
fn pulse_row(voice: &mut VoiceState, song: &Song, row: TableRow)
    ensures rule { (plays : ℕ) → voice_after plays voice.new ≡
        pulse_row (look_ups_of song.now) row (voice_after plays voice.old) }
    ensures place { voice.new.place ≡ voice.old.place }
{
    let time = voice.pulse_time;
    if time == 0 && row.left == 0 {
        return;
    }
    if time == 0 && row.left >= 0x80 {
        pulse_set(voice, song, row);
    } else {
        pulse_slide(voice, song, row, frames_left(row, time));
    }
}

/// How many frames a move has left, where the program stands at its row for this long.
fn frames_left(row: TableRow, time: u8) -> u8
    ensures { result ≡ (if time == 0 then row.left else time) }
{
    if time == 0 { row.left } else { time }
}

/// Sets the width.
fn pulse_set(voice: &mut VoiceState, song: &Song, row: TableRow)
    ensures rule { (plays : ℕ) → voice_after plays voice.new ≡
        pulse_set (look_ups_of song.now) row (voice_after plays voice.old) }
    ensures place { voice.new.place ≡ voice.old.place }
{
    let here = u16::from(voice.pulse_ptr);
    voice.pulse = PulseWidth::of(256 * u16::from(row.left % 16) + u16::from(row.right));
    voice.pulse_ptr = next_row(song, TableName::Pulse, here);
}

/// The width after a frame: a right side below `$80` adds to it, a greater one is negative.
fn pulse_moved(pulse: PulseWidth, right: u8) -> PulseWidth
    ensures { result ≡ pulse_moved pulse right }
{
    let from = pulse.parts();
    if right < 0x80 {
        PulseWidth::of(from + u16::from(right))
    } else {
        PulseWidth::of(from + 4096 - (256 - u16::from(right)))
    }
}

/// One frame of a move of the width, which lasts as many frames as `time` says.
fn pulse_slide(voice: &mut VoiceState, song: &Song, row: TableRow, time: u8)
    ensures rule { (plays : ℕ) → voice_after plays voice.new ≡
        pulse_slide (look_ups_of song.now) row time (voice_after plays voice.old) }
    ensures place { voice.new.place ≡ voice.old.place }
{
    let here = u16::from(voice.pulse_ptr);
    let from = voice.pulse;
    let left = time.wrapping_sub(1);
    voice.pulse = pulse_moved(from, row.right);
    voice.pulse_time = left;
    if left == 0 {
        voice.pulse_ptr = next_row(song, TableName::Pulse, here);
    }
}
