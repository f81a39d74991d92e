//! The slides of a frequency: up, down, to a note, and the vibrato.

ghost use Rattle.std.specs.Prelude.{◌≡◌, ℕ, ◌==◌, ◌||◌, nat_le};
ghost use Rattle.play_model.specs.Wrap.{distance};
ghost use Rattle.play_model.specs.LookUps.{look_ups_of};
ghost use Rattle.play_model.specs.StandsFor.{voice_after};
ghost use Rattle.play_model.specs.Helpers.{porta_up, porta_down, at_target, towards, tone_by, tone, turned, swung};
ghost use Rattle.play_model.specs.Helpers.{depth_of, vibrato};

use play_model::{LastNote, VoiceState, freq, slide};
use song_model::{Song, TableRow};

/// The frequency rises by the speed that the row of the speed table that the parameter names stands for.
#[tactic(auto, unfolding(play_model::specs::Helpers::porta_up))]
pub(crate) fn porta_up(voice: &mut VoiceState, parameter: u8, song: &Song)
    ensures rule { (plays : ℕ) → voice_after plays voice.new ≡
        porta_up (look_ups_of song.now) parameter (voice_after plays voice.old) }
    ensures place { voice.new.place ≡ voice.old.place }
{
    let speed = slide(song, parameter, voice.last_note.half_tones());
    voice.freq = voice.freq.wrapping_add(speed);
}

/// The frequency falls by the speed that the row of the speed table that the parameter names stands for.
#[tactic(auto, unfolding(play_model::specs::Helpers::porta_down))]
pub(crate) fn porta_down(voice: &mut VoiceState, parameter: u8, song: &Song)
    ensures rule { (plays : ℕ) → voice_after plays voice.new ≡
        porta_down (look_ups_of song.now) parameter (voice_after plays voice.old) }
    ensures place { voice.new.place ≡ voice.old.place }
{
    let speed = slide(song, parameter, voice.last_note.half_tones());
    voice.freq = voice.freq.wrapping_sub(speed);
}

/// The note's own frequency.
fn at_target(voice: &mut VoiceState, target: u16)
    ensures rule { (plays : ℕ) → voice_after plays voice.new ≡
        at_target target (voice_after plays voice.old) }
    ensures place { voice.new.place ≡ voice.old.place }
{
    voice.freq = target;
    voice.vib_time = 0;
    let note = voice.note;
    voice.last_note = LastNote::of(note);
}

/// One step towards the target.
fn towards(voice: &mut VoiceState, target: u16, step: u16)
    ensures rule { (plays : ℕ) → voice_after plays voice.new ≡
        towards target step (voice_after plays voice.old) }
    ensures place { voice.new.place ≡ voice.old.place }
{
    let from = voice.freq;
    voice.freq = if from < target {
        from.wrapping_add(step)
    } else {
        from.wrapping_sub(step)
    };
}

/// Whether a slide ends: the target is no further than one step, or the parameter is 0.
fn is_end(parameter: u8, from: u16, target: u16, step: u16) -> bool
    ensures { result ≡ ((parameter == 0) || nat_le (distance from target) step) }
{
    parameter == 0 || from.abs_diff(target) <= step
}

/// A slide that ends where the target is no further than one step, and with parameter 0 at once.
fn tone_by(voice: &mut VoiceState, parameter: u8, target: u16, step: u16)
    ensures rule { (plays : ℕ) → voice_after plays voice.new ≡
        tone_by parameter target step (voice_after plays voice.old) }
    ensures place { voice.new.place ≡ voice.old.place }
{
    if is_end(parameter, voice.freq, target, step) {
        at_target(voice, target);
    } else {
        towards(voice, target, step);
    }
}

/// A slide to the note, at the speed that the named row of the speed table stands for; with parameter 0 the note at
/// once.
#[tactic(auto, unfolding(play_model::specs::Helpers::tone))]
pub(crate) fn tone(voice: &mut VoiceState, parameter: u8, song: &Song)
    ensures rule { (plays : ℕ) → voice_after plays voice.new ≡
        tone (look_ups_of song.now) parameter (voice_after plays voice.old) }
    ensures place { voice.new.place ≡ voice.old.place }
{
    let step = slide(song, parameter, voice.last_note.half_tones());
    tone_by(voice, parameter, freq(voice.note), step);
}

/// The vibrato's time, turned round where it is past the period.
fn turned(period: u8, time: u8) -> u8
    ensures { result ≡ turned period time }
{
    if time < 128 && period < time {
        255 - time
    } else {
        time
    }
}

/// The vibrato at this time: down at odd times, and up at others.
fn swung(voice: &mut VoiceState, time: u8, depth: u16)
    ensures rule { (plays : ℕ) → voice_after plays voice.new ≡
        swung time depth (voice_after plays voice.old) }
    ensures place { voice.new.place ≡ voice.old.place }
{
    voice.vib_time = time;
    let from = voice.freq;
    voice.freq = if time % 2 == 1 {
        from.wrapping_sub(depth)
    } else {
        from.wrapping_add(depth)
    };
}

/// The depth of a vibrato, in frequency numbers: the row's right side, or the slide of the
/// speed row that the parameter names, at the last note.
fn depth_of(song: &Song, parameter: u8, row: TableRow, last: LastNote) -> u16
    ensures { result ≡ depth_of (look_ups_of song.now) parameter row last }
{
    if row.left < 0x80 {
        u16::from(row.right)
    } else {
        slide(song, parameter, last.half_tones())
    }
}

/// One frame of the vibrato that the named row of the speed table stands for.
#[tactic(auto, unfolding(play_model::specs::Helpers::vibrato))]
pub(crate) fn vibrato(voice: &mut VoiceState, parameter: u8, song: &Song)
    ensures rule { (plays : ℕ) → voice_after plays voice.new ≡
        vibrato (look_ups_of song.now) parameter (voice_after plays voice.old) }
    ensures place { voice.new.place ≡ voice.old.place }
{
    let row = song.speed(parameter);
    let time = turned(row.left % 128, voice.vib_time).wrapping_add(2);
    let depth = depth_of(song, parameter, row, voice.last_note);
    swung(voice, time, depth);
}
