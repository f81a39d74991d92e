//! The step of one voice.

ghost use Rattle.std.specs.Prelude.{◌≡◌, ℕ};
ghost use Rattle.song_model.specs.Endless.{IsEndless};
ghost use Rattle.song_model.specs.Places.{place_of};
ghost use Rattle.play_model.specs.LookUps.{look_ups_of};
ghost use Rattle.play_model.specs.State.{Voice};
ghost use Rattle.play_model.specs.StandsFor.{voice_after, VoiceStandsFor};
ghost use Rattle.play_model.specs.WaveStep.{wave_step};
ghost use Rattle.play_model.specs.Frame.{effect_done, pulse_left_out, pulse_done, row_fetched, voice_step};
ghost use Rattle.playroutine.specs.PlayingAfter.{playing_after, waved_after};
ghost use Rattle.playroutine.specs.AtStep.{StepStandsFor};

use crate::{effect_step, fetch_row, pulse_step, tick_step, wave_step};
use play_model::{CommonState, Options, VoiceState};
use song_model::{Order, Song};

/// The step of the voice of channel 1, 2 or 3, which plays this orderlist.
pub(crate) fn voice_step(
    voice: &mut VoiceState,
    channel: u8,
    common: &mut CommonState,
    order: &Order,
    song: &Song,
    options: &Options,
)
    requires endless { IsEndless order.now }
    requires place { (i : ℕ) × (voice.old.place ≡ place_of order.now i) }
    ensures { (v : Voice) → VoiceStandsFor order.now voice.old v →
        StepStandsFor order.now voice.new common.new (voice_step channel options.now
        (look_ups_of song.now) order.now (record { voice = v; common = common.old })) }
{
    if !tick_step(voice, channel, common, song) {
        programs_done(voice, common, song, options);
        row_fetched(voice, order, song);
    }
}

/// The wave step, the effect step where the wave step lets it run, and the pulse step.
fn programs_done(voice: &mut VoiceState, common: &mut CommonState, song: &Song, options: &Options)
    ensures rule { (plays : ℕ) → playing_after plays voice.new common.new ≡
        pulse_done options.now (look_ups_of song.now) (effect_done options.now
        (look_ups_of song.now) (wave_step (look_ups_of song.now)
        (playing_after plays voice.old common.old))) }
    ensures place { voice.new.place ≡ voice.old.place }
{
    let effect = wave_step(voice, common, song);
    effect_done(voice, effect, song, options);
    pulse_done(voice, song, options);
}

/// The effect step where it runs in this frame, but an option leaves it out at tick 0.
fn effect_done(voice: &mut VoiceState, effect: bool, song: &Song, options: &Options)
    ensures rule { (plays : ℕ) (common : CommonState) → playing_after plays voice.new common ≡
        effect_done options.now (look_ups_of song.now)
        (waved_after plays voice.old common effect) }
    ensures place { voice.new.place ≡ voice.old.place }
{
    let skipped = options.skip_effects && voice.tick == 0;
    if effect && !skipped {
        effect_step(voice, song);
    }
}

/// Whether an option leaves the pulse step out: one where the row is fetched, the other at tick 0 where the next row is
/// the first of its pattern.
fn pulse_left_out(voice: &VoiceState, options: &Options) -> bool
    ensures rule { (plays : ℕ) →
        result ≡ pulse_left_out options.now (voice_after plays voice.now) }
{
    let at_fetch = options.skip_pulse && voice.tick == voice.gate_timer;
    let at_first = options.skip_first && voice.tick == 0 && voice.row == 0;
    at_fetch || at_first
}

/// The pulse step, but where an option leaves it out.
fn pulse_done(voice: &mut VoiceState, song: &Song, options: &Options)
    ensures rule { (plays : ℕ) (common : CommonState) → playing_after plays voice.new common ≡
        pulse_done options.now (look_ups_of song.now) (playing_after plays voice.old common) }
    ensures place { voice.new.place ≡ voice.old.place }
{
    if !pulse_left_out(voice, options) {
        pulse_step(voice, song);
    }
}

/// The fetch of the row, where the tick equals the gate timer.
fn row_fetched(voice: &mut VoiceState, order: &Order, song: &Song)
    requires endless { IsEndless order.now }
    requires place { (i : ℕ) × (voice.old.place ≡ place_of order.now i) }
    ensures { (v : Voice) (common : CommonState) → VoiceStandsFor order.now voice.old v →
        StepStandsFor order.now voice.new common (row_fetched (look_ups_of song.now) order.now
        (record { voice = v; common = common })) }
{
    if voice.tick == voice.gate_timer {
        fetch_row(voice, order, song);
    }
}
