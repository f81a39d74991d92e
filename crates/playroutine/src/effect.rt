//! The effect step: the running command of a voice, once a frame.

ghost use Rattle.std.specs.Prelude.{◌≡◌, ℕ};
ghost use Rattle.play_model.specs.LookUps.{look_ups_of};
ghost use Rattle.play_model.specs.StandsFor.{voice_after};
ghost use Rattle.play_model.specs.EffectStep.{instrument_vibrato, effect_step};

use crate::slides::{porta_down, porta_up, tone, vibrato};
use play_model::VoiceState;
use song_model::Song;

/// The effect step: the instrument's vibrato for command 0, and commands 1 to 4 with their parameter.
#[tactic(auto, unfolding(play_model::specs::EffectStep::effect_step))]
pub fn effect_step(voice: &mut VoiceState, song: &Song)
    ensures rule { (plays : ℕ) → voice_after plays voice.new ≡
        effect_step (look_ups_of song.now) (voice_after plays voice.old) }
    ensures place { voice.new.place ≡ voice.old.place }
{
    let param = voice.param;
    match voice.command {
        0 => instrument_vibrato(voice, song),
        1 => porta_up(voice, param, song),
        2 => porta_down(voice, param, song),
        3 => tone(voice, param, song),
        4 => vibrato(voice, param, song),
        _ => {}
    }
}

/// The instrument's vibrato, which begins when its delay has fallen to 1; a delay of 0 is never.
fn instrument_vibrato(voice: &mut VoiceState, song: &Song)
    ensures rule { (plays : ℕ) → voice_after plays voice.new ≡
        instrument_vibrato (look_ups_of song.now) (voice_after plays voice.old) }
    ensures place { voice.new.place ≡ voice.old.place }
{
    let param = voice.param;
    let delay = voice.vib_delay;
    if param == 0 || delay == 0 {
        return;
    }
    if delay >= 2 {
        voice.vib_delay = delay - 1;
    } else {
        vibrato(voice, param, song);
    }
}
