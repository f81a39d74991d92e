//! The commands that rows and the wave table share.

ghost use Rattle.std.specs.Prelude.{◌≡◌, ℕ};
ghost use Rattle.play_model.specs.Helpers.{do_command};
ghost use Rattle.playroutine.specs.PlayingAfter.{playing_after};

use play_model::{CommonState, VoiceState};

/// Does a command with its parameter: 5 attack and decay, 6 sustain and release, 7 the waveform, 9 the pulse
/// program, `$A` the filter program, `$B` the filter's control, `$C` the cutoff, `$D` the volume; another number does
/// nothing.
#[tactic(auto, unfolding(play_model::specs::Helpers::do_command))]
pub(crate) fn do_command(
    voice: &mut VoiceState,
    common: &mut CommonState,
    command: u8,
    parameter: u8,
)
    ensures rule { (plays : ℕ) → playing_after plays voice.new common.new ≡
        do_command command parameter (playing_after plays voice.old common.old) }
    ensures place { voice.new.place ≡ voice.old.place }
{
    match command {
        5 => voice.ad = parameter,
        6 => voice.sr = parameter,
        7 => voice.wave = parameter,
        9 => {
            voice.pulse_ptr = parameter;
            voice.pulse_time = 0;
        }
        0xa => {
            common.filter_ptr = parameter;
            common.filter_time = 0;
        }
        0xb => {
            common.filter_control = parameter;
            if parameter == 0 {
                common.filter_ptr = 0;
            }
        }
        0xc => common.cutoff = parameter,
        0xd => {
            if parameter < 0x10 {
                common.volume = parameter;
            }
        }
        _ => {}
    }
}
