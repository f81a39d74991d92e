//! The bytes that a frame leaves in the SID's registers.

ghost use Rattle.std.specs.Prelude.{◌≡◌, ℕ, ◌++◌};
ghost use Rattle.play_model.specs.StandsFor.{voice_after};
ghost use Rattle.play_model.specs.Frame.{voice_registers, filter_registers};

use play_model::{CommonState, VoiceState};

/// The seven registers of a voice: frequency, pulse width, waveform under its mask, envelope.
#[tactic(auto, unfolding(play_model::specs::Frame::voice_registers))]
pub(crate) fn voice_registers(voice: &VoiceState) -> [u8; 7]
    ensures { (plays : ℕ) → result ≡ voice_registers (voice_after plays voice.now) }
{
    let pulse = voice.pulse.parts();
    [
        (voice.freq % 256) as u8,
        (voice.freq / 256) as u8,
        (pulse % 256) as u8,
        (pulse / 256) as u8,
        voice.wave & voice.gate,
        voice.ad,
        voice.sr,
    ]
}

/// Registers 21 to 24: the cutoff, the filter's control, and its kind with the volume.
#[tactic(auto, unfolding(play_model::specs::Frame::filter_registers))]
pub(crate) fn filter_registers(common: &CommonState) -> [u8; 4]
    ensures { result ≡ filter_registers common.now }
{
    [
        0,
        common.cutoff,
        common.filter_control,
        common.filter_type | common.volume,
    ]
}

/// The registers of the three voices, and the last four.
pub(crate) fn all_registers(one: [u8; 7], two: [u8; 7], three: [u8; 7], filter: [u8; 4]) -> [u8; 25]
    ensures { result ≡ one ++ two ++ three ++ filter }
{
    [
        one[0], one[1], one[2], one[3], one[4], one[5], one[6], two[0], two[1], two[2], two[3],
        two[4], two[5], two[6], three[0], three[1], three[2], three[3], three[4], three[5],
        three[6], filter[0], filter[1], filter[2], filter[3],
    ]
}
