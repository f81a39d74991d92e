//! The start of the note that waits, at tick 0.

ghost use Rattle.std.specs.Prelude.{◌≡◌, ℕ};
ghost use Rattle.play_model.specs.StandsFor.{voice_after};
ghost use Rattle.play_model.specs.TickStep.{note_taken, first_wave_set, programs_begun, sound_begun, taken, note_started};
ghost use Rattle.playroutine.specs.PlayingAfter.{playing_after};

use play_model::{CommonState, VoiceState};
use song_model::Instrument;

/// Starts the note that waits, where there is one.
#[tactic(auto, unfolding(play_model::specs::TickStep::note_started))]
pub(crate) fn note_started(
    voice: &mut VoiceState,
    common: &mut CommonState,
    instrument: &Instrument,
)
    ensures rule { (plays : ℕ) → playing_after plays voice.new common.new ≡
        note_started instrument.now (playing_after plays voice.old common.old) }
    ensures place { voice.new.place ≡ voice.old.place }
{
    if voice.new_note != 0 {
        taken(voice, common, instrument);
    }
}

/// Takes the waiting note; with command 3 the sound goes on and slides to it.
fn taken(voice: &mut VoiceState, common: &mut CommonState, instrument: &Instrument)
    ensures rule { (plays : ℕ) → playing_after plays voice.new common.new ≡
        taken instrument.now (playing_after plays voice.old common.old) }
    ensures place { voice.new.place ≡ voice.old.place }
{
    let slides = voice.new_command == 3;
    note_taken(voice, instrument);
    if !slides {
        sound_begun(voice, common, instrument);
    }
}

/// The waiting note becomes the note, with the instrument's vibrato.
fn note_taken(voice: &mut VoiceState, instrument: &Instrument)
    ensures rule { (plays : ℕ) → voice_after plays voice.new ≡
        note_taken instrument.now (voice_after plays voice.old) }
    ensures place { voice.new.place ≡ voice.old.place }
{
    let waiting = voice.new_note;
    voice.note = waiting.wrapping_sub(0x60);
    voice.command = 0;
    voice.param = instrument.vibrato;
    voice.vib_delay = instrument.vibrato_delay;
}

/// Begins the instrument's sound: its first waveform, its programs and its envelope.
fn sound_begun(voice: &mut VoiceState, common: &mut CommonState, instrument: &Instrument)
    ensures rule { (plays : ℕ) → playing_after plays voice.new common.new ≡
        sound_begun instrument.now (playing_after plays voice.old common.old) }
    ensures place { voice.new.place ≡ voice.old.place }
{
    first_wave_set(voice, instrument.first_wave);
    programs_begun(voice, common, instrument);
}

/// Sets the first frame's waveform: `$FE` and `$FF` are masks, and 0 changes nothing.
fn first_wave_set(voice: &mut VoiceState, wave: u8)
    ensures rule { (plays : ℕ) → voice_after plays voice.new ≡
        first_wave_set wave (voice_after plays voice.old) }
    ensures place { voice.new.place ≡ voice.old.place }
{
    if wave >= 0xfe {
        voice.gate = wave;
    } else if wave != 0 {
        voice.wave = wave;
        voice.gate = 0xff;
    }
}

/// Begins the instrument's programs, where it has them, and sets its envelope.
fn programs_begun(voice: &mut VoiceState, common: &mut CommonState, instrument: &Instrument)
    ensures rule { (plays : ℕ) → playing_after plays voice.new common.new ≡
        programs_begun instrument.now (playing_after plays voice.old common.old) }
    ensures place { voice.new.place ≡ voice.old.place }
{
    voice.wave_ptr = instrument.wave;
    voice.wave_time = 0;
    if instrument.pulse != 0 {
        voice.pulse_ptr = instrument.pulse;
        voice.pulse_time = 0;
    }
    if instrument.filter != 0 {
        common.filter_ptr = instrument.filter;
        common.filter_time = 0;
    }
    voice.ad = instrument.ad;
    voice.sr = instrument.sr;
}
