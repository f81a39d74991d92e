//! The tick step: the voice counts frames, and at tick 0 starts the note that waits and does the row's command.

ghost use Rattle.std.specs.Prelude.{◌≡◌, ℕ};
ghost use Rattle.play_model.specs.LookUps.{look_ups_of};
ghost use Rattle.play_model.specs.TickStep.{tempo_of, reloaded, between_rows, note_ended, at_row, tick_step};
ghost use Rattle.playroutine.specs.PlayingAfter.{playing_after, ticked_after};

use crate::notes::note_started;
use crate::rows::{row_command, set_tempo};
use play_model::{CommonState, VoiceState};
use song_model::{Instrument, Song};

/// The tick step of channel 1, 2 or 3; another number is taken for 3. Answers whether a note was started, which ends
/// the voice's step.
#[tactic(auto, unfolding(play_model::specs::TickStep::tick_step))]
pub fn tick_step(voice: &mut VoiceState, channel: u8, common: &mut CommonState, song: &Song) -> bool
    ensures rule { (plays : ℕ) → ticked_after plays voice.new common.new result ≡
        tick_step channel (look_ups_of song.now) (playing_after plays voice.old common.old) }
    ensures place { voice.new.place ≡ voice.old.place }
{
    let tick = voice.tick.wrapping_sub(1);
    voice.tick = tick;
    if tick == 0 {
        let instrument = song.instrument(voice.instrument);
        at_row(voice, channel, common, song, &instrument)
    } else {
        between_rows(voice, channel, common);
        false
    }
}

/// The tempo of a channel.
fn tempo_of(channel: u8, common: &CommonState) -> u8
    ensures { result ≡ tempo_of channel common.now }
{
    match channel {
        1 => common.tempo_one,
        2 => common.tempo_two,
        _ => common.tempo_three,
    }
}

/// The tick isn't 0: where it has passed 0, the row's length is loaded.
#[tactic(auto, unfolding(play_model::specs::TickStep::between_rows))]
fn between_rows(voice: &mut VoiceState, channel: u8, common: &mut CommonState)
    ensures rule { (plays : ℕ) → playing_after plays voice.new common.new ≡
        between_rows channel (playing_after plays voice.old common.old) }
    ensures place { voice.new.place ≡ voice.old.place }
{
    if voice.tick >= 0x80 {
        let tempo = tempo_of(channel, common);
        reloaded(voice, channel, common, tempo);
    }
}

/// Loads the row's length: the tempo, or for the tempos 0 and 1 the two funk values in turn.
fn reloaded(voice: &mut VoiceState, channel: u8, common: &mut CommonState, tempo: u8)
    ensures rule { (plays : ℕ) → playing_after plays voice.new common.new ≡
        reloaded channel tempo (playing_after plays voice.old common.old) }
    ensures place { voice.new.place ≡ voice.old.place }
{
    if tempo >= 2 {
        voice.tick = tempo;
    } else {
        voice.tick = if tempo == 0 {
            common.funk_one
        } else {
            common.funk_two
        };
        set_tempo(common, channel, 1 - tempo);
    }
}

/// The tick is 0: the waiting note starts, and the row's command is done.
#[tactic(auto, unfolding(play_model::specs::TickStep::at_row))]
fn at_row(
    voice: &mut VoiceState,
    channel: u8,
    common: &mut CommonState,
    song: &Song,
    instrument: &Instrument,
) -> bool
    ensures rule { (plays : ℕ) → ticked_after plays voice.new common.new result ≡
        at_row channel (look_ups_of song.now) instrument.now
        (playing_after plays voice.old common.old) }
    ensures place { voice.new.place ≡ voice.old.place }
{
    let command = voice.new_command;
    let param = voice.new_param;
    voice.gate_timer = instrument.gate_timer % 64;
    note_started(voice, common, instrument);
    row_command(voice, channel, common, song, instrument, command, param);
    note_ended(voice)
}

/// The waiting note is used up, and has started unless it slides.
fn note_ended(voice: &mut VoiceState) -> bool
    ensures rule { (plays : ℕ) (common : CommonState) →
        ticked_after plays voice.new common result ≡
        note_ended (playing_after plays voice.old common) }
    ensures place { voice.new.place ≡ voice.old.place }
{
    let started = voice.new_note != 0 && voice.new_command != 3;
    voice.new_note = 0;
    started
}
