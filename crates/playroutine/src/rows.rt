//! The command of a row, at tick 0.

ghost use Rattle.std.specs.Prelude.{◌≡◌, ℕ};
ghost use Rattle.play_model.specs.LookUps.{look_ups_of};
ghost use Rattle.play_model.specs.TickStep.{with_tempo, with_all_tempos, funk_set, funk_tempo, tempo_set, row_command};
ghost use Rattle.playroutine.specs.PlayingAfter.{playing_after};

use crate::commands::do_command;
use play_model::{CommonState, VoiceState};
use song_model::{Instrument, Song, TableRow};

/// Does the row's command with its parameter. Commands 0 to 4 run from then on, the others are done once.
#[tactic(auto, unfolding(play_model::specs::TickStep::row_command))]
pub(crate) fn row_command(
    voice: &mut VoiceState,
    channel: u8,
    common: &mut CommonState,
    song: &Song,
    instrument: &Instrument,
    command: u8,
    parameter: u8,
)
    ensures rule { (plays : ℕ) → playing_after plays voice.new common.new ≡
        row_command channel (look_ups_of song.now) instrument.now command parameter
        (playing_after plays voice.old common.old) }
    ensures place { voice.new.place ≡ voice.old.place }
{
    match command {
        0 => {
            voice.command = 0;
            voice.param = instrument.vibrato;
        }
        1 | 2 => {
            voice.vib_time = 0;
            voice.command = command;
            voice.param = parameter;
        }
        3 | 4 => {
            voice.command = command;
            voice.param = parameter;
        }
        8 => {
            voice.wave_ptr = parameter;
            voice.wave_time = 0;
        }
        0xe => funk_tempo(common, song, parameter),
        0xf => tempo_set(common, channel, parameter),
        _ => do_command(voice, common, command, parameter),
    }
}

/// Sets the tempo of a channel.
pub(crate) fn set_tempo(common: &mut CommonState, channel: u8, tempo: u8)
    ensures { common.new ≡ with_tempo channel tempo common.old }
{
    match channel {
        1 => common.tempo_one = tempo,
        2 => common.tempo_two = tempo,
        _ => common.tempo_three = tempo,
    }
}

/// Sets the tempo of each channel.
fn set_all_tempos(common: &mut CommonState, tempo: u8)
    ensures { common.new ≡ with_all_tempos tempo common.old }
{
    common.tempo_one = tempo;
    common.tempo_two = tempo;
    common.tempo_three = tempo;
}

/// Command `$E`: the three tempos become 0, and a parameter names the row with the two row lengths.
fn funk_tempo(common: &mut CommonState, song: &Song, parameter: u8)
    ensures { common.new ≡ funk_tempo (look_ups_of song.now) parameter common.old }
{
    if parameter != 0 {
        funk_set(common, song.speed(parameter));
    }
    set_all_tempos(common, 0);
}

/// Sets the two row lengths, each a side less 1.
fn funk_set(common: &mut CommonState, row: TableRow)
    ensures { common.new ≡ funk_set row common.old }
{
    common.funk_one = row.left.wrapping_sub(1);
    common.funk_two = row.right.wrapping_sub(1);
}

/// Command `$F`: 0 and 1 are funk tempos, `$03-$7F` is a row length for all channels, `$83-$FF` for this one.
fn tempo_set(common: &mut CommonState, channel: u8, parameter: u8)
    ensures { common.new ≡ tempo_set channel parameter common.old }
{
    match parameter {
        0 | 1 => set_all_tempos(common, parameter),
        0x03..=0x7f => set_all_tempos(common, parameter - 1),
        0x83..=0xff => set_tempo(common, channel, parameter - 0x81),
        _ => {}
    }
}
