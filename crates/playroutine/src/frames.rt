//! One frame of a subtune.

ghost use Rattle.std.specs.Prelude.{◌≡◌};
ghost use Rattle.play_model.specs.LookUps.{look_ups_of};
ghost use Rattle.play_model.specs.State.{FrameState};
ghost use Rattle.play_model.specs.StandsFor.{StateStandsFor};
ghost use Rattle.play_model.specs.Frame.{frame_of, voices_done};
ghost use Rattle.playroutine.specs.Playback.{IsEndlessSubtune};

use crate::filter_step;
use crate::registers::{all_registers, filter_registers, voice_registers};
use crate::voices::voice_step;
use play_model::{Options, PlayState};
use song_model::{Song, Subtune};

/// One frame: the filter, its registers, and the three voices in turn. Answers registers 0 to 24.
#[tactic(auto, unfolding(play_model::specs::Frame::frame_of))]
pub(crate) fn frame_of(
    state: &mut PlayState,
    subtune: &Subtune,
    song: &Song,
    options: &Options,
) -> [u8; 25]
    requires endless { IsEndlessSubtune subtune.now }
    requires stands { (x : FrameState) × StateStandsFor subtune.now state.old x }
    ensures registers { (x : FrameState) → StateStandsFor subtune.now state.old x →
        result ≡ (frame_of options.now (look_ups_of song.now) subtune.now x).registers }
    ensures state { (x : FrameState) → StateStandsFor subtune.now state.old x →
        StateStandsFor subtune.now state.new
        (frame_of options.now (look_ups_of song.now) subtune.now x).state }
{
    filter_step(&mut state.common, song);
    let filter = filter_registers(&state.common);
    voices_done(state, subtune, song, options);
    let one = voice_registers(&state.one);
    let two = voice_registers(&state.two);
    let three = voice_registers(&state.three);
    all_registers(one, two, three, filter)
}

/// The steps of the voices, one after the other: each sees what the ones before it did to the tempos.
fn voices_done(state: &mut PlayState, subtune: &Subtune, song: &Song, options: &Options)
    requires endless { IsEndlessSubtune subtune.now }
    requires stands { (x : FrameState) × StateStandsFor subtune.now state.old x }
    ensures { (x : FrameState) → StateStandsFor subtune.now state.old x →
        StateStandsFor subtune.now state.new
        (voices_done options.now (look_ups_of song.now) subtune.now x) }
{
    let PlayState {
        common,
        one,
        two,
        three,
    } = state;
    voice_step(one, 1, common, &subtune.one, song, options);
    voice_step(two, 2, common, &subtune.two, song, options);
    voice_step(three, 3, common, &subtune.three, song, options);
}
