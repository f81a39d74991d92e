//! The player of one subtune.

ghost use Rattle.std.specs.Prelude.{◌≡◌, ◌≤◌, ◌↔◌, length, IsErr, IfOk, IfErr};
ghost use Rattle.song_model.specs.LookUp.{playable_subtunes};
ghost use Rattle.play_model.specs.Playable.{IsPlayable};
ghost use Rattle.play_model.specs.State.{start_state};
ghost use Rattle.playroutine.specs.Playback.{PlaysSubtune, PlayerStandsFor, PlaysFrame};
ghost use Rattle.playroutine.specs.Cases.{UsesItsFeatures};

use crate::frames::frame_of;
use play_model::{Options, PlayState};
use song_model::{Song, Subtune};
use std::marker::Model;

/// No playable subtune has the number that was asked for.
#[derive(Clone, Copy, Debug, PartialEq, Eq, Drop)]
pub struct NoSuchSubtune {
    /// The number that was asked for, counted from 0.
    pub asked: u8,
    /// How many playable subtunes the song has, 0 to 32.
    pub count: u8,
}

/// A player of one subtune of a song, which stands at the end of a frame.
#[derive(Drop)]
pub struct Player<'a> {
    song: &'a Song,
    subtune: &'a Subtune,
    /// The number of the subtune among the playable ones, counted from 0, by which contracts know it.
    number: u8,
    options: Options,
    state: PlayState,
}

impl<'a> Model for Player<'a> {
    ghost use Rattle.playroutine.specs.Playback.{Playback, IsAtFrame};

    ghost Value = { Playback };

    ghost view = { λ player. record {
      song = player.song.now;
      subtune = player.number;
      options = player.options;
      state = player.state;
    } };

    ghost invariant = { λ player.
        IsAtFrame player.song.now player.subtune.now player.number player.options player.state };
}

/// A player of the playable subtune with this number, counted from 0, before its first frame. The song has to be one
/// that can be played.
///
/// # Errors
///
/// `NoSuchSubtune` where the song has no more playable subtunes than the number.
pub fn start(song: &Song, subtune: u8, options: Options) -> Result<Player<'_>, NoSuchSubtune>
    requires { IsPlayable song.now }
    ensures refused { IsErr result ↔ (length (playable_subtunes song.now) ≤ subtune) }
    ensures numbers { IfErr result (λ refusal. refusal ≡
        record { asked = subtune; count = length (playable_subtunes song.now) }) }
    ensures plays { IfOk result (λ player. PlaysSubtune player song.now subtune options) }
    ensures start { IfOk result (λ player. PlayerStandsFor player (start_state options)) }
{
    match song.playable(subtune) {
        Some(played) => Ok(Player {
            song,
            subtune: played,
            number: subtune,
            options: Options { ..options },
            state: PlayState::start(options),
        }),
        None => Err(NoSuchSubtune {
            asked: subtune,
            count: song.playable_count(),
        }),
    }
}

impl<'a> Player<'a> {
    /// Plays one frame, and answers what it leaves in the SID's registers 0 to 24, `$D400-$D418`. The features of the
    /// song name whatever it does.
    pub fn frame(&mut self) -> [u8; 25]
        ensures plays { PlaysFrame self.old result self.new }
        ensures cases { UsesItsFeatures self.old }
    {
        let song = self.song;
        let subtune = self.subtune;
        frame_of(&mut self.state, subtune, song, &self.options)
    }
}
