//! The song of a number.

ghost use Rattle.std.specs.Prelude.{◌≡◌, IfOk};
ghost use Rattle.play_model.specs.Playable.{IsPlayable};
ghost use Rattle.song_gen.specs.GeneratedSong.{generated_song};
ghost use Rattle.song_gen.specs.GeneratedLaws.{PatternsAreShort, IsSmall};

use crate::draws::Draws;
use crate::instruments::draw_instruments;
use crate::patterns::draw_patterns;
use crate::subtunes::draw_subtunes;
use crate::tables::{filter_table, pulse_table, speed_table, wave_table};
use base::NoMemory;
use song_model::Song;
use std::alloc::Global;

/// The song of a number: four instruments, a hundred patterns of 32 rows, eight subtunes, and programs of every kind.
/// Each number has one song.
///
/// # Errors
///
/// Out of memory.
pub fn generate(alloc: Global, number: u64) -> Result<Song, NoMemory>
    ensures song { IfOk result (λ song. song ≡ generated_song number) }
    ensures playable { IfOk result IsPlayable }
    ensures short { IfOk result PatternsAreShort }
    ensures small { IfOk result IsSmall }
{
    let mut draws = Draws { number };
    let instruments = draw_instruments(alloc, &mut draws)?;
    let patterns = draw_patterns(alloc, &mut draws)?;
    let subtunes = draw_subtunes(alloc, &mut draws)?;
    Ok(Song {
        name: [0; 32],
        author: [0; 32],
        copyright: [0; 32],
        subtunes,
        instruments,
        wave: wave_table(alloc)?,
        pulse: pulse_table(alloc)?,
        filter: filter_table(alloc)?,
        speed: speed_table(alloc)?,
        patterns,
    })
}
