//! Packed songs, and the refusals of songs that can't be packed.
#![tactic(auto, using(crate::proofs::Room::pieces_fit))]

ghost use Rattle.std.specs.Prelude.{◌≡◌, List, ℕ, IfOk, IfErr, OnOk};
ghost use Rattle.goat_io.specs.Files.{Files};
ghost use Rattle.song_model.specs.Limits.{KeepsLimits};
ghost use Rattle.play_model.specs.State.{no_options};
ghost use Rattle.play_model.specs.Playable.{IsPlayable};
ghost use Rattle.usage.specs.Parts.{AreUsedParts};
ghost use Rattle.song_gen.specs.GeneratedLaws.{PatternsAreShort};
ghost use Rattle.command_line.specs.Last.{last_of, Says};
ghost use Rattle.jobs.specs.Lines.{too_large_line, image_too_large_line};
ghost use Rattle.jobs.specs.Stages.{HasShortPatterns, HoldsSong, IsMet};
ghost use Rattle.jobs.specs.Endings.{Refuses, PacksSong};

use command_line::{Piece, Refusal, Status};
use cut_pack::pack_shorter;
use packed_form::PackedSong;
use play_model::Options;
use song_model::{NoMemory, Song};
use song_pack::PackFault;
use std::alloc::Global;
use usage::{UsedParts, usage};

/// The packed song of a song, for how it is played.
///
/// # Errors
///
/// The text of a used pattern is too long; out of memory.
pub fn packed_song(
    alloc: Global,
    song: &Song,
    parts: &UsedParts,
    options: &Options,
) -> Result<PackedSong, Refusal<'static>>
    requires limits { KeepsLimits song.now }
    requires playable { IsPlayable song.now }
    requires parts { AreUsedParts song.now parts.now }
    ensures packs { IfOk result (λ packed. PacksSong options.now packed song.now) }
    ensures short { OnOk result ((files : Files) (name : List ℕ) → HoldsSong files name song.now →
        IsMet files (HasShortPatterns name)) }
    ensures refused { IfErr result (λ refusal. (files : Files) (name : List ℕ) →
        HoldsSong files name song.now → Refuses files (HasShortPatterns name) (last_of refusal)) }
{
    match pack_shorter(alloc, song, parts, options) {
        Ok(packed) => Ok(packed),
        Err(PackFault::NoMemory) => Err(Refusal::NoMemory),
        Err(PackFault::PatternTooLong { pattern, length }) => {
            Err(too_large_pattern(pattern, length))
        }
    }
}

/// The refusal of a song with a pattern whose text is too long.
fn too_large_pattern(pattern: u8, length: u16) -> Refusal<'static>
    ensures { last_of result ≡ Says 7 (too_large_line pattern length) }
{
    Refusal::says(
        Status::TooLarge,
        &[
            Piece::Words("too large: pattern "),
            Piece::Number(u64::from(pattern)),
            Piece::Words(" packs to "),
            Piece::Number(u64::from(length)),
            Piece::Words(" bytes"),
        ],
    )
}

/// The packed song of a song with short patterns.
///
/// # Errors
///
/// Out of memory.
pub fn short_song(alloc: Global, song: &Song) -> Result<PackedSong, NoMemory>
    requires limits { KeepsLimits song.now }
    requires playable { IsPlayable song.now }
    requires short { PatternsAreShort song.now }
    ensures { IfOk result (λ packed. PacksSong no_options packed song.now) }
{
    let Ok(parts) = usage(song) else {
        unreachable!()
    };
    match pack_shorter(alloc, song, &parts, &Options::default()) {
        Ok(packed) => Ok(packed),
        Err(PackFault::NoMemory) => Err(NoMemory),
        Err(PackFault::PatternTooLong { .. }) => unreachable!(),
    }
}

/// The refusal of a song whose image would pass `$D000`.
pub fn too_large_image(length: u32) -> Refusal<'static>
    ensures { last_of result ≡ Says 7 (image_too_large_line length) }
{
    Refusal::says(
        Status::TooLarge,
        &[
            Piece::Words("too large: image of "),
            Piece::Number(u64::from(length)),
            Piece::Words(" bytes"),
        ],
    )
}
