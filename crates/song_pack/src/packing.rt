//! Packing a song.

ghost use Rattle.std.specs.Prelude.{◌≡◌, IfOk, IfErr, OnOk};
ghost use Rattle.song_model.specs.Limits.{KeepsLimits};
ghost use Rattle.play_model.specs.Playable.{IsPlayable};
ghost use Rattle.usage.specs.Parts.{AreUsedParts};
ghost use Rattle.packing_rules.specs.UsedSets.{UsedSets, AreUsedSets};
ghost use Rattle.packed_form.specs.StandsFor.{StandsFor};
ghost use Rattle.song_pack.specs.Packed.{IsPacked};
ghost use Rattle.song_pack.specs.Answers.{HasPackedSize, AreShort, IsCause};

use crate::PackFault;
use crate::instrument_order::instruments_in_order;
use crate::instruments::packed_instruments;
use crate::numbers::instrument_numbers;
use crate::orders::packed_subtunes;
use crate::patterns::packed_patterns;
use crate::tables::packed_tables;
use number_range::number_range;
use packed_form::PackedSong;
use song_model::Song;
use std::alloc::Global;
use usage::UsedParts;

/// The packed song of a song that can be played, with what it uses.
///
/// # Errors
///
/// The text of a used pattern is longer than 256 bytes, the first such pattern; out of memory.
pub fn pack_song(alloc: Global, song: &Song, usage: &UsedParts) -> Result<PackedSong, PackFault>
    requires playable { IsPlayable song.now }
    requires parts { AreUsedParts song.now usage.now }
    // It plays what the song plays, with any options, and can be played itself.
    ensures stands { IfOk result (λ packed. KeepsLimits song.now → StandsFor packed song.now) }
    // Each of its parts is the one that the packed form's definitions name.
    ensures exact { (used : UsedSets) → AreUsedSets song.now used → KeepsLimits song.now →
        IfOk result (IsPacked song.now used) }
    // It has the size that the song's definitions name.
    ensures size { (used : UsedSets) → AreUsedSets song.now used → KeepsLimits song.now →
        IfOk result (λ packed. HasPackedSize packed song.now used) }
    // A pattern that is too long is told exactly where there is one, and the first of them.
    ensures short { (used : UsedSets) → AreUsedSets song.now used → KeepsLimits song.now →
        OnOk result (AreShort song.now used) }
    ensures fault { (used : UsedSets) → AreUsedSets song.now used → KeepsLimits song.now →
        IfErr result (IsCause song.now used) }
{
    let tables = packed_tables(alloc, song, usage)?;
    let order = instruments_in_order(alloc, song, usage)?;
    let instruments = packed_instruments(alloc, song, &order, &tables.numbers)?;
    let numbers = instrument_numbers(&order);
    let patterns = packed_patterns(alloc, song, &usage.patterns, &tables.numbers, &numbers)?;
    let subtunes = packed_subtunes(alloc, song, &patterns.to)?;
    Ok(PackedSong {
        subtunes,
        patterns: patterns.list,
        instruments,
        wave: tables.wave,
        pulse: tables.pulse,
        filter: tables.filter,
        speed: tables.speed,
        features: usage.features,
        facts: usage.facts,
        numbers: number_range(song, usage),
    })
}
